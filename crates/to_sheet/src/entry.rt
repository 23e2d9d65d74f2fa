// The lines of entries and of pairs, stored at a place of the output. Each function answers the place after what it
// stores. Each has a bound on that place, since the place of a line's number is passed as 32 bits; it is of what the function itself
// stores, so that no type of the output's could hold it. So contents, names and pairs have a loop each: one loop over any items
// that have a line would have to ask that bound of every run of its iterator, and each kind of item would have an impl of a law.
ghost use mathlib.Core.List.{flat_map};
ghost use Rattle.std.specs.Prelude.{[], ◌∷◌, ◌≡◌, ◌+◌, ◌<◌, ◌≤◌, ◌^◌, length};
ghost use Rattle.std.proofs.lemmas.List.Edits.{sets};
ghost use Rattle.sheet.specs.Fields.{newline};
ghost use Rattle.accepted.specs.Entries.{placed};
ghost use Rattle.to_sheet.specs.Entry.{sheet_limit, content_line, name_line, pair_line};

use accepted::{Content, Contents, Name, Names, Pair, Pairs};

// The end of a line.
pub fn end_line(output: &mut [u8], end: usize) -> usize
    requires { end < 2 ^ 60 }
    ensures value { result ≡ end + 1 }
    ensures output_after { output.new ≡ sets output.old end (newline ∷ []) }
{
    wire::write_bytes(output, end, b"\n");
    end + 1
}

// The line of a content.
fn write_content(entry: Content, output: &mut [u8], to: usize) -> usize
    requires { to + length (content_line (placed entry.payload.now entry.at)) ≤ sheet_limit }
    ensures value { result ≡ to + length (content_line (placed entry.entry.payload.now entry.entry.at)) }
    ensures output_after { output.new ≡ sets output.old to (content_line (placed entry.entry.payload.now entry.entry.at)) }
{
    wire::write_bytes(output, to, b"content");
    let start = entry.text_start();
    let text = entry.text_length();
    let end = field_writer::write_text(output, (to + 7) as u32, entry.payload, start, text);
    end_line(output, end)
}

// The lines of contents.
pub fn write_contents(entries: Contents, output: &mut [u8], mut to: usize) -> usize
    requires { to + length (flat_map content_line entries) ≤ sheet_limit }
    ensures value { result ≡ to + length (flat_map content_line entries.entry) }
    ensures output_after { output.new ≡ sets output.old to (flat_map content_line entries.entry) }
{
    for entry in entries {
        to = write_content(entry, output, to);
    }
    to
}

// The line of a name.
fn write_name(entry: Name, output: &mut [u8], to: usize) -> usize
    requires { to + length (name_line (placed entry.payload.now entry.at)) ≤ sheet_limit }
    ensures value { result ≡ to + length (name_line (placed entry.entry.payload.now entry.entry.at)) }
    ensures output_after { output.new ≡ sets output.old to (name_line (placed entry.entry.payload.now entry.entry.at)) }
{
    wire::write_bytes(output, to, b"name");
    let size = entry.content_size();
    let next = field_writer::write_number(output, (to + 4) as u32, size);
    let start = entry.text_start();
    let text = entry.text_length();
    let end = field_writer::write_text(output, next as u32, entry.payload, start, text);
    end_line(output, end)
}

// The lines of names.
pub fn write_names(entries: Names, output: &mut [u8], mut to: usize) -> usize
    requires { to + length (flat_map name_line entries) ≤ sheet_limit }
    ensures value { result ≡ to + length (flat_map name_line entries.entry) }
    ensures output_after { output.new ≡ sets output.old to (flat_map name_line entries.entry) }
{
    for entry in entries {
        to = write_name(entry, output, to);
    }
    to
}

// The line of a pair.
fn write_pair(pair: Pair, output: &mut [u8], to: usize) -> usize
    requires { to + length (pair_line (placed pair.payload.now pair.at)) ≤ sheet_limit }
    ensures value { result ≡ to + length (pair_line (placed pair.entry.payload.now pair.entry.at)) }
    ensures output_after { output.new ≡ sets output.old to (pair_line (placed pair.entry.payload.now pair.entry.at)) }
{
    wire::write_bytes(output, to, b"pair");
    let next = field_writer::write_text(output, (to + 4) as u32, pair.payload, pair.at, pair.name);
    let start = pair.value_start();
    let end = field_writer::write_text(output, next as u32, pair.payload, start, pair.value);
    end_line(output, end)
}

// The lines of pairs.
pub fn write_pairs(pairs: Pairs, output: &mut [u8], mut to: usize) -> usize
    requires { to + length (flat_map pair_line pairs) ≤ sheet_limit }
    ensures value { result ≡ to + length (flat_map pair_line pairs.entry) }
    ensures output_after { output.new ≡ sets output.old to (flat_map pair_line pairs.entry) }
{
    for pair in pairs {
        to = write_pair(pair, output, to);
    }
    to
}
