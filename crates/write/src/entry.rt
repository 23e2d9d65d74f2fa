// Entries of contents and of names, and pairs, stored at a place of the output: the text first, and then what stands
// around it (crate frames). Each answers the place after it. A content and a name differ in the size of their
// header and in what closes them, so one function of both would match an `EntryKind` twice. Crate from_sheet has the same of
// escaped fields, and says why. The bound is of what each function stores, as in crate to_sheet, so that no type could hold it.
ghost use Rattle.std.specs.Prelude.{◌≡◌, ◌+◌, ◌≤◌, length};
ghost use Rattle.std.proofs.lemmas.List.Edits.{sets};
ghost use Rattle.wire.specs.Length.{wire_size};
ghost use Rattle.format.specs.Encoding.{limit, terminate, content_entry, name_entry, pair_entry};
ghost use Rattle.frames.specs.Entry.{name, pair};

use layout::SourceInfoSectionType;

// A content.
#[tactic(auto, using(crate::proofs::EntryLaws::contents))]
pub fn write_content(output: &mut [u8], at: usize, text: &[u8]) -> usize
    requires { at + length (content_entry text.now) ≤ limit }
    ensures value { result ≡ at + length (content_entry text.now) }
    ensures output_after { output.new ≡ sets output.old at (content_entry text.now) }
{
    let start = at + SourceInfoSectionType::CONTENT_ENTRY_HEADER_SIZE;
    wire::write_bytes(output, start, text);
    frames::close_content(output, at as u32, (start + text.len()) as u32)
}

// A name, with its content's size.
#[tactic(auto, using(crate::proofs::EntryLaws::names))]
pub fn write_name(output: &mut [u8], at: usize, text: &[u8], content_size: u32) -> usize
    requires { at + length (name_entry (name text.now content_size)) ≤ limit }
    ensures value { result ≡ at + length (name_entry (name text.now content_size)) }
    ensures output_after { output.new ≡ sets output.old at (name_entry (name text.now content_size)) }
{
    let start = at + SourceInfoSectionType::NAME_ENTRY_HEADER_SIZE;
    wire::write_bytes(output, start, text);
    frames::close_name(output, at as u32, (start + text.len()) as u32, content_size)
}

// A text with its NUL.
#[tactic(auto, using(crate::proofs::EntryLaws::text_stored))]
fn write_text(output: &mut [u8], at: usize, text: &[u8]) -> usize
    requires { at + wire_size (length text.now) ≤ limit }
    ensures value { result ≡ at + wire_size (length text.now) }
    ensures output_after { output.new ≡ sets output.old at (terminate text.now) }
{
    wire::write_bytes(output, at, text);
    frames::close_text(output, (at + text.len()) as u32)
}

// A pair: its name and its value.
#[tactic(auto, using(crate::proofs::EntryLaws::pairs))]
pub fn write_pair(output: &mut [u8], at: usize, key: &[u8], value: &[u8]) -> usize
    requires { at + length (pair_entry (pair key.now value.now)) ≤ limit }
    ensures value { result ≡ at + length (pair_entry (pair key.now value.now)) }
    ensures output_after { output.new ≡ sets output.old at (pair_entry (pair key.now value.now)) }
{
    let next = write_text(output, at, key);
    write_text(output, next, value)
}
