// Entries of contents and of names, and pairs, from the fields of their lines, stored at a place of the output. Each
// answers the place after it. Crate write has the same of texts that stand in bytes: one for both would need a trait with a
// law for what a text stores, and two types that keep it, which is no plainer than four functions of two or three lines. A
// content stands beside a name, and each has a bound, for the reasons that crate write has.
ghost use Rattle.std.specs.Prelude.{◌≡◌, ◌+◌, ◌≤◌, length};
ghost use Rattle.std.proofs.lemmas.List.Edits.{sets};
ghost use Rattle.wire.specs.Length.{wire_size};
ghost use Rattle.format.specs.Encoding.{limit, terminate, content_entry, name_entry, pair_entry};
ghost use Rattle.frames.specs.Entry.{name, pair};
ghost use Rattle.sheet.specs.Fields.{unescape};

use crate::text::write_unescaped;
use layout::SourceInfoSectionType;

// A content.
pub fn store_content(output: &mut [u8], at: u32, field: &[u8]) -> usize
    requires { at + length (content_entry (unescape field.now)) ≤ limit }
    ensures value { result ≡ at + length (content_entry (unescape field.now)) }
    ensures output_after { output.new ≡ sets output.old at (content_entry (unescape field.now)) }
{
    let text = at as usize + SourceInfoSectionType::CONTENT_ENTRY_HEADER_SIZE;
    let end = write_unescaped(output, text, field);
    frames::close_content(output, at, end as u32)
}

// A name, with its content's size.
pub fn store_name(output: &mut [u8], at: u32, field: &[u8], content_size: u32) -> usize
    requires { at + length (name_entry (name (unescape field.now) content_size)) ≤ limit }
    ensures value { result ≡ at + length (name_entry (name (unescape field.now) content_size)) }
    ensures output_after { output.new ≡ sets output.old at (name_entry (name (unescape field.now) content_size)) }
{
    let text = at as usize + SourceInfoSectionType::NAME_ENTRY_HEADER_SIZE;
    let end = write_unescaped(output, text, field);
    frames::close_name(output, at, end as u32, content_size)
}

// A text with its NUL.
fn store_text(output: &mut [u8], at: u32, field: &[u8]) -> usize
    requires { at + wire_size (length (unescape field.now)) ≤ limit }
    ensures value { result ≡ at + wire_size (length (unescape field.now)) }
    ensures output_after { output.new ≡ sets output.old at (terminate (unescape field.now)) }
{
    let end = write_unescaped(output, at as usize, field);
    frames::close_text(output, end as u32)
}

// A pair: its name and its value.
pub fn store_pair(output: &mut [u8], at: u32, key: &[u8], value: &[u8]) -> usize
    requires { at + length (pair_entry (pair (unescape key.now) (unescape value.now))) ≤ limit }
    ensures value { result ≡ at + length (pair_entry (pair (unescape key.now) (unescape value.now))) }
    ensures output_after { output.new ≡ sets output.old at (pair_entry (pair (unescape key.now) (unescape value.now))) }
{
    let next = store_text(output, at, key);
    store_text(output, next as u32, value)
}
