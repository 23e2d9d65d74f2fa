// The lines of sections, stored at a place of the output. Each function answers the place after what it stores. The words
// stand here and in entry.rt as they are stored, and in crate line_reader as they are tested: either pays for each line, and
// wants an array of its own length, which a function of a tag could not give; constants for the eight would be no plainer.
ghost use Rattle.std.specs.Prelude.{◌≡◌, ◌+◌, ◌≤◌, length};
ghost use mathlib.Core.List.{flat_map};
ghost use Rattle.std.proofs.lemmas.List.Edits.{sets};
ghost use Rattle.sheet.specs.Lines.{line};
ghost use Rattle.sheet.specs.SheetWalk.{plain_at, packed_at, unknown_at, section_records};
ghost use Rattle.to_sheet.specs.Entry.{sheet_limit};

use crate::entry::{end_line, write_contents, write_names, write_pairs};
use accepted::{Body, CheckedSection};
use layout::SourceInfoSectionType;

// The line of packed contents.
fn write_packed(section: CheckedSection, output: &mut [u8], to: usize) -> usize
    requires { to + length (line (packed_at section.payload.now section.at)) ≤ sheet_limit }
    ensures value { result ≡ to + length (line (packed_at section.entry.payload.now section.entry.at)) }
    ensures output_after { output.new ≡ sets output.old to (line (packed_at section.entry.payload.now section.entry.at)) }
{
    wire::write_bytes(output, to, b"packed");
    let field = section.header_field();
    let count = section.content_count();
    let uncompressed = section.uncompressed_size();
    let size = section.stored_size();
    let first = field_writer::write_number(output, (to + 6) as u32, field);
    let second = field_writer::write_number(output, first as u32, count);
    let third = field_writer::write_number(output, second as u32, uncompressed);
    let start = section.at + SourceInfoSectionType::CONTENTS_START;
    let end = field_writer::write_hex(output, third as u32, section.payload, start, size);
    end_line(output, end)
}

// The line of a section of an unknown kind.
fn write_unknown(section: CheckedSection, kind: u16, output: &mut [u8], to: usize) -> usize
    requires { to + length (line (unknown_at section.payload.now kind section.at)) ≤ sheet_limit }
    ensures value { result ≡ to + length (line (unknown_at section.entry.payload.now kind section.entry.at)) }
    ensures output_after { output.new ≡ sets output.old to (line (unknown_at section.entry.payload.now kind section.entry.at)) }
{
    let start = section.at + SourceInfoSectionType::SECTION_HEADER_SIZE;
    let bytes = section.body_size();
    wire::write_bytes(output, to, b"unknown");
    let next = field_writer::write_number(output, (to + 7) as u32, kind as u32);
    let end = field_writer::write_hex(output, next as u32, section.payload, start, bytes);
    end_line(output, end)
}

// The line of plain contents, before their entries.
fn write_plain(section: CheckedSection, output: &mut [u8], to: usize) -> usize
    requires { to + length (line (plain_at section.payload.now section.at)) ≤ sheet_limit }
    ensures value { result ≡ to + length (line (plain_at section.entry.payload.now section.entry.at)) }
    ensures output_after { output.new ≡ sets output.old to (line (plain_at section.entry.payload.now section.entry.at)) }
{
    wire::write_bytes(output, to, b"contents");
    let field = section.header_field();
    let end = field_writer::write_number(output, (to + 8) as u32, field);
    end_line(output, end)
}

// The lines of a section.
pub fn write_section(section: CheckedSection, output: &mut [u8], to: usize) -> usize
    requires { to + length (flat_map line (section_records section.payload.now section.kind section.at)) ≤ sheet_limit }
    ensures value { result ≡ to + length (flat_map line (section_records section.entry.payload.now section.entry.kind section.entry.at)) }
    ensures output_after { output.new ≡ sets output.old to (flat_map line (section_records section.entry.payload.now section.entry.kind section.entry.at)) }
{
    match section.body() {
        Body::Contents(entries) => {
            let next = write_plain(section, output, to);
            write_contents(entries, output, next)
        }
        Body::Packed => write_packed(section, output, to),
        Body::Names(entries) => {
            wire::write_bytes(output, to, b"names\n");
            write_names(entries, output, to + 6)
        }
        Body::Arguments(pairs) => {
            wire::write_bytes(output, to, b"arguments\n");
            write_pairs(pairs, output, to + 10)
        }
        Body::Unknown(kind) => write_unknown(section, kind, output, to),
    }
}
