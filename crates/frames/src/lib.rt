// What stands around the bytes that a section stores, around the text of an entry, and before all sections: headers before
// them, and a NUL and padding after them. What they stand around goes first, since headers count it.
//
// Proved: every function is total, and stores just what its definition in specs/ says; those that another crate can
// call have no `requires`. Around what a section stores that is the section (proofs/Closed.antt), around a text the
// entry (proofs/EntryClosed.antt), and around sections the payload (proofs/PayloadClosed.antt). A number that does not fit
// its field is stored by its low bytes.
#![tactic(auto)]

mod entry;

ghost use Rattle.std.specs.Prelude.{[], ◌≡◌, ◌+◌, ◌-◌};
ghost use Rattle.std.proofs.lemmas.List.Edits.{sets};
ghost use Rattle.wire.specs.Padding.{aligned};
ghost use Rattle.layout.specs.Kinds.{compression_number};
ghost use Rattle.layout.specs.declared.section_type.SourceInfoSectionType.TheVariants.{SourceContents, SourceNames, Arguments};
ghost use Rattle.frames.specs.Frame.{framed, main_header, contents_header, names_header, arguments_header};

pub use entry::{close_content, close_name, close_text};
use layout::{SourceCompression, SourceInfoSectionType};

// Closes a section that stands at `start` and whose stored bytes end at `end`: stores its section header, and zeros
// from `end` on up to a multiple of 4. Answers the place after it. A section of an unknown kind has no other header.
// Start, end and count go as numbers, here and below: crate write has them beside the index of a row, and the two other callers in
// variables of their own, so that a struct of this crate would be made anew at each call. Inlined, as that of contents is: with
// a call for each section, a public copy of many packed ones executes 13 % more.
#[inline(always)]
#[tactic(auto, using(wire::proofs::PaddingLaws::padding_bounds), unfolding(wire::specs::Padding::aligned))]
pub fn close_section(output: &mut [u8], start: u32, end: u32, kind: SourceInfoSectionType) -> usize
    ensures value { result ≡ start + aligned (end - start) }
    ensures output_after { output.new ≡ framed output.old start end kind [] }
{
    let at = start as usize;
    let length = (end as usize).saturating_sub(at);
    let zeros = wire::padding_length(length);
    let size = length + zeros;
    wire::write_u32(output, at, (size % 0x1_0000_0000) as u32);
    wire::write_u16(output, at + 4, 0);
    wire::write_u16(output, at + 6, kind.to_u16());
    wire::write_zeros(output, end as usize, zeros);
    at + size
}

// The same for contents, with their body header. Each kind has a function, since a body header has fields of its own, in an
// order of their own, which are stored in place: as bytes in a row they would be made first, and copied.
#[inline(always)]
#[tactic(auto, using(crate::proofs::Closed::fields_first))]
pub fn close_contents(
    output: &mut [u8],
    start: u32,
    end: u32,
    field: u32,
    compression: SourceCompression,
    uncompressed: u32,
    count: u32,
) -> usize
    ensures value { result ≡ start + aligned (end - start) }
    ensures output_after { output.new ≡ framed output.old start end SourceContents (contents_header field (compression_number compression) (end - (start + 28)) uncompressed count) }
{
    let at = start as usize;
    let bytes = (end as usize).saturating_sub(at + SourceInfoSectionType::CONTENTS_START);
    wire::write_u32(output, at + 8, field);
    wire::write_u16(output, at + 12, 0);
    wire::write_u16(output, at + 14, compression.to_u16());
    wire::write_u32(output, at + 16, bytes as u32);
    wire::write_u32(output, at + 20, uncompressed);
    wire::write_u32(output, at + 24, count);
    close_section(output, start, end, SourceInfoSectionType::SourceContents)
}

// The same for names. The field for the size of their entries has 16 bits.
#[tactic(auto, using(crate::proofs::Closed::fields_first))]
pub fn close_names(output: &mut [u8], start: u32, end: u32, count: u32) -> usize
    ensures value { result ≡ start + aligned (end - start) }
    ensures output_after { output.new ≡ framed output.old start end SourceNames (names_header (end - (start + 18)) count) }
{
    let at = start as usize;
    let bytes = (end as usize).saturating_sub(at + SourceInfoSectionType::NAMES_START);
    wire::write_u32(output, at + 8, 0);
    wire::write_u32(output, at + 12, count);
    wire::write_u16(output, at + 16, (bytes % 0x1_0000) as u16);
    close_section(output, start, end, SourceInfoSectionType::SourceNames)
}

// The same for arguments.
#[tactic(auto, using(crate::proofs::Closed::fields_first))]
pub fn close_arguments(output: &mut [u8], start: u32, end: u32, count: u32) -> usize
    ensures value { result ≡ start + aligned (end - start) }
    ensures output_after { output.new ≡ framed output.old start end Arguments (arguments_header (end - (start + 20)) count) }
{
    let at = start as usize;
    let bytes = (end as usize).saturating_sub(at + SourceInfoSectionType::ARGS_START);
    wire::write_u32(output, at + 8, 0);
    wire::write_u32(output, at + 12, bytes as u32);
    wire::write_u32(output, at + 16, count);
    close_section(output, start, end, SourceInfoSectionType::Arguments)
}

// Closes a payload of so many bytes, whose sections stand from 8 on: stores its main header.
#[tactic(auto, using(crate::proofs::Closed::fields_first))]
pub fn close_payload(output: &mut [u8], size: u32, sections: u16)
    ensures { output.new ≡ sets output.old 0 (main_header size sections) }
{
    wire::write_u32(output, 0, size);
    wire::write_u16(output, 4, 0);
    wire::write_u16(output, 6, sections);
}
