// A whole payload: its sections in order, and the main header before them.
ghost use Rattle.std.specs.Prelude.{is_ok, true, ◌≡◌, length, get_or};
ghost use mathlib.Core.List.{flat_map};
ghost use Rattle.std.proofs.lemmas.List.Edits.{sets};
ghost use Rattle.table.specs.Tags.{tag_of};
ghost use Rattle.table.specs.Rows.{no_row};
ghost use Rattle.format.specs.Encoding.{encode_section, encode};
ghost use Rattle.format.specs.Write.{written};
ghost use Rattle.write.specs.Source.{rows, all_sections, section, after, MayWrite};

use crate::position::Position;
use crate::source::Source;
use crate::writers::{write_arguments, write_names, write_packed, write_plain, write_unknown};
use layout::SourceInfoSectionType;
use table::Tag;

// The section that the row at a position begins, with its entries. The position is lent on to the section's writer.
fn write_section(source: &Source, output: &mut [u8], position: &mut Position)
    requires { MayWrite source.now (tag_of (get_or (rows source.now) position.old.index no_row).tag) position.old }
    ensures position_after { position.new ≡ after source.now position.old }
    ensures output_after { output.new ≡ sets output.old position.old.at (encode_section (section source.now position.old)) }
{
    match Tag::from_u32(source.row(position.index).tag) {
        Some(Tag::PlainContents) => write_plain(source, output, position),
        Some(Tag::PackedContents) => write_packed(source, output, position),
        Some(Tag::Names) => write_names(source, output, position),
        Some(Tag::Arguments) => write_arguments(source, output, position),
        Some(Tag::Unknown) => write_unknown(source, output, position),
        // no entry begins a section, so no entry comes here
        _ => unreachable!(),
    }
}

// All sections, after the main header. Answers how many they are. The one position is made here, lent for each section, and
// stands past the last one where no row is left. A turn moves it on by a whole section, so no range gives its index, and how
// many sections there are is known as they are written.
fn write_sections(source: &Source, output: &mut [u8]) -> u16
    requires { is_ok (written source.now.sides.payload.now source.now.sides.edit.now (rows source.now)) ≡ true }
    ensures value { result ≡ length (all_sections source.now) }
    ensures output_after { output.new ≡ sets output.old 8 (flat_map encode_section (all_sections source.now)) }
{
    let count = source.count();
    let mut position = Position {
        index: 0,
        at: SourceInfoSectionType::MAIN_HEADER_SIZE,
    };
    let mut sections: u16 = 0;
    while position.index < count {
        write_section(source, output, &mut position);
        sections += 1;
    }
    sections
}

// The payload that rows are written as, of so many bytes, from the output's start on.
#[tactic(auto, using(frames::proofs::PayloadClosed::payload_closed))]
pub fn write_srci(source: &Source, output: &mut [u8], size: u32)
    requires rows_ok { is_ok (written source.now.sides.payload.now source.now.sides.edit.now (rows source.now)) ≡ true }
    requires size_value { size ≡ length (encode (all_sections source.now)) }
    ensures { output.new ≡ sets output.old 0 (encode (all_sections source.now)) }
{
    let sections = write_sections(source, output);
    frames::close_payload(output, size, sections);
}
