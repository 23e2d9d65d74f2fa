// The section writers. Each is lent the one output position, stores the section that the position's row begins, and moves the
// position on past it. One for each kind, as document 01 has it; what they share is `store_body`. Source, output and position
// are passed apart: the position is lent alone, as document 01 has it, and what is known of it is of its row's tag, and no longer
// holds once it has moved on.
ghost use Rattle.std.specs.Prelude.{◌≡◌, Some};
ghost use Rattle.std.proofs.lemmas.List.Edits.{sets};
ghost use Rattle.table.specs.declared.tag.Tag.TheVariants as tag;
ghost use Rattle.format.specs.Encoding.{encode_section};
ghost use Rattle.write.specs.Source.{section, after, MayWrite};

use crate::position::Position;
use crate::section::store_body;
use crate::source::Source;
use frames::{close_arguments, close_contents, close_names, close_section};
use layout::{SourceCompression, SourceInfoSectionType};
use table::Tag;

// Arguments.
#[tactic(auto, using(crate::proofs::SectionParts::moved))]
pub fn write_arguments(source: &Source, output: &mut [u8], position: &mut Position)
    requires { MayWrite source.now (Some tag.Arguments) position.old }
    ensures position_after { position.new ≡ after source.now position.old }
    ensures output_after { output.new ≡ sets output.old position.old.at (encode_section (section source.now position.old)) }
{
    let body = store_body(source, Tag::Arguments, output, *position);
    let at = close_arguments(output, body.start, body.end, body.count);
    *position = Position {
        index: body.index,
        at,
    };
}

// Names.
#[tactic(auto, using(crate::proofs::SectionParts::moved))]
pub fn write_names(source: &Source, output: &mut [u8], position: &mut Position)
    requires { MayWrite source.now (Some tag.Names) position.old }
    ensures position_after { position.new ≡ after source.now position.old }
    ensures output_after { output.new ≡ sets output.old position.old.at (encode_section (section source.now position.old)) }
{
    let body = store_body(source, Tag::Names, output, *position);
    let at = close_names(output, body.start, body.end, body.count);
    *position = Position {
        index: body.index,
        at,
    };
}

// Plain contents.
#[tactic(auto, using(crate::proofs::SectionParts::moved))]
pub fn write_plain(source: &Source, output: &mut [u8], position: &mut Position)
    requires { MayWrite source.now (Some tag.PlainContents) position.old }
    ensures position_after { position.new ≡ after source.now position.old }
    ensures output_after { output.new ≡ sets output.old position.old.at (encode_section (section source.now position.old)) }
{
    let row = source.row(position.index);
    let body = store_body(source, Tag::PlainContents, output, *position);
    let bytes = body.end - (body.start + SourceInfoSectionType::CONTENTS_START as u32);
    let at = close_contents(
        output,
        body.start,
        body.end,
        row.a,
        SourceCompression::None,
        bytes,
        body.count,
    );
    *position = Position {
        index: body.index,
        at,
    };
}

// Packed contents.
#[tactic(auto, using(crate::proofs::SectionParts::moved))]
pub fn write_packed(source: &Source, output: &mut [u8], position: &mut Position)
    requires { MayWrite source.now (Some tag.PackedContents) position.old }
    ensures position_after { position.new ≡ after source.now position.old }
    ensures output_after { output.new ≡ sets output.old position.old.at (encode_section (section source.now position.old)) }
{
    let row = source.row(position.index);
    let body = store_body(source, Tag::PackedContents, output, *position);
    let at = close_contents(
        output,
        body.start,
        body.end,
        row.a,
        SourceCompression::Zlib,
        row.e,
        row.d,
    );
    *position = Position {
        index: body.index,
        at,
    };
}

// A section of an unknown kind.
#[tactic(auto, using(crate::proofs::SectionParts::moved))]
pub fn write_unknown(source: &Source, output: &mut [u8], position: &mut Position)
    requires { MayWrite source.now (Some tag.Unknown) position.old }
    ensures position_after { position.new ≡ after source.now position.old }
    ensures output_after { output.new ≡ sets output.old position.old.at (encode_section (section source.now position.old)) }
{
    let row = source.row(position.index);
    let body = store_body(source, Tag::Unknown, output, *position);
    let kind = SourceInfoSectionType::Unknown(row.a as u16);
    let at = close_section(output, body.start, body.end, kind);
    *position = Position {
        index: body.index,
        at,
    };
}
