// The check of a line: first its form, its place and the rule of unknown sections, then its texts.
ghost use Rattle.std.specs.Prelude.{◌≡◌, ◌+◌};
ghost use Rattle.layout.specs.declared.refusal.Refusal.TheVariants.{BadLine};
ghost use Rattle.format.specs.Records.{number_count, text_count, is_placed};
ghost use Rattle.sheet.specs.Fields.{tab};
ghost use Rattle.sheet.specs.Lines.{split, check_all, read_line};
ghost use Rattle.line_reader.specs.LineTold.{line_sizes, text_fields, line_told};

use crate::bytes::bytes_size;
use crate::number::read_number;
use crate::split_line::SplitLine;
use crate::text::text_size;
use layout::{Refusal, SourceInfoSectionType, check_whole};
use table::Tag;

// What a line holds: its tag, and how many bytes its bytes or texts have; 0 where there are none. Two numbers and no enum:
// else each tag would be matched once more to take them out.
#[derive(Clone, Copy)]
pub struct LineSizes {
    pub tag: Tag,
    pub first: usize,
    pub second: usize,
}

// A line after a line of the previous tag. The number is its own among the lines.
pub fn check_line(line: &[u8], previous: Option<Tag>, number: u32) -> Result<LineSizes, Refusal>
    ensures { result ≡ line_told (read_line (BadLine number) previous line.now) }
{
    let line = SplitLine::new(line);
    let tag = line.tag().ok_or(Refusal::BadLine(number))?;
    if !is_placed(previous, tag) {
        return Err(Refusal::BadLine(number));
    }
    if !line.has_fields(field_count(tag)) {
        return Err(Refusal::BadLine(number));
    }
    let sizes = measure(&line, tag).ok_or(Refusal::BadLine(number))?;
    check_texts(&line, tag)?;
    Ok(sizes)
}

// Whether a line of a tag may stand after one of the previous tag.
fn is_placed(previous: Option<Tag>, tag: Tag) -> bool
    ensures { result ≡ is_placed previous tag }
{
    tag.begins_section() | tag.follows(previous)
}

// How many fields a line of a tag has.
fn field_count(tag: Tag) -> usize
    ensures { result ≡ number_count tag + text_count tag }
{
    match tag {
        Tag::PlainContents => 1,
        Tag::PackedContents => 4,
        Tag::Names => 0,
        Tag::Arguments => 0,
        Tag::Unknown => 2,
        Tag::Content => 1,
        Tag::Name => 2,
        Tag::Pair => 2,
    }
}

// The sizes of a line of a tag, if each of its fields is right.
#[tactic(auto, unfolding(crate::specs::LineTold::line_sizes))]
fn measure(line: &SplitLine<'_>, tag: Tag) -> Option<LineSizes>
    ensures { result ≡ line_sizes tag (split tab line.now.line.now).rest }
{
    let (first, second) = match tag {
        Tag::PlainContents => {
            read_number(line.field(0))?;
            (0, 0)
        }
        Tag::PackedContents => {
            read_number(line.field(0))?;
            read_number(line.field(1))?;
            read_number(line.field(2))?;
            (bytes_size(line.field(3))?, 0)
        }
        Tag::Names => (0, 0),
        Tag::Arguments => (0, 0),
        Tag::Unknown => {
            let kind = read_number(line.field(0))?;
            let size = bytes_size(line.field(1))?;
            SourceInfoSectionType::may_be_unknown(kind, size).then_some((size, 0))?
        }
        Tag::Content => (text_size(line.field(0))?, 0),
        Tag::Name => {
            read_number(line.field(0))?;
            (text_size(line.field(1))?, 0)
        }
        Tag::Pair => (text_size(line.field(0))?, text_size(line.field(1))?),
    };
    Some(LineSizes { tag, first, second })
}

// The texts of a line of a tag, in order. Escapes and what they stand for are ASCII, so that each is checked as it stands. Crate
// rows has the like of a row, whose texts are spans: one function of both would take a closure for a text, and be longer than this.
#[tactic(auto, unfolding(crate::specs::LineTold::text_fields, sheet::specs::Lines::check_all, layout::specs::Checked::then))]
fn check_texts(line: &SplitLine<'_>, tag: Tag) -> Result<(), Refusal>
    ensures { result ≡ check_all (text_fields tag (split tab line.now.line.now).rest) }
{
    match tag {
        Tag::Content => check_whole(line.field(0)),
        Tag::Name => check_whole(line.field(1)),
        Tag::Pair => {
            check_whole(line.field(0))?;
            check_whole(line.field(1))
        }
        _ => Ok(()),
    }
}
