// The rule of one row: what a row of each tag may hold, what it may follow, and what its texts must be. The tag goes beside the
// row, whose number it was looked up by once.
ghost use Rattle.std.specs.Prelude.{cond, ◌≡◌, [], Some};
ghost use Rattle.layout.specs.Spans.{inside};
ghost use Rattle.layout.specs.TextCheck.{check_span};
ghost use Rattle.table.specs.Rows.{spans_by};
ghost use Rattle.table.specs.Tags.{begins_section};
ghost use Rattle.format.specs.Rules.{tag_rule, all_inside, check_texts, check_row};

use layout::{Refusal, Sides, SourceInfoSectionType, Span, check_text};
use table::{Row, Tag};
use wire::TextLength;

// Whether a span's side is 0 or 1, and its bytes are all there.
fn has(sides: Sides<'_>, span: Span) -> bool
    ensures { result ≡ inside sides.entry.payload.now sides.entry.edit.now span }
{
    let end = span.start as usize + span.count as usize;
    (span.side <= 1) & (end <= sides.side(span.side).len())
}

// Whether the texts and bytes that a row of a tag names lie inside their sides.
#[tactic(auto, unfolding(table::specs::Rows::spans_by, format::specs::Rules::all_inside))]
fn has_spans(sides: Sides<'_>, tag: Tag, row: Row) -> bool
    ensures { result ≡ all_inside sides.entry.payload.now sides.entry.edit.now (spans_by (Some tag) row) }
{
    match tag {
        Tag::PackedContents | Tag::Unknown => has(sides, row.bytes_span()),
        Tag::Content | Tag::Name => has(sides, row.text_span()),
        Tag::Pair => has(sides, row.text_span()) & has(sides, row.value_span()),
        _ => true,
    }
}

// The text of a span.
#[inline(always)]
fn check_span(sides: Sides<'_>, span: Span) -> Result<(), Refusal>
    ensures { result ≡ check_span sides.entry.payload.now sides.entry.edit.now span }
{
    check_text(
        sides.side(span.side),
        span.start as usize,
        TextLength(span.count),
    )
}

// The texts that a row of a tag names, in order: a content and a name have one, a pair two.
#[tactic(auto, unfolding(table::specs::Rows::spans_by, format::specs::Rules::check_texts, layout::specs::Checked::then))]
fn check_texts(sides: Sides<'_>, tag: Tag, row: Row) -> Result<(), Refusal>
    ensures { result ≡ check_texts sides.entry.payload.now sides.entry.edit.now (cond (begins_section tag) [] (spans_by (Some tag) row)) }
{
    match tag {
        Tag::Content | Tag::Name => check_span(sides, row.text_span()),
        Tag::Pair => {
            check_span(sides, row.text_span())?;
            check_span(sides, row.value_span())
        }
        _ => Ok(()),
    }
}

// The rule of a row's tag, its spans apart.
#[tactic(auto, unfolding(format::specs::Rules::tag_rule, wire::specs::Padding::all_zero))]
fn tag_rule(tag: Tag, previous: Option<Tag>, row: Row) -> bool
    ensures { result ≡ tag_rule (Some tag) previous row }
{
    match tag {
        Tag::PlainContents => (row.side == 0) & ([row.b, row.c, row.d, row.e] == [0; 4]),
        Tag::PackedContents => true,
        Tag::Names | Tag::Arguments => {
            (row.side == 0) & ([row.a, row.b, row.c, row.d, row.e] == [0; 5])
        }
        Tag::Unknown => {
            SourceInfoSectionType::may_be_unknown(row.a, row.c as usize)
                & ([row.d, row.e] == [0; 2])
        }
        Tag::Content => tag.follows(previous) & ([row.c, row.d, row.e] == [0; 3]),
        Tag::Name => tag.follows(previous) & ([row.d, row.e] == [0; 2]),
        Tag::Pair => tag.follows(previous) & (row.e == 0),
    }
}

// A row after a row of the previous tag: its rule, then its texts.
#[tactic(auto, unfolding(format::specs::Rules::check_row, format::specs::Rules::obeys, format::specs::Rules::tag_rule, layout::specs::Checked::check))]
pub fn check_row(sides: Sides<'_>, previous: Option<Tag>, row: Row) -> Result<(), Refusal>
    ensures { result ≡ check_row sides.entry.payload.now sides.entry.edit.now previous row }
{
    let tag = Tag::from_u32(row.tag).ok_or(Refusal::BadRow)?;
    if tag_rule(tag, previous, row) & has_spans(sides, tag, row) {
        check_texts(sides, tag, row)
    } else {
        Err(Refusal::BadRow)
    }
}
