// The entries that rows are, stored at a place of the output.
ghost use Rattle.std.specs.Prelude.{◌≡◌, ◌+◌, ◌≤◌, length, drop, Some};
ghost use Rattle.std.proofs.lemmas.List.Edits.{sets};
ghost use Rattle.table.specs.Tags.{tag_of, same_tag};
ghost use Rattle.format.specs.Encoding.{limit};
ghost use Rattle.write.specs.Section.{entry_count};
ghost use Rattle.write.specs.Source.{rows, entry_of, run_from};

use crate::entry::{write_content, write_name, write_pair};
use crate::position::Position;
use crate::source::Source;
use table::{Row, Tag};

// Stores the entry that a row of a tag is, and answers the place after it. The run's tag is known, and the row's is its number.
#[tactic(auto, unfolding(crate::specs::Run::row_bytes))]
fn write_row(source: &Source, tag: Tag, row: Row, output: &mut [u8], at: usize) -> usize
    requires { at + length (entry_of source.now tag row) ≤ limit }
    ensures value { result ≡ at + length (entry_of source.now tag row) }
    ensures output_after { output.new ≡ sets output.old at (entry_of source.now tag row) }
{
    match tag {
        Tag::Content => write_content(output, at, source.text(row)),
        Tag::Name => write_name(output, at, source.text(row), row.c),
        Tag::Pair => write_pair(output, at, source.text(row), source.value(row)),
        // a row that begins a section is no entry
        _ => at,
    }
}

// Whether a row is of a tag.
#[tactic(auto, using(table::proofs::Tags::same_tags))]
fn is_of(row: Row, tag: Tag) -> bool
    ensures { result ≡ same_tag (tag_of row.tag) (Some tag) }
{
    Tag::from_u32(row.tag) == Some(tag)
}

// Stores the entries that the rows of a tag are, from an index on, at a place and on. Answers the position after them. By
// index, which the position that is answered holds: crate table's iterator begins at the first row, and `skip` would go over
// all rows before `first` again for each section. Inlined, so that each kind of section has its entries' tag as a constant.
#[inline(always)]
#[tactic(auto, using(crate::proofs::RunLaws::run_steps))]
pub fn write_run(
    source: &Source,
    tag: Tag,
    first: usize,
    output: &mut [u8],
    start: usize,
) -> Position
    requires first_in_bounds { first ≤ length (rows source.now) }
    requires bound { start + length (run_from source.now tag first) ≤ limit }
    ensures index_value { result.index ≡ first + entry_count (Some tag) (drop first (rows source.now)) }
    ensures at_value { result.at ≡ start + length (run_from source.now tag first) }
    ensures output_after { output.new ≡ sets output.old start (run_from source.now tag first) }
{
    let count = source.count();
    let mut at = start;
    for index in first..count {
        let row = source.row(index);
        if !is_of(row, tag) {
            return Position { index, at };
        }
        at = write_row(source, tag, row, output, at);
    }
    Position { index: count, at }
}
