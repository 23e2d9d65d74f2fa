// The pass over rows: checks each by its rule, and counts it.
ghost use Rattle.std.specs.Prelude.{◌≡◌};
ghost use Rattle.table.specs.Rows.{rows_of};
ghost use Rattle.format.specs.Write.{written_table};
ghost use Rattle.sizes.specs.Measure.{sized, nothing};
ghost use Rattle.rows.specs.Measure.{count_row, measure_from};

use crate::rule::check_row;
use layout::{Refusal, Sides};
use sizes::Sizes;
use table::{Row, TableRows, Tag};

// Counts a row by its tag and the lengths of what it names.
#[tactic(auto, unfolding(crate::specs::Measure::count_row))]
fn count_row(sizes: Sizes, row: Row) -> Sizes
    ensures { result ≡ count_row sizes row }
{
    let tag = Tag::from_u32(row.tag);
    if tag.is_some_and(Tag::begins_section) {
        return sizes.advance(tag, row.bytes_span().count as usize, 0);
    }
    sizes.advance(
        tag,
        row.text_span().count as usize,
        row.value_span().count as usize,
    )
}

// Checks rows in order and counts each.
#[tactic(auto, unfolding(crate::specs::Measure::measure_from, layout::specs::Checked::then))]
fn measure_rows(sides: Sides<'_>, rows: &[u32]) -> Result<u32, Refusal>
    ensures { result ≡ measure_from sides.entry.payload.now sides.entry.edit.now nothing (rows_of rows.now) }
{
    let mut sizes = Sizes::new();
    for row in TableRows::new(rows) {
        check_row(sides, sizes.previous, row)?;
        sizes = count_row(sizes, row);
    }
    sizes.finish()
}

// The bytes that the rows of a table would be written as: how many, or the first fault.
#[tactic(auto, using(crate::proofs::Measured::measured), unfolding(format::specs::Write::written_table, layout::specs::Checked::check))]
pub fn measure(sides: Sides<'_>, rows: &[u32]) -> Result<u32, Refusal>
    ensures { result ≡ sized (written_table sides.entry.payload.now sides.entry.edit.now rows.now) }
{
    if !Row::are_whole(rows) {
        return Err(Refusal::BadRow);
    }
    measure_rows(sides, rows)
}
