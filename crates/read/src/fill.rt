// The second pass: walks a payload that the first pass accepted, and stores its rows. It checks nothing
// again; texts are not decoded, and only the NULs of pairs are looked for once more. What stores from an index on answers the
// next index.
ghost use Rattle.std.specs.Prelude.{List, ◌≡◌, ◌+◌, ◌-◌, ◌<◌, ◌≤◌, ◌^◌, length};
ghost use Rattle.std.specs.Iterator.{Drains, UpTo};
ghost use Rattle.wire.specs.Number.{u32_at};
ghost use Rattle.table.specs.Rows.{store_row};
ghost use Rattle.table.specs.declared.row.Row.{Row as Stored};
ghost use Rattle.format.specs.Encoding.{limit};
ghost use Rattle.format.specs.Parse.{packed_row_at, unknown_row_at};
ghost use Rattle.format.specs.Walk.{content_at, name_at, pair_at, walk_section, walk};
ghost use Rattle.read.specs.Store.{store_rows};

use accepted::{Body, CheckedSection, Content, Name, Pair, Payload, Sections};
use layout::SourceInfoSectionType;
use table::Row;

// Stores a row.
fn store_row(row: Row, rows: &mut [u32], index: usize) -> usize
    requires { index < 2 ^ 60 }
    ensures value { result ≡ index + 1 }
    ensures rows_after { rows.new ≡ store_row rows.old index row }
{
    row.store(rows, index);
    index + 1
}

// Stores rows one after the other.
fn fill_rows<I: Iterator<Item = Row> + Drop>(found: I, rows: &mut [u32], mut index: usize) -> usize
    requires can { I.can_next found }
    requires index_bound { UpTo (I.remaining found) (limit - index) }
    requires start_bound { index ≤ limit }
    ensures filled { (all : List Stored) × Drains I.next_gives found all × (result ≡ index + length all) × (rows.new ≡ store_rows rows.old index all) }
{
    for row in found {
        index = store_row(row, rows, index);
    }
    index
}

// The row of a content.
fn content_row(entry: Content) -> Row
    ensures { result ≡ content_at entry.entry.payload.now entry.entry.at }
{
    Row::content(entry.text_start() as u32, entry.text_length())
}

// The row of a name.
fn name_row(entry: Name) -> Row
    ensures { result ≡ name_at entry.entry.payload.now entry.entry.at }
{
    let start = entry.text_start() as u32;
    Row::name(start, entry.text_length(), entry.content_size())
}

// The row of a pair.
fn pair_row(pair: Pair) -> Row
    ensures { result ≡ pair_at pair.entry.payload.now pair.entry.at }
{
    let start = pair.value_start() as u32;
    Row::pair(pair.at as u32, pair.name, start, pair.value)
}

// The row of packed contents.
fn packed_row(section: CheckedSection) -> Row
    ensures { result ≡ packed_row_at section.entry.payload.now section.entry.at }
{
    Row::packed_contents(
        section.header_field(),
        (section.at + SourceInfoSectionType::CONTENTS_START) as u32,
        section.stored_size(),
        section.content_count(),
        section.uncompressed_size(),
    )
}

// The row of a section of an unknown kind.
fn unknown_row(section: CheckedSection, kind: u16) -> Row
    ensures { result ≡ unknown_row_at kind section.entry.at (u32_at section.entry.payload.now section.entry.at) }
{
    Row::unknown(
        kind,
        (section.at + SourceInfoSectionType::SECTION_HEADER_SIZE) as u32,
        section.body_size(),
    )
}

// Stores the rows of a section.
#[tactic(auto, unfolding(format::specs::Walk::walk_section, format::specs::Walk::walk_contents, crate::specs::Store::store_rows))]
fn fill_section(section: CheckedSection, rows: &mut [u32], index: usize) -> usize
    requires { index + length (walk_section section.payload.now section.kind section.at) ≤ limit }
    ensures value { result ≡ index + length (walk_section section.entry.payload.now section.entry.kind section.entry.at) }
    ensures rows_after { rows.new ≡ store_rows rows.old index (walk_section section.entry.payload.now section.entry.kind section.entry.at) }
{
    match section.body() {
        Body::Contents(entries) => {
            let next = store_row(Row::plain_contents(section.header_field()), rows, index);
            fill_rows(entries.map(|entry| content_row(entry)), rows, next)
        }
        Body::Packed => store_row(packed_row(section), rows, index),
        Body::Names(entries) => {
            let next = store_row(Row::names(), rows, index);
            fill_rows(entries.map(|entry| name_row(entry)), rows, next)
        }
        Body::Arguments(pairs) => {
            let next = store_row(Row::arguments(), rows, index);
            fill_rows(pairs.map(|pair| pair_row(pair)), rows, next)
        }
        Body::Unknown(kind) => store_row(unknown_row(section, kind), rows, index),
    }
}

// Stores the rows of an accepted payload from the table's start on.
pub fn fill_srci(payload: Payload, rows: &mut [u32])
    ensures { rows.new ≡ store_rows rows.old 0 (walk payload.entry.bytes.now) }
{
    let mut index: usize = 0;
    for section in Sections::new(payload) {
        index = fill_section(section, rows, index);
    }
}
