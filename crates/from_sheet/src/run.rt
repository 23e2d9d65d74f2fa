// The entries that records are, stored at a place of the output. Crate write has the like of rows. One function of both would need a
// trait for the next record or row of a tag and for each number and text that it holds, with a law for each: where those stand
// is all that the two differ in, and all that they do.
ghost use Rattle.std.specs.Prelude.{◌≡◌, ◌+◌, ◌≤◌, ◌<◌, ◌^◌, length, Some};
ghost use Rattle.std.proofs.lemmas.List.Edits.{sets};
ghost use Rattle.format.specs.Encoding.{limit};
ghost use Rattle.from_sheet.specs.Run.{entry_bytes, run, run_bytes, past};

use crate::entry::{store_content, store_name, store_pair};
use crate::record::LineRecord;
use crate::records::Records;
use table::Tag;

// Where a run of entries ends in the output, and how many they are.
#[derive(Clone, Copy)]
pub struct RunEnd {
    pub to: usize,
    pub count: usize,
}

// Stores the entry that a record is, and answers the place after it. A section's own record is no entry.
#[tactic(auto, unfolding(crate::specs::Run::entry_bytes))]
fn store_entry(output: &mut [u8], to: u32, record: &LineRecord<'_>) -> usize
    requires { to + length (entry_bytes record.now.tag record.now) ≤ limit }
    ensures value { result ≡ to + length (entry_bytes record.now.tag record.now) }
    ensures output_after { output.new ≡ sets output.old to (entry_bytes record.now.tag record.now) }
{
    match record.tag() {
        Tag::Content => store_content(output, to, record.field(0)),
        Tag::Name => store_name(output, to, record.field(1), record.number(0)),
        Tag::Pair => store_pair(output, to, record.field(0), record.field(1)),
        _ => to as usize,
    }
}

// Stores the entries that the next records of a tag are, and answers where they end. How many they are is known as they are
// taken.
pub fn store_entries(records: &mut Records<'_>, tag: Tag, output: &mut [u8], start: usize) -> RunEnd
    requires few { length (run (Some tag) records.old) < 2 ^ 32 }
    requires bound { start + length (run_bytes (Some tag) records.old) ≤ limit }
    ensures records_after { records.new ≡ past (Some tag) records.old }
    ensures to_value { result.to ≡ start + length (run_bytes (Some tag) records.old) }
    ensures count_value { result.count ≡ length (run (Some tag) records.old) }
    ensures output_after { output.new ≡ sets output.old start (run_bytes (Some tag) records.old) }
{
    let mut to = start;
    let mut count = 0;
    while let Some(record) = records.next_of(tag) {
        to = store_entry(output, to as u32, &record);
        count += 1;
    }
    RunEnd { to, count }
}
