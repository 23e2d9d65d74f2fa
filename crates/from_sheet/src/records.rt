// The records that the lines of a checked sheet say.
ghost use Rattle.std.specs.Prelude.{[], ◌∷◌, ◌≡◌, List, MatchOption, Some};
ghost use Rattle.std.specs.Iterator.{YieldsFirst, item_count};
ghost use Rattle.format.specs.Records.{Record};
ghost use Rattle.from_sheet.specs.Records.{ahead_of, records_in, AllChecked};
ghost use Rattle.from_sheet.specs.Run.{run};

use crate::record::LineRecord;
use std::marker::Model;
use table::Tag;

// A contract sees the list of the records that are left. The first of them is made ahead, so that what looks at it and leaves
// it does not make it twice.
#[derive(Drop)]
pub struct Records<'a> {
    ahead: Option<LineRecord<'a>>,
    // the lines after it
    rest: &'a [u8],
}

impl<'a> Model for Records<'a> {
    ghost Value = { List Record };

    ghost view = { λ r. ahead_of r.ahead (records_in r.rest.now) };

    ghost invariant = { λ r. AllChecked r.rest.now };
}

// The record of the first line, if there is one, and the lines after it.
fn split_record(lines: &[u8]) -> (Option<LineRecord<'_>>, &[u8])
    requires { AllChecked lines.now }
    ensures records { records_in lines.now ≡ ahead_of result.0 (records_in result.1.now) }
    ensures checked { AllChecked result.1.now }
{
    match lines::split_line(lines) {
        Some((line, rest)) => (Some(LineRecord::new(line)), rest),
        None => (None, lines),
    }
}

impl<'a> Records<'a> {
    // All records of a sheet.
    pub fn new(sheet: &'a [u8]) -> Records<'a>
        requires { AllChecked sheet.now }
        ensures { result ≡ records_in sheet.now }
    {
        let (ahead, rest) = split_record(sheet);
        Records { ahead, rest }
    }

    // The next record, if one of a tag is next.
    #[tactic(auto, using(table::proofs::Tags::same_tags))]
    pub fn next_of(&mut self, tag: Tag) -> Option<LineRecord<'a>>
        ensures { MatchOption result ((run (Some tag) self.old ≡ []) × (self.new ≡ self.old)) (λ r. (r.tag ≡ tag) × (self.old ≡ r ∷ self.new)) }
    {
        if self.ahead.as_ref()?.tag() != tag {
            return None;
        }
        self.next()
    }
}

impl<'a> Iterator for Records<'a> {
    type Item = LineRecord<'a>;

    ghost next_gives = { YieldsFirst (λ left. left) };

    ghost remaining = { item_count (λ left. left) };

    fn next(&mut self) -> Option<LineRecord<'a>> {
        let record = self.ahead.take()?;
        (self.ahead, self.rest) = split_record(self.rest);
        Some(record)
    }
}
