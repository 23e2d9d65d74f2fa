// A line with the places where its parts end, each tab looked for once.
ghost use Rattle.std.specs.Prelude.{[], ℕ, ◌≡◌, ◌<◌, ◌≤◌, eqb, length, get_or};
ghost use Rattle.sheet.specs.Fields.{tab};
ghost use Rattle.sheet.specs.Lines.{split, tag_of_word};
ghost use Rattle.line_reader.specs.Ends.{end_from};

use crate::word::tag_of_word;
use find::find_from;
use sheet::TAB;
use table::Tag;

#[derive(Clone, Copy)]
pub struct SplitLine<'a> {
    pub line: &'a [u8],
    // Where the word and the first four fields end: each at its tab, or at the line's end, as those do that it lacks. A line
    // that is right has no more than four.
    // Places: tried as four slices, which is twice as large, and a sheet of short lines takes 5 to 13 % longer.
    ends: [usize; 5],
    ghost ends_are: { (k : ℕ) → k < 5 → get_or ends k 0 ≡ end_from line.now 0 k },
}

impl<'a> SplitLine<'a> {
    // Inlined, since a line of a few bytes costs less than to hand its ends back through memory.
    #[inline(always)]
    pub fn new(line: &'a [u8]) -> SplitLine<'a>
        ensures { result.line.now ≡ line.now }
    {
        let mut ends = [line.len(); 5];
        let mut start = 0;
        for end in ends.iter_mut() {
            *end = find_from(line, TAB, start);
            if *end == line.len() {
                break;
            }
            start = *end + 1;
        }
        SplitLine { line, ends }
    }

    pub fn tag(&self) -> Option<Tag>
        ensures { result ≡ tag_of_word (split tab self.now.line.now).first }
    {
        tag_of_word(&self.line[..self.ends[0]])
    }

    // The field at an index, from 0; empty where the line has fewer.
    pub fn field(&self, index: usize) -> &'a [u8]
        ensures { result.now ≡ get_or (split tab self.now.line.now).rest index [] }
    {
        if index >= 4 {
            return self.later_field(index);
        }
        let end = self.ends[index];
        if end == self.line.len() {
            return &[];
        }
        &self.line[end + 1..self.ends[index + 1]]
    }

    // The same of a field past the first four, which no line of a sheet has: it is looked for.
    fn later_field(&self, index: usize) -> &'a [u8]
        requires { 4 ≤ index }
        ensures { result.now ≡ get_or (split tab self.now.line.now).rest index [] }
    {
        let mut end = self.ends[4];
        for passed in 4..index {
            if end == self.line.len() {
                return &[];
            }
            end = find_from(self.line, TAB, end + 1);
        }
        if end == self.line.len() {
            return &[];
        }
        &self.line[end + 1..find_from(self.line, TAB, end + 1)]
    }

    // Whether the line has so many fields.
    pub(crate) fn has_fields(&self, count: usize) -> bool
        requires { count ≤ 4 }
        ensures { result ≡ eqb (length (split tab self.now.line.now).rest) count }
    {
        let end = self.line.len();
        self.ends[count] == end && (count == 0 || self.ends[count - 1] < end)
    }
}
