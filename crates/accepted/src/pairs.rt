// The pairs of a section of an accepted payload, one after the other. Their NULs are looked for once more, and nothing is
// tested again.
ghost use Rattle.std.specs.Prelude.{◌≡◌, ◌+◌, ◌≤◌, length, drop, List};
ghost use Rattle.std.specs.Iterator.{YieldsFirstBy, item_count};
ghost use Rattle.find.specs.Nul.{until_nul};
ghost use Rattle.wire.specs.Length.{wire_size};
ghost use Rattle.format.specs.Encoding.{limit};
ghost use Rattle.format.specs.Walk.{pairs_end};
ghost use Rattle.accepted.specs.Entries.{Placed, placed, pairs_from};

use std::marker::Model;
use wire::TextLength;

// A pair, with the lengths of its texts.
#[derive(Clone, Copy)]
pub struct Pair<'a> {
    pub payload: &'a [u8],
    pub at: usize,
    pub name: TextLength,
    pub value: TextLength,
    pub ghost limited: { length payload.now ≤ limit },
    pub ghost name_is: { name.0 ≡ until_nul (drop at payload.now) },
    pub ghost value_is: { value.0 ≡ until_nul (drop (at + wire_size name.0) payload.now) },
    pub ghost within: { at + wire_size name.0 + wire_size value.0 ≤ length payload.now },
}

impl<'a> Pair<'a> {
    // Where its value starts.
    pub fn value_start(self) -> usize
        ensures value { result ≡ self.entry.at + wire_size self.entry.name.0 }
        ensures upper_bound { result ≤ limit }
    {
        self.at + self.name.wire_size().0
    }
}

// A contract sees the list of the pairs that are left.
#[derive(Drop)]
pub struct Pairs<'a> {
    pub(crate) payload: &'a [u8],
    pub(crate) at: usize,
    pub(crate) left: u32,
}

impl<'a> Model for Pairs<'a> {
    ghost Value = { List Placed };

    ghost view = { λ s. pairs_from s.payload.now s.left s.at };

    ghost invariant = { λ s. (length s.payload.now ≤ limit) × (pairs_end s.payload.now s.left s.at ≤ length s.payload.now) };
}

impl<'a> Iterator for Pairs<'a> {
    type Item = Pair<'a>;

    ghost next_gives = { YieldsFirstBy (λ s. placed s.payload.now s.at) (λ left. left) };

    ghost remaining = { item_count (λ left. left) };

    fn next(&mut self) -> Option<Pair<'a>> {
        if self.left == 0 {
            return None;
        }
        let payload = self.payload;
        let at = self.at;
        let name = TextLength(find::find_nul_from(payload, at) as u32);
        let start = at + name.wire_size().0;
        let value = TextLength(find::find_nul_from(payload, start) as u32);
        self.at = start + value.wire_size().0;
        self.left -= 1;
        Some(Pair {
            payload,
            at,
            name,
            value,
        })
    }
}
