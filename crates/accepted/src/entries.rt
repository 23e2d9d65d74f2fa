// The entries of a section of an accepted payload, one after the other, with a header of so many bytes each. Nothing is
// tested again: each says how long it is.
ghost use Rattle.std.specs.Prelude.{◌≡◌, ◌+◌, ◌-◌, ◌<◌, ◌≤◌, length, List};
ghost use Rattle.std.specs.Iterator.{YieldsFirstBy, item_count};
ghost use Rattle.wire.specs.Number.{u32_at};
ghost use Rattle.format.specs.Encoding.{limit};
ghost use Rattle.accepted.specs.Entries.{Placed, placed, entries_from, EntriesGood};

use layout::SourceInfoSectionType;
use std::marker::Model;
use wire::{TextLength, WireSize};

// An entry, with what is known of it. Of its payload the limit alone is known, which is all that its sums need; so too of a section and
// of a pair, and in the first pass of a part (crate parse). With a `Payload` in its place, each sum would take the limit from what
// was accepted. A type of bytes within the limit would save a line in each struct, and put a field's name into each contract.
#[derive(Clone, Copy)]
pub struct Entry<'a, const HEADER: usize> {
    pub payload: &'a [u8],
    pub at: usize,
    pub ghost limited: { length payload.now ≤ limit },
    pub ghost headed: { HEADER ≤ u32_at payload.now at },
    pub ghost with_nul: { 0 < u32_at payload.now (at + 8) },
    pub ghost within: { at + u32_at payload.now at ≤ length payload.now },
}

impl<'a, const HEADER: usize> Entry<'a, HEADER> {
    // Its bytes, with its header and its padding.
    pub fn size(self) -> usize
        ensures { result ≡ u32_at self.entry.payload.now self.entry.at }
    {
        wire::read_u32(self.payload, self.at) as usize
    }

    // Where its text starts.
    pub fn text_start(self) -> usize
        ensures value { result ≡ self.entry.at + HEADER }
        ensures upper_bound { result ≤ limit }
    {
        self.at + HEADER
    }

    // The length of its text.
    #[tactic(auto, using(wire::proofs::LengthLaws::text_lengths))]
    pub fn text_length(self) -> TextLength
        ensures { result.0 ≡ u32_at self.entry.payload.now (self.entry.at + 8) - 1 }
    {
        let size = WireSize(wire::read_u32(self.payload, self.at + 8) as usize);
        size.text_length().unwrap_or(TextLength(0))
    }

    // Of a name, the size of its content.
    pub fn content_size(self) -> u32
        ensures { result ≡ u32_at self.entry.payload.now (self.entry.at + 12) }
    {
        wire::read_u32(self.payload, self.at + 12)
    }
}

pub type Content<'a> = Entry<'a, { SourceInfoSectionType::CONTENT_ENTRY_HEADER_SIZE }>;

pub type Name<'a> = Entry<'a, { SourceInfoSectionType::NAME_ENTRY_HEADER_SIZE }>;

// A contract sees the list of the entries that are left.
#[derive(Drop)]
pub struct Entries<'a, const HEADER: usize> {
    pub(crate) payload: &'a [u8],
    pub(crate) at: usize,
    pub(crate) left: u32,
}

pub type Contents<'a> = Entries<'a, { SourceInfoSectionType::CONTENT_ENTRY_HEADER_SIZE }>;

pub type Names<'a> = Entries<'a, { SourceInfoSectionType::NAME_ENTRY_HEADER_SIZE }>;

impl<'a, const HEADER: usize> Model for Entries<'a, HEADER> {
    ghost Value = { List Placed };

    ghost view = { λ e. entries_from e.payload.now e.left e.at };

    ghost invariant = { λ e. (length e.payload.now ≤ limit) × EntriesGood HEADER e.payload.now e.left e.at };
}

impl<'a, const HEADER: usize> Iterator for Entries<'a, HEADER> {
    type Item = Entry<'a, HEADER>;

    ghost next_gives = { YieldsFirstBy (λ e. placed e.payload.now e.at) (λ left. left) };

    ghost remaining = { item_count (λ left. left) };

    fn next(&mut self) -> Option<Entry<'a, HEADER>> {
        if self.left == 0 {
            return None;
        }
        let payload = self.payload;
        let at = self.at;
        self.at += wire::read_u32(payload, at) as usize;
        self.left -= 1;
        Some(Entry { payload, at })
    }
}
