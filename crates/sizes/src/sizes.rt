// The sizes that are kept from record to record. They stop growing once they are past their limits, so that no
// records make them overflow.
ghost use Rattle.std.specs.Prelude.{◌≡◌};
ghost use Rattle.sizes.specs.Measure.{begin, extend, advance, nothing, finish};

use crate::part::{added_size, align, cap, opened_size};
use layout::{PAYLOAD_LIMIT, Refusal, SourceInfoSectionType};
use table::Tag;

// The most that 16 bits count: sections, and the entry bytes of names.
const COUNT_LIMIT: usize = 65_535;

// The most bytes of a names section, without its padding.
const NAMES_LIMIT: usize = SourceInfoSectionType::NAMES_START + COUNT_LIMIT;

// What was measured so far. What is past a limit is kept and not refused at once, since a later record may have a fault that
// goes first.
#[derive(Clone, Copy)]
pub struct Sizes {
    // The tag of the record before, if there was one.
    pub previous: Option<Tag>,
    // How many sections there are.
    pub sections: u32,
    // Bytes of the main header and of the sections that are complete.
    pub complete: u32,
    // Bytes of the section that is not, with its headers and without its padding.
    pub current: u32,
    // Whether a names section has more entry bytes than its field can hold.
    pub wide: bool,
}

impl Sizes {
    // Nothing but the main header.
    pub fn new() -> Sizes
        ensures { result ≡ nothing }
    {
        Sizes {
            previous: None,
            sections: 0,
            complete: SourceInfoSectionType::MAIN_HEADER_SIZE as u32,
            current: 0,
            wide: false,
        }
    }

    // A record that begins a section closes the one before.
    fn begin(self, tag: Tag, first: u32) -> Sizes
        ensures { result ≡ begin self tag first }
    {
        Sizes {
            previous: Some(tag),
            sections: cap(COUNT_LIMIT, self.sections as usize + 1),
            complete: cap(
                PAYLOAD_LIMIT,
                self.complete as usize + align(self.current as usize),
            ),
            current: cap(PAYLOAD_LIMIT, opened_size(tag, first)),
            ..self
        }
    }

    // An entry adds to the section that is not complete.
    #[tactic(auto, using(table::proofs::Tags::same_tags))]
    fn extend(self, tag: Tag, first: u32, second: u32) -> Sizes
        ensures { result ≡ extend self tag first second }
    {
        let current = cap(
            PAYLOAD_LIMIT,
            self.current as usize + added_size(tag, first, second),
        );
        Sizes {
            previous: Some(tag),
            current,
            wide: self.wide | ((tag == Tag::Name) & (NAMES_LIMIT < current as usize)),
            ..self
        }
    }

    // Counts a record of a tag; one of no tag adds nothing. The first length is that of the bytes that a section's own record stores, or of
    // an entry's text; the second is that of a pair's value. A length that a tag has not is not looked at.
    #[tactic(auto, using(crate::proofs::Capped::capped_first), unfolding(crate::specs::Measure::advance))]
    pub fn advance(self, tag: Option<Tag>, first: usize, second: usize) -> Sizes
        ensures { result ≡ advance self tag first second }
    {
        let Some(tag) = tag else {
            return Sizes {
                previous: None,
                current: cap(PAYLOAD_LIMIT, self.current as usize),
                ..self
            };
        };
        let capped = cap(PAYLOAD_LIMIT, first);
        if tag.begins_section() {
            return self.begin(tag, capped);
        }
        self.extend(tag, capped, cap(PAYLOAD_LIMIT, second))
    }

    // How many bytes would be written, within the limits.
    #[tactic(auto, unfolding(crate::specs::Measure::finish, layout::specs::Checked::check))]
    pub fn finish(self) -> Result<u32, Refusal>
        ensures { result ≡ finish self }
    {
        let size = self.complete as usize + align(self.current as usize);
        if COUNT_LIMIT < self.sections as usize || self.wide || PAYLOAD_LIMIT < size {
            return Err(Refusal::WontFit);
        }
        Ok(size as u32)
    }
}
