// The sections of an accepted payload, one after the other. Nothing is tested again: each header says where the
// next one stands.
ghost use Rattle.std.specs.Prelude.{is_ok, true, ◌≡◌, ◌<◌, ◌≤◌, length, List};
ghost use Rattle.std.specs.Iterator.{YieldsFirstBy, item_count};
ghost use Rattle.std.specs.List.{count_by};
ghost use Rattle.layout.specs.Kinds.{known};
ghost use Rattle.format.specs.Encoding.{limit};
ghost use Rattle.format.specs.Parse.{parse_sections};
ghost use Rattle.accepted.specs.Sections.{Found, sections_from, sections};

use crate::checked_section::CheckedSection;
use crate::payload::Payload;
use layout::SourceInfoSectionType;
use std::marker::Model;

// A contract sees the list of the sections that are left.
#[derive(Drop)]
pub struct Sections<'a> {
    payload: &'a [u8],
    at: usize,
    left: u16,
}

impl<'a> Model for Sections<'a> {
    ghost Value = { List Found };

    ghost view = { λ s. sections_from s.payload.now s.left s.at };

    ghost invariant = { λ s. (length s.payload.now ≤ limit) × (is_ok (parse_sections s.left s.payload.now s.at) ≡ true) };
}

impl<'a> Sections<'a> {
    // All of them, from the main header on.
    pub fn new(payload: Payload<'a>) -> Sections<'a>
        ensures value { result ≡ sections payload.entry.bytes.now }
        ensures len_bound { length result < 65536 }
    {
        Sections {
            payload: payload.bytes,
            at: SourceInfoSectionType::MAIN_HEADER_SIZE,
            left: payload.section_count(),
        }
    }
}

impl<'a> Iterator for Sections<'a> {
    type Item = CheckedSection<'a>;

    ghost next_gives = { YieldsFirstBy (λ s. record { bytes = s.payload.now; kind = s.kind; at = s.at }) (λ left. left) };

    ghost remaining = { item_count (λ left. left) };

    fn next(&mut self) -> Option<CheckedSection<'a>> {
        if self.left == 0 {
            return None;
        }
        let payload = self.payload;
        let at = self.at;
        let size = wire::read_u32(payload, at) as usize;
        let kind = SourceInfoSectionType::from_u16(wire::read_u16(payload, at + 6));
        self.at += size;
        self.left -= 1;
        Some(CheckedSection { payload, kind, at })
    }
}

// How many sections of a payload are of a known kind.
pub fn known_sections(payload: Payload) -> u16
    ensures { result ≡ count_by (λ s. known s.kind) (sections payload.entry.bytes.now) }
{
    Sections::new(payload)
        .filter(|section| section.kind.is_known())
        .count() as u16
}
