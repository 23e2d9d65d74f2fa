// A section of an accepted payload, and what its headers tell of it. Nothing is tested again.
ghost use Rattle.std.specs.Prelude.{is_ok, true, ◌≡◌, ◌+◌, ◌-◌, ◌≤◌, length};
ghost use Rattle.wire.specs.Number.{u32_at};
ghost use Rattle.format.specs.Encoding.{limit};
ghost use Rattle.format.specs.Parse.{kind_at, parse_section};
ghost use Rattle.format.specs.Walk.{compression_at};

use layout::{SourceCompression, SourceInfoSectionType};

#[derive(Clone, Copy)]
pub struct CheckedSection<'a> {
    pub payload: &'a [u8],
    pub kind: SourceInfoSectionType,
    pub at: usize,
    pub ghost limited: { length payload.now ≤ limit },
    pub ghost of_kind: { kind ≡ kind_at payload.now at },
    pub ghost headed: { 8 ≤ u32_at payload.now at },
    pub ghost within: { at + u32_at payload.now at ≤ length payload.now },
    pub ghost good: { is_ok (parse_section kind payload.now at (u32_at payload.now at)) ≡ true },
}

// Where a section has each number, from its start on. Of contents:
const HEADER_FIELD: usize = 8;

const COMPRESSION: usize = 14;

const STORED_SIZE: usize = 16;

const UNCOMPRESSED_SIZE: usize = 20;

const CONTENT_COUNT: usize = 24;

// Of names:
const NAME_COUNT: usize = 12;

// Of arguments:
const PAIR_COUNT: usize = 16;

// A method for each number, under its name: one for all would be given the number's place at each call.
impl<'a> CheckedSection<'a> {
    // The bytes of the section, with its header.
    pub fn size(self) -> u32
        ensures { result ≡ u32_at self.entry.payload.now self.entry.at }
    {
        wire::read_u32(self.payload, self.at)
    }

    // The bytes after the section's header.
    pub fn body_size(self) -> u32
        ensures { result ≡ u32_at self.entry.payload.now self.entry.at - 8 }
    {
        self.size() - SourceInfoSectionType::SECTION_HEADER_SIZE as u32
    }

    // How many names it has.
    pub fn name_count(self) -> u32
        ensures { result ≡ u32_at self.entry.payload.now (self.entry.at + 12) }
    {
        wire::read_u32(self.payload, self.at + NAME_COUNT)
    }

    // How many pairs of arguments it has.
    pub fn pair_count(self) -> u32
        ensures { result ≡ u32_at self.entry.payload.now (self.entry.at + 16) }
    {
        wire::read_u32(self.payload, self.at + PAIR_COUNT)
    }

    // How many contents it has.
    pub fn content_count(self) -> u32
        ensures { result ≡ u32_at self.entry.payload.now (self.entry.at + 24) }
    {
        wire::read_u32(self.payload, self.at + CONTENT_COUNT)
    }

    // The header field of contents.
    pub fn header_field(self) -> u32
        ensures { result ≡ u32_at self.entry.payload.now (self.entry.at + 8) }
    {
        wire::read_u32(self.payload, self.at + HEADER_FIELD)
    }

    pub fn compression(self) -> SourceCompression
        ensures { result ≡ compression_at self.entry.payload.now self.entry.at }
    {
        SourceCompression::checked(wire::read_u16(self.payload, self.at + COMPRESSION))
    }

    // The bytes that contents store.
    pub fn stored_size(self) -> u32
        ensures { result ≡ u32_at self.entry.payload.now (self.entry.at + 16) }
    {
        wire::read_u32(self.payload, self.at + STORED_SIZE)
    }

    // The bytes of contents before they were packed.
    pub fn uncompressed_size(self) -> u32
        ensures { result ≡ u32_at self.entry.payload.now (self.entry.at + 20) }
    {
        wire::read_u32(self.payload, self.at + UNCOMPRESSED_SIZE)
    }
}
