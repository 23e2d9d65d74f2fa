// Contents sections, plain and packed.
ghost use Rattle.std.specs.Prelude.{◌≡◌, ◌+◌, ◌≤◌};
ghost use Rattle.wire.specs.Number.{u32_at};
ghost use Rattle.format.specs.Parse.{parse_stored, parse_contents};
ghost use Rattle.parse.specs.Outcome.{counted};

use crate::entries::check_entries;
use crate::framing::check_framed;
use crate::part::{Part, SectionPart};
use layout::{EntryKind, Refusal, SourceCompression, SourceInfoSectionType};

const START: usize = SourceInfoSectionType::CONTENTS_START;

// What a contents section at a place stores, by its compression. A packed stream is not looked into.
#[tactic(auto, unfolding(format::specs::Parse::parse_stored, layout::specs::Checked::check, layout::specs::Checked::then))]
fn check_stored(
    section: SectionPart,
    compression: SourceCompression,
    bytes: u32,
) -> Result<u32, Refusal>
    requires bytes_value { bytes ≡ u32_at section.payload.now (section.at + 16) }
    requires bytes_in_bounds { 28 + bytes ≤ section.size }
    ensures { result ≡ counted (parse_stored compression section.entry.payload.now section.entry.at) }
{
    let SectionPart { payload, at, .. } = section;
    if let SourceCompression::Zlib = compression {
        return Ok(1);
    }
    if wire::read_u32(payload, at + 20) != bytes {
        return Err(Refusal::Unequal);
    }
    let start = at + START;
    let end = start + bytes as usize;
    let count = wire::read_u32(payload, at + 24);
    let entries = check_entries(Part { payload, end }, EntryKind::Content, count, start)?;
    Ok(1 + entries)
}

// A contents section.
#[tactic(auto, unfolding(format::specs::Parse::parse_contents, layout::specs::Checked::check, layout::specs::Checked::then))]
pub fn parse_contents(section: SectionPart) -> Result<u32, Refusal>
    ensures { result ≡ counted (parse_contents section.entry.payload.now section.entry.at section.entry.size) }
{
    let SectionPart { payload, at, size } = section;
    if size < START {
        return Err(Refusal::Short);
    }
    if wire::read_u16(payload, at + 12) != 0 {
        return Err(Refusal::Flag);
    }
    let number = wire::read_u16(payload, at + 14);
    let compression = SourceCompression::from_u16(number).ok_or(Refusal::Compression)?;
    let bytes = wire::read_u32(payload, at + 16);
    check_framed(section, START as u32, bytes)?;
    check_stored(section, compression, bytes)
}
