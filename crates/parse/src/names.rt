// Name sections. The steps are those of arguments (arguments.rt); start, count and size have other places or widths, and one function
// of both would be given all of these, and the run.
ghost use Rattle.std.specs.Prelude.{◌≡◌};
ghost use Rattle.format.specs.Parse.{parse_names};
ghost use Rattle.parse.specs.Outcome.{counted};

use crate::entries::check_entries;
use crate::framing::check_framed;
use crate::part::{Part, SectionPart};
use layout::{EntryKind, Refusal, SourceInfoSectionType};

const START: usize = SourceInfoSectionType::NAMES_START;

// A names section.
#[tactic(auto, unfolding(format::specs::Parse::parse_names, layout::specs::Checked::check, layout::specs::Checked::then))]
pub fn parse_names(section: SectionPart) -> Result<u32, Refusal>
    ensures { result ≡ counted (parse_names section.entry.payload.now section.entry.at section.entry.size) }
{
    let SectionPart { payload, at, size } = section;
    if size < START {
        return Err(Refusal::Short);
    }
    if wire::read_u32(payload, at + 8) != 0 {
        return Err(Refusal::Flag);
    }
    let bytes = wire::read_u16(payload, at + 16);
    check_framed(section, START as u32, bytes as u32)?;
    let start = at + START;
    let end = start + bytes as usize;
    let count = wire::read_u32(payload, at + 12);
    let entries = check_entries(Part { payload, end }, EntryKind::Name, count, start)?;
    Ok(1 + entries)
}
