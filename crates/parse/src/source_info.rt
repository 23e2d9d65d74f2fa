// A whole payload: its main header, and its sections in order.
ghost use Rattle.std.specs.Prelude.{◌≡◌, ◌≤◌, length};
ghost use Rattle.format.specs.Encoding.{limit};
ghost use Rattle.format.specs.Parse.{parse_section, parse_sections, parse};
ghost use Rattle.parse.specs.Outcome.{counted};

use crate::arguments::parse_arguments;
use crate::contents::parse_contents;
use crate::names::parse_names;
use crate::part::SectionPart;
use layout::{PAYLOAD_LIMIT, Refusal, SourceInfoSectionType};
use section_reader::SectionReader;

// A section, by the kind that its header says.
#[tactic(auto, unfolding(format::specs::Parse::parse_section))]
fn parse_section(kind: SourceInfoSectionType, section: SectionPart) -> Result<u32, Refusal>
    ensures { result ≡ counted (parse_section kind section.entry.payload.now section.entry.at section.entry.size) }
{
    match kind {
        SourceInfoSectionType::SourceContents => parse_contents(section),
        SourceInfoSectionType::SourceNames => parse_names(section),
        SourceInfoSectionType::Arguments => parse_arguments(section),
        SourceInfoSectionType::Unknown(_) => Ok(1),
    }
}

// As many sections as the count says, up to the payload's end. One reader goes through them. Inlined, so that a place in a
// payload whose length was tested needs no test of its own.
#[inline(always)]
fn parse_sections(payload: &[u8], count: u16) -> Result<u32, Refusal>
    requires header_in_bounds { 8 ≤ length payload.now }
    requires payload_len_bound { length payload.now ≤ limit }
    ensures { result ≡ counted (parse_sections count payload.now 8) }
{
    let mut reader = SectionReader::new(payload, SourceInfoSectionType::MAIN_HEADER_SIZE);
    let mut rows: u32 = 0;
    for done in 0..count {
        let section = reader.next()?;
        let part = SectionPart {
            payload,
            at: section.at,
            size: section.size,
        };
        rows += parse_section(section.kind, part)?;
    }
    if reader.has_left() {
        Err(Refusal::Leftover)
    } else {
        Ok(rows)
    }
}

// A whole payload: how many rows it makes, or its first fault.
#[tactic(auto, unfolding(format::specs::Parse::parse, layout::specs::Checked::check, layout::specs::Checked::then))]
pub fn parse_srci(payload: &[u8]) -> Result<u32, Refusal>
    ensures { result ≡ counted (parse payload.now) }
{
    if PAYLOAD_LIMIT < payload.len() {
        return Err(Refusal::Oversize);
    }
    if payload.len() < SourceInfoSectionType::MAIN_HEADER_SIZE {
        return Err(Refusal::Ragged);
    }
    if payload.len() % 4 != 0 {
        return Err(Refusal::Ragged);
    }
    if wire::read_u32(payload, 0) as usize != payload.len() {
        return Err(Refusal::MainHeader);
    }
    if wire::read_u16(payload, 4) != 0 {
        return Err(Refusal::MainHeader);
    }
    parse_sections(payload, wire::read_u16(payload, 6))
}
