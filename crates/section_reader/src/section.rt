// What is taken at a place of a payload. These functions do the reader's work on a plain slice and a number.
ghost use Rattle.std.specs.Prelude.{◌≡◌, ltb, length};
ghost use Rattle.section_reader.specs.Section.{taken};

use layout::{Refusal, SourceInfoSectionType};

// A section as its header tells of it: its kind, its place, and its size with header and padding.
#[derive(Clone, Copy)]
pub struct Section {
    pub kind: SourceInfoSectionType,
    pub at: usize,
    pub size: usize,
}

// The section that begins at a place, or the first fault of its header.
#[tactic(auto, unfolding(format::specs::Parse::frame, layout::specs::Checked::check))]
pub fn section_at(payload: &[u8], at: usize) -> Result<Section, Refusal>
    ensures { result ≡ taken payload.now at }
{
    if payload.len() < at {
        return Err(Refusal::Frame);
    }
    let left = payload.len() - at;
    if left < 4 {
        return Err(Refusal::Frame);
    }
    let size = wire::read_u32(payload, at) as usize;
    if size < SourceInfoSectionType::SECTION_HEADER_SIZE {
        return Err(Refusal::Frame);
    }
    if size % 4 != 0 {
        return Err(Refusal::Frame);
    }
    if left < size {
        return Err(Refusal::Frame);
    }
    if wire::read_u16(payload, at + 4) != 0 {
        return Err(Refusal::Flag);
    }
    let kind = SourceInfoSectionType::from_u16(wire::read_u16(payload, at + 6));
    Ok(Section { kind, at, size })
}

// Whether bytes are left from a place on: what the reader's thin function does, as document 01 has it.
pub fn left_at(payload: &[u8], at: usize) -> bool
    ensures { result ≡ ltb at (length payload.now) }
{
    at < payload.len()
}
