// How a section's body is framed: its size, and the padding around its stored bytes.
ghost use Rattle.std.specs.Prelude.{◌≡◌};
ghost use Rattle.format.specs.Parse.{framed};

use crate::padding::check_zeros;
use crate::part::SectionPart;
use layout::Refusal;

// Whether a section's size is that of its headers and stored bytes, padded, and the padding is zero.
#[tactic(auto, unfolding(format::specs::Parse::framed, layout::specs::Checked::check, wire::specs::Padding::aligned))]
pub fn check_framed(section: SectionPart, headers: u32, bytes: u32) -> Result<(), Refusal>
    ensures { result ≡ framed section.entry.payload.now section.entry.at section.entry.size headers bytes }
{
    let SectionPart { payload, at, size } = section;
    if size != wire::align4(headers, bytes) {
        return Err(Refusal::BodySize);
    }
    let end = at + headers as usize + bytes as usize;
    let next = at + size;
    check_zeros(&payload[end..next])
}
