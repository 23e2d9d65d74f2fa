// What a record adds: the bytes of the section that it begins, or of the entry that it is.
ghost use Rattle.std.specs.Prelude.{◌≡◌, ◌+◌, ◌<◌, ◌^◌};
ghost use Rattle.wire.specs.Padding.{aligned};
ghost use Rattle.sizes.specs.Measure.{capped, opened, added};

use layout::SourceInfoSectionType;
use table::Tag;
use wire::TextLength;

// A number past the most stays one past it.
#[tactic(auto, unfolding(crate::specs::Measure::capped))]
pub(crate) fn cap(most: usize, number: usize) -> u32
    requires { most < 2 ^ 31 }
    ensures { result ≡ capped most number }
{
    number.min(most + 1) as u32
}

// A length with its padding. `wire::align4` takes two numbers of 32 bits, and a text's size on the wire has 33.
#[tactic(auto, using(wire::proofs::PaddingLaws::padding_bounds), unfolding(wire::specs::Padding::aligned))]
pub(crate) fn align(length: usize) -> usize
    requires { length < 2 ^ 63 }
    ensures value { result ≡ aligned length }
    ensures bound { result < length + 4 }
{
    length + wire::padding_length(length)
}

// The bytes of the section that a record of a tag begins, before its entries.
#[tactic(auto, unfolding(crate::specs::Measure::opened))]
pub(crate) fn opened_size(tag: Tag, first: u32) -> usize
    ensures { result ≡ opened tag first }
{
    let headers = tag.headers_size();
    match tag {
        Tag::PackedContents | Tag::Unknown => headers + first as usize,
        // a section that has entries, or an entry, which begins none
        _ => headers,
    }
}

// The bytes of the entry that a record of a tag is.
#[tactic(auto, unfolding(crate::specs::Measure::added))]
pub(crate) fn added_size(tag: Tag, first: u32, second: u32) -> usize
    ensures value { result ≡ added tag first second }
    ensures bound { result < first + second + 21 }
{
    let size = TextLength(first).wire_size().0;
    match tag {
        Tag::Content => align(SourceInfoSectionType::CONTENT_ENTRY_HEADER_SIZE + size),
        Tag::Name => align(SourceInfoSectionType::NAME_ENTRY_HEADER_SIZE + size),
        Tag::Pair => size + TextLength(second).wire_size().0,
        // a section's own record is no entry, and adds nothing to the sum that this goes into
        _ => 0,
    }
}
