// What a section's line says of it.
ghost use Rattle.std.specs.Prelude.{◌≡◌};
ghost use Rattle.display.specs.Summary.{summary_at};

use accepted::{Body, CheckedSection};

// How many records the section has, and of packed contents how many bytes they store; of a section of an unknown kind, its
// kind and the bytes of its body.
#[derive(Clone, Copy)]
pub enum Summary {
    Uncompressed(u32),
    Zlib { count: u32, bytes: u32 },
    SourceNames(u32),
    Arguments(u32),
    Unknown { kind: u16, bytes: u32 },
}

// What the line of a section says. Inlined: two pages call it, and a call for each section executes 8 % more.
#[inline(always)]
pub fn summarize(section: CheckedSection) -> Summary
    ensures { result ≡ summary_at section.entry.payload.now section.entry.kind section.entry.at }
{
    match section.body() {
        Body::Contents(_) => Summary::Uncompressed(section.content_count()),
        Body::Packed => Summary::Zlib {
            count: section.content_count(),
            bytes: section.stored_size(),
        },
        Body::Names(_) => Summary::SourceNames(section.name_count()),
        Body::Arguments(_) => Summary::Arguments(section.pair_count()),
        Body::Unknown(kind) => Summary::Unknown {
            kind,
            bytes: section.body_size(),
        },
    }
}
