// What a section of an accepted payload holds, by its kind.
ghost use Rattle.accepted.specs.Body.{Holds};

use crate::checked_section::CheckedSection;
use crate::entries::{Contents, Entries, Names};
use crate::pairs::Pairs;
use layout::{SourceCompression, SourceInfoSectionType};

pub enum Body<'a> {
    // Plain contents.
    Contents(Contents<'a>),
    // Contents that are packed, whose stream no pass looks into.
    Packed,
    Names(Names<'a>),
    Arguments(Pairs<'a>),
    // The kind.
    Unknown(u16),
}

impl<'a> CheckedSection<'a> {
    // What it holds. A job matches on it, and then goes over entries of one kind or over pairs.
    pub fn body(self) -> Body<'a>
        ensures { Holds self.entry.payload.now self.entry.kind self.entry.at result }
    {
        let payload = self.payload;
        match self.kind {
            SourceInfoSectionType::SourceContents => match self.compression() {
                SourceCompression::None => Body::Contents(Entries {
                    payload,
                    at: self.at + SourceInfoSectionType::CONTENTS_START,
                    left: self.content_count(),
                }),
                SourceCompression::Zlib => Body::Packed,
            },
            SourceInfoSectionType::SourceNames => Body::Names(Entries {
                payload,
                at: self.at + SourceInfoSectionType::NAMES_START,
                left: self.name_count(),
            }),
            SourceInfoSectionType::Arguments => Body::Arguments(Pairs {
                payload,
                at: self.at + SourceInfoSectionType::ARGS_START,
                left: self.pair_count(),
            }),
            SourceInfoSectionType::Unknown(kind) => Body::Unknown(kind),
        }
    }
}
