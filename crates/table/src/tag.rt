// What a row is, by the number of its tag.
ghost use Rattle.std.specs.Prelude.{◌≡◌};
ghost use Rattle.table.specs.Tags.{tag_of, tag_number, entry_tag, follows, begins_section, headers_size};

use layout::SourceInfoSectionType;

// In the order of their numbers, from 0. Sections and entries in one type: document 01 numbers them in one list, and what a row or
// a line may stand after is asked of both.
#[derive(Clone, Copy, PartialEq, Eq)]
pub enum Tag {
    // Contents that stand in the section as they are.
    PlainContents,
    // Contents that stand there as a zlib stream.
    PackedContents,
    Names,
    Arguments,
    // A section of an unknown kind.
    Unknown,
    // A source text of plain contents.
    Content,
    // A name of names.
    Name,
    // A pair of arguments.
    Pair,
}

impl Tag {
    // No `TryFrom`: no caller asks for the error that it would have.
    pub fn from_u32(value: u32) -> Option<Self>
        ensures { result ≡ tag_of value }
    {
        match value {
            0 => Some(Tag::PlainContents),
            1 => Some(Tag::PackedContents),
            2 => Some(Tag::Names),
            3 => Some(Tag::Arguments),
            4 => Some(Tag::Unknown),
            5 => Some(Tag::Content),
            6 => Some(Tag::Name),
            7 => Some(Tag::Pair),
            _ => None,
        }
    }

    pub fn to_u32(self) -> u32
        ensures { result ≡ tag_number self }
    {
        self as u32
    }

    // The tag of the entries that may follow a row of this tag, if some may.
    pub fn entry_tag(self) -> Option<Tag>
        ensures { result ≡ entry_tag self }
    {
        match self {
            Tag::PlainContents | Tag::Content => Some(Tag::Content),
            Tag::Names | Tag::Name => Some(Tag::Name),
            Tag::Arguments | Tag::Pair => Some(Tag::Pair),
            Tag::PackedContents | Tag::Unknown => None,
        }
    }

    // Whether an entry of this tag may stand after a row of the previous tag.
    #[tactic(auto, using(crate::proofs::Tags::same_tags))]
    pub fn follows(self, previous: Option<Tag>) -> bool
        ensures { result ≡ follows self previous }
    {
        previous.and_then(Tag::entry_tag) == Some(self)
    }

    // Whether a row of this tag begins a section; any other is an entry of the section before it.
    pub fn begins_section(self) -> bool
        ensures { result ≡ begins_section self }
    {
        match self {
            Tag::PlainContents | Tag::PackedContents | Tag::Names | Tag::Arguments | Tag::Unknown =>
                true,
            Tag::Content | Tag::Name | Tag::Pair => false,
        }
    }

    // How many bytes the headers of a section of this tag have. 0 for an entry, which has none: a number and no `Option`, since
    // sums go on with it.
    pub fn headers_size(self) -> usize
        ensures { result ≡ headers_size self }
    {
        match self {
            Tag::PlainContents | Tag::PackedContents => SourceInfoSectionType::CONTENTS_START,
            Tag::Names => SourceInfoSectionType::NAMES_START,
            Tag::Arguments => SourceInfoSectionType::ARGS_START,
            Tag::Unknown => SourceInfoSectionType::SECTION_HEADER_SIZE,
            Tag::Content | Tag::Name | Tag::Pair => 0,
        }
    }
}
