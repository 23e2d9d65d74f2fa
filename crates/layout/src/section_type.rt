// Section kinds, as DxilSourceInfoSectionType numbers them, and the sizes of the layout's headers.
ghost use Rattle.std.specs.Prelude.{◌≡◌};
ghost use Rattle.layout.specs.Kinds.{section_type, kind_number, known, unknown_rule};

#[derive(Clone, Copy)]
pub enum SourceInfoSectionType {
    // Source texts, plain or packed.
    SourceContents,
    // Source-file names, each with the size of its content.
    SourceNames,
    // Compiler argument pairs.
    Arguments,
    // A kind from 3 up, which a later version of the layout may give a meaning.
    Unknown(u16),
}

// Each header size is in bytes and counts the header alone, not what follows it. Sizes and conversions are associated
// items, as document 01 names them, and not impls of `From`.
impl SourceInfoSectionType {
    pub const MAIN_HEADER_SIZE: usize = 8;

    pub const SECTION_HEADER_SIZE: usize = 8;

    pub const ARGS_HEADER_SIZE: usize = 12;

    pub const NAMES_HEADER_SIZE: usize = 10;

    pub const NAME_ENTRY_HEADER_SIZE: usize = 16;

    pub const CONTENTS_HEADER_SIZE: usize = 20;

    pub const CONTENT_ENTRY_HEADER_SIZE: usize = 12;

    // Where a section's stored bytes start: after the section header and the body header.
    pub const ARGS_START: usize = SourceInfoSectionType::SECTION_HEADER_SIZE
        + SourceInfoSectionType::ARGS_HEADER_SIZE;

    pub const NAMES_START: usize = SourceInfoSectionType::SECTION_HEADER_SIZE
        + SourceInfoSectionType::NAMES_HEADER_SIZE;

    pub const CONTENTS_START: usize = SourceInfoSectionType::SECTION_HEADER_SIZE
        + SourceInfoSectionType::CONTENTS_HEADER_SIZE;

    pub fn from_u16(value: u16) -> Self
        ensures { result ≡ section_type value }
    {
        match value {
            0 => SourceInfoSectionType::SourceContents,
            1 => SourceInfoSectionType::SourceNames,
            2 => SourceInfoSectionType::Arguments,
            _ => SourceInfoSectionType::Unknown(value),
        }
    }

    pub fn to_u16(self) -> u16
        ensures { result ≡ kind_number self }
    {
        match self {
            SourceInfoSectionType::SourceContents => 0,
            SourceInfoSectionType::SourceNames => 1,
            SourceInfoSectionType::Arguments => 2,
            SourceInfoSectionType::Unknown(value) => value,
        }
    }

    // Whether a public copy has a section for one of this kind.
    pub fn is_known(self) -> bool
        ensures { result ≡ known self }
    {
        !matches!(self, SourceInfoSectionType::Unknown(_))
    }

    // The rule of unknown sections: whether a kind is none of those above and fits its field, and its bytes make whole words.
    pub fn may_be_unknown(kind: u32, size: usize) -> bool
        ensures { result ≡ unknown_rule kind size }
    {
        (3 <= kind) & (kind <= 65535) & (size % 4 == 0)
    }
}
