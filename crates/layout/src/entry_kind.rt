// What the entries of a section are. A value, since what takes it is called with either kind; in crate accepted the size of the header
// is a const parameter, since there an entry's type says what is known of it.
ghost use Rattle.std.specs.Prelude.{◌≡◌, ◌≤◌};
ghost use Rattle.layout.specs.Kinds.{header_size};

use crate::section_type::SourceInfoSectionType;

#[derive(Clone, Copy)]
pub enum EntryKind {
    Content,
    Name,
}

impl EntryKind {
    // The bytes of an entry before its text.
    pub fn header_size(self) -> usize
        ensures value { result ≡ header_size self }
        ensures upper_bound { result ≤ 16 }
    {
        match self {
            EntryKind::Content => SourceInfoSectionType::CONTENT_ENTRY_HEADER_SIZE,
            EntryKind::Name => SourceInfoSectionType::NAME_ENTRY_HEADER_SIZE,
        }
    }
}
