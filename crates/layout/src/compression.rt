// How a contents section stores its entries, as DxilSourceInfo_SourceContentsCompressType numbers it.
ghost use Rattle.std.specs.Prelude.{◌≡◌};
ghost use Rattle.layout.specs.Kinds.{compression, checked_compression, compression_number};

// In the order of their numbers, from 0.
#[derive(Clone, Copy)]
pub enum SourceCompression {
    // The entries stand in the section as they are: a plain section.
    None,
    // The entries stand there as a zlib stream: a packed section.
    Zlib,
}

// The conversions are named as those of the section type.
impl SourceCompression {
    // What a number on the wire says, if it says one.
    pub fn from_u16(value: u16) -> Option<Self>
        ensures { result ≡ compression value }
    {
        match value {
            0 => Some(SourceCompression::None),
            1 => Some(SourceCompression::Zlib),
            _ => None,
        }
    }

    // Of a number that was checked: what is not plain is packed.
    pub fn checked(value: u16) -> Self
        ensures { result ≡ checked_compression value }
    {
        SourceCompression::from_u16(value).unwrap_or(SourceCompression::Zlib)
    }

    pub fn to_u16(self) -> u16
        ensures { result ≡ compression_number self }
    {
        self as u16
    }
}
