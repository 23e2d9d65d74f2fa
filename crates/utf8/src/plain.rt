// Bytes that a text can have anywhere, and that need no decoding.
ghost use Rattle.std.specs.Prelude.{◌≡◌};
ghost use Rattle.utf8.specs.Plain.{is_plain, are_plain};

// Whether a byte is ASCII and no NUL. It does not branch, so that a loop over it can be compiled to vector code, where it is
// one comparison of signed bytes.
#[inline(always)]
pub fn is_plain(byte: u8) -> bool
    ensures { result ≡ is_plain byte }
{
    (byte != 0) & (byte < 0x80)
}

// Whether all bytes are. The loop does not branch on them, so that it can be compiled to vector code, and it is inlined, so that
// of a block whose size is a constant it is a test of all bytes at once.
#[inline(always)]
pub fn are_plain(bytes: &[u8]) -> bool
    ensures { result ≡ are_plain bytes.now }
{
    let mut plain = true;
    for byte in bytes {
        plain &= is_plain(*byte);
    }
    plain
}
