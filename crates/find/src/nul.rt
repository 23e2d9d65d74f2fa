// Where a text ends: at the first NUL.
ghost use Rattle.std.specs.Prelude.{◌≡◌, drop};
ghost use Rattle.find.specs.Nul.{until_nul, first_nul};

use crate::find::find_from;

// The place of the first NUL, if there is one.
pub fn find_nul(bytes: &[u8]) -> Option<usize>
    ensures { result ≡ first_nul bytes.now }
{
    let end = find_from(bytes, 0, 0);
    (end < bytes.len()).then_some(end)
}

// How many bytes stand before the first NUL from a place on; all of them where there is none. A number and no `Option`: each
// caller measures a text whose NUL is known to be there. Many texts are empty, and the first byte tells so without a search.
pub fn find_nul_from(bytes: &[u8], at: usize) -> usize
    ensures { result ≡ until_nul (drop at bytes.now) }
{
    if bytes.len() <= at {
        return 0;
    }
    if bytes[at] == 0 {
        return 0;
    }
    find_from(bytes, 0, at) - at
}
