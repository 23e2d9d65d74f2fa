// The character at a place, by the class of its first byte and the ranges of the bytes after it.
ghost use Rattle.std.specs.Prelude.{◌≡◌, ◌∷◌, ◌<◌, replicate, length as List·length, drop};
ghost use Rattle.std.specs.List.{list_all};
ghost use Rattle.utf8.specs.Rfc3629.{to, tail, within, char_length};
ghost use Rattle.utf8.specs.Classes.{length_after, nonzero};

use crate::classes::Classes;

// The length of the character at place at, where one begins there.
pub fn length(text: &[u8], at: usize, classes: Classes<'_>) -> Option<usize>
    requires { at < List·length text.now }
    ensures { result ≡ nonzero (char_length (drop at text.now)) }
{
    let rest = &text[at + 1..];
    match classes.class(text[at]) {
        0 => Some(1),
        1 => after::<0>(rest, 0x80, 0xBF),
        2 => after::<1>(rest, 0xA0, 0xBF),
        3 | 5 => after::<1>(rest, 0x80, 0xBF),
        4 => after::<1>(rest, 0x80, 0x9F),
        6 => after::<2>(rest, 0x90, 0xBF),
        7 => after::<2>(rest, 0x80, 0xBF),
        8 => after::<2>(rest, 0x80, 0x8F),
        9.. => None,
    }
}

// The length of a character whose first byte was met, and whose other bytes begin the rest of the text: one from low to
// high, and then TAILS of UTF8-tail.
fn after<const TAILS: usize>(rest: &[u8], low: u8, high: u8) -> Option<usize>
    requires { TAILS < 3 }
    ensures { result ≡ nonzero (length_after (to low high ∷ replicate TAILS tail) rest.now) }
{
    let (first, others) = rest.split_first()?;
    let tails = others.get(..TAILS)?;
    if lies_in(*first, low, high) && are_tails(tails) {
        Some(2 + TAILS)
    } else {
        None
    }
}

fn are_tails(bytes: &[u8]) -> bool
    ensures { result ≡ list_all (within tail) bytes.now }
{
    bytes.iter().all(|byte| lies_in(*byte, 0x80, 0xBF))
}

fn lies_in(byte: u8, low: u8, high: u8) -> bool
    ensures { result ≡ within (to low high) byte }
{
    (low..=high).contains(&byte)
}
