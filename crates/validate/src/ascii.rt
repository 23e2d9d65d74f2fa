// Runs of ASCII, which need no decoding: a byte below 0x80 is a character by itself.
//
// A run is passed over in blocks, and what is left of it byte by byte. A block is passed where its bytes are plain: a NUL is
// ASCII too, but a text seldom has one, and plain bytes are told by one comparison.
ghost use Rattle.std.specs.Prelude.{ℕ, ◌<◌, ◌≤◌, length, slice_index};

use crate::blocks::{LARGE, SMALL, blocks_end};
use utf8::are_plain;

// The end of the run of ASCII that a text begins with.
pub fn run_end(text: &[u8]) -> usize
    ensures upper_bound { result ≤ length text.now }
    ensures ascii { (k : ℕ) → k < result → slice_index text.now k < 0x80 }
{
    let large = blocks_end::<LARGE, _>(text.len(), 0, |i| !are_plain(&text[i..i + LARGE]));
    let small = blocks_end::<SMALL, _>(text.len(), large, |i| !are_plain(&text[i..i + SMALL]));
    small + first_other(&text[small..])
}

// The place of the first byte that is no ASCII, or the end.
fn first_other(bytes: &[u8]) -> usize
    ensures upper_bound { result ≤ length bytes.now }
    ensures ascii { (k : ℕ) → k < result → slice_index bytes.now k < 0x80 }
{
    bytes
        .iter()
        .position(|byte| *byte >= 0x80)
        .unwrap_or(bytes.len())
}
