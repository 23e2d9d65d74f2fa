// A text is looked at in blocks, large ones first, and small ones for what is left. The test of a block does not branch on
// the text, and its size is a constant at each call, where the functions are inlined, so that it is compiled to a test of all
// its bytes at once, which costs no more than that of one byte.
//
// Each caller goes over the large blocks and then the small ones itself. Tried as one function, whose test takes the start and
// the end of a block: the local rule took 30 % longer.
ghost use Rattle.std.specs.Prelude.{◌≡◌, ℕ, ◌+◌, ◌<◌, ◌≤◌, Bool, true, false};

pub const LARGE: usize = 64;

pub const SMALL: usize = 16;

// The end of the whole blocks of SIZE places from a place on in which no fault is found. The place moves on by a block: `chunks_exact`
// does not fit, since the test may look at bytes before its block.
pub fn blocks_end<const SIZE: usize, F: Fn(usize) -> bool>(
    length: usize,
    at: usize,
    has_fault: F,
) -> usize
    requires bounds { (at ≤ length) × (0 < SIZE) }
    requires callable { (i : ℕ) → at ≤ i → i + SIZE ≤ length → F.pre has_fault i }
    ensures bounds { (at ≤ result) × (result ≤ length) }
    ensures passed { (holds : ℕ → Bool) → ((k : ℕ) → k < at → holds k ≡ true) → ((i : ℕ) → at ≤ i → i + SIZE ≤ length → F.post has_fault i false → (k : ℕ) → k < SIZE → holds (i + k) ≡ true) → (k : ℕ) → k < result → holds k ≡ true }
{
    let mut end = at;
    while length - end >= SIZE && !has_fault(end) {
        end += SIZE;
    }
    end
}
