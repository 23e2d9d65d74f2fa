// The first place of a byte that is one of those sought; mostly one is sought.
//
// Bytes that are none of them are passed over in blocks, and what is left of them one by one. A block has a fixed size, so
// that to look for a byte in it is compiled to a test of all of it at once, which costs no more than that of one byte.
ghost use Rattle.std.specs.Prelude.{[], ◌∷◌, ◌≡◌, false, ◌+◌, max, ◌≤◌, length, drop, eqb};
ghost use Rattle.std.specs.List.{All, list_any};
ghost use Rattle.find.specs.Find.{until, is_any};

const BLOCK: usize = 16;

// How many bytes stand before the first that is sought; all of them where there is none. A number, and no `Option`: callers want
// where a run ends, whatever ends it. A line's parts are stored by their ends; `split_line` and `find_nul` tell by the length
// whether there was one. Inlined, since most searches are short.
#[inline(always)]
pub fn find_any<const N: usize>(bytes: &[u8], sought: &[u8; N]) -> usize
    ensures { result ≡ until (is_any sought.now) bytes.now }
{
    let rest = after_blocks(bytes, sought);
    bytes.len() - rest.len() + first(rest, sought)
}

// The next place of a byte, from at on; where there is none the end, or at where that lies past the end.
pub fn find_from(bytes: &[u8], byte: u8, at: usize) -> usize
    ensures upper_bound { result ≤ max at (length bytes.now) }
    ensures value { result ≡ at + until (is_any (byte ∷ [])) (drop at bytes.now) }
{
    if bytes.len() <= at {
        return at;
    }
    at + find_any(&bytes[at..], &[byte])
}

// What is left after the whole blocks without one that the bytes begin with. Tried as a count of `chunks_exact` by
// `take_while`, which takes 2 ns more for each short search. Inlined, as the test of a block, for the reason above.
#[inline(always)]
fn after_blocks<'a, const N: usize>(bytes: &'a [u8], sought: &[u8; N]) -> &'a [u8]
    ensures shorter { length result.now ≤ length bytes.now }
    ensures passed { until (is_any sought.now) bytes.now + length result.now ≡ length bytes.now + until (is_any sought.now) result.now }
{
    if bytes.len() < BLOCK {
        return bytes;
    }
    let mut rest = bytes;
    while let Some((block, after)) = rest.split_first_chunk::<BLOCK>() {
        if has_any(block, sought) {
            return rest;
        }
        rest = after;
    }
    rest
}

// Whether a block has one.
#[inline(always)]
fn has_any<const N: usize>(block: &[u8; BLOCK], sought: &[u8; N]) -> bool
    ensures { result ≡ false → All (λ b. is_any sought.now b ≡ false) block.now }
{
    sought.iter().any(
        |byte| -> bool
            ensures { result ≡ list_any (λ b. eqb b byte.now) block.entry.now }
        { block.contains(byte) },
    )
}

// How many bytes stand before the first that is one, byte by byte.
#[inline(always)]
fn first<const N: usize>(bytes: &[u8], sought: &[u8; N]) -> usize
    ensures { result ≡ until (is_any sought.now) bytes.now }
{
    bytes
        .iter()
        .position(
            |byte| -> bool
                ensures { result ≡ is_any sought.entry.now byte.now }
            { sought.contains(byte) },
        )
        .unwrap_or(bytes.len())
}
