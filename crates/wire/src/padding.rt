// Padding: zero bytes that bring a length to a multiple of 4.
ghost use Rattle.std.specs.Prelude.{◌≡◌, ◌+◌, replicate};
ghost use Rattle.std.proofs.lemmas.List.Edits.{sets};
ghost use Rattle.wire.specs.Padding.{padding, aligned, all_zero};

// By remainder: how many bytes are lacking to a multiple of 4.
const PADDING: [u8; 4] = [0, 3, 2, 1];

// How many zero bytes follow `length` bytes.
#[tactic(auto, unfolding(crate::specs::Padding::padding))]
pub fn padding_length(length: usize) -> usize
    ensures { result ≡ padding length }
{
    PADDING[length % 4] as usize
}

// A header and the `size` bytes after it, with their padding. Two numbers of 32 bits, so that the sum fits.
#[tactic(auto, using(crate::proofs::PaddingLaws::padding_bounds), unfolding(crate::specs::Padding::aligned))]
pub fn align4(header: u32, size: u32) -> usize
    ensures { result ≡ aligned (header + size) }
{
    let length = header as usize + size as usize;
    length + padding_length(length)
}

// Whether every byte is 0.
pub fn zeros(bytes: &[u8]) -> bool
    ensures { result ≡ all_zero bytes.now }
{
    bytes.iter().all(|byte| *byte == 0)
}

// Stores `count` zeros from `offset` on, as many as fit.
#[tactic(auto, using(crate::proofs::Sets::stores))]
pub fn write_zeros(output: &mut [u8], offset: usize, count: usize)
    ensures { output.new ≡ sets output.old offset (replicate count 0) }
{
    if offset < output.len() {
        let n = count.min(output.len() - offset);
        output[offset..offset + n].fill(0);
    }
}
