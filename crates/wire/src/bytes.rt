// Bytes copied into lent bytes.
ghost use Rattle.std.specs.Prelude.{◌≡◌, length};
ghost use Rattle.std.proofs.lemmas.List.Edits.{sets};

// Stores `bytes` from `offset` on, as many as fit.
#[tactic(auto, using(crate::proofs::Sets::stores))]
pub fn write_bytes(output: &mut [u8], offset: usize, bytes: &[u8])
    ensures { output.new ≡ sets output.old offset bytes.now }
{
    if offset < output.len() {
        let n = bytes.len().min(output.len() - offset);
        copy(&mut output[offset..offset + n], &bytes[..n]);
    }
}

// Copies bytes onto as many. A loop, which is compiled to `memcpy`, and not `copy_from_slice`, which takes `memmove` where
// the length is no constant: a host then has one more function to give. By index, since no contract tells what is stored through
// an adapter of `iter_mut`.
fn copy(to: &mut [u8], from: &[u8])
    requires { length to.old ≡ length from.now }
    ensures { to.new ≡ from.now }
{
    for i in 0..from.len() {
        to[i] = from[i];
    }
}
