// Bytes as pairs of digits.
ghost use Rattle.std.specs.Prelude.{◌≡◌, ◌+◌, ◌*◌, ◌^◌, ◌≤◌, length};
ghost use Rattle.std.proofs.lemmas.List.Edits.{sets};
ghost use Rattle.sheet.specs.Fields.{hex_pair, hex_pairs};

use display::hex_digit;

// The two digits of a byte.
fn pair(byte: u8) -> [u8; 2]
    ensures { result ≡ hex_pair byte }
{
    [hex_digit::<false>(byte / 16), hex_digit::<false>(byte)]
}

// The pairs of bytes that all fit: a plain counted loop, which tests no place.
fn fill_pairs(to: &mut [u8], bytes: &[u8])
    requires { length to.now ≡ 2 * length bytes.now }
    ensures { to.new ≡ hex_pairs bytes.now }
{
    for i in 0..bytes.len() {
        let [first, second] = pair(bytes[i]);
        to[2 * i] = first;
        to[2 * i + 1] = second;
    }
}

// The pairs of all bytes. Where the output ends before them, none is made; where it ends within one, its first digit is stored.
pub fn write_pairs(output: &mut [u8], at: usize, bytes: &[u8])
    requires { at + 2 * length bytes.now ≤ 2 ^ 60 }
    ensures { output.new ≡ sets output.old at (hex_pairs bytes.now) }
{
    if output.len() <= at {
        return;
    }
    let whole = bytes.len().min((output.len() - at) / 2);
    fill_pairs(&mut output[at..at + 2 * whole], &bytes[..whole]);
    if whole < bytes.len() {
        wire::write_array::<2>(output, at + 2 * whole, pair(bytes[whole]));
    }
}
