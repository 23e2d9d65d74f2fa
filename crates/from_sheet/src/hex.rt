// The bytes that a field says by its hex pairs.
ghost use Rattle.std.specs.Prelude.{true, ◌≡◌, ◌+◌, ◌<◌, ◌^◌, ◌≤◌, length, take};
ghost use Rattle.std.proofs.lemmas.List.Edits.{sets};
ghost use Rattle.sheet.specs.Fields.{is_hex_digit, hex_value, is_hex_pairs, bytes_of_pairs};

// The number of a digit. The library's `hex` would test each digit once more, and pass those in upper case.
fn value(digit: u8) -> u8
    requires { is_hex_digit digit ≡ true }
    ensures { result ≡ hex_value digit }
{
    if digit <= b'9' {
        digit - b'0'
    } else {
        digit - b'a' + 10
    }
}

// The byte of each pair, as many as there is room for. By index: tried over `chunks_exact` with `enumerate`, and the proof did not
// close; and no contract tells what is stored through an adapter of `iter_mut`.
fn unpair(bytes: &mut [u8], field: &[u8])
    requires field_form { is_hex_pairs field.now ≡ true }
    requires length_bound { length bytes.old ≤ length (bytes_of_pairs field.now) }
    ensures { bytes.new ≡ take (length bytes.old) (bytes_of_pairs field.now) }
{
    for i in 0..bytes.len() {
        bytes[i] = 16 * value(field[2 * i]) + value(field[2 * i + 1]);
    }
}

// All bytes, as many as fit. Answers the place after them. The bound is that of a slice's end, so that the sum fits.
#[tactic(auto, using(crate::proofs::Fields::bytes_stored))]
pub fn write_unpaired(output: &mut [u8], at: usize, field: &[u8]) -> usize
    requires field_form { is_hex_pairs field.now ≡ true }
    requires field_bound { at + length (bytes_of_pairs field.now) < 2 ^ 63 }
    ensures value { result ≡ at + length (bytes_of_pairs field.now) }
    ensures output_after { output.new ≡ sets output.old at (bytes_of_pairs field.now) }
{
    let count = field.len() / 2;
    if at < output.len() {
        let n = count.min(output.len() - at);
        unpair(&mut output[at..at + n], field);
    }
    at + count
}
