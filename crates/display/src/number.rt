// Numbers as text, stored at a place of the output.
ghost use Rattle.std.specs.Prelude.{◌≡◌, ◌++◌, ◌+◌, ◌^◌, ◌≤◌, ◌%◌, length};
ghost use Rattle.std.proofs.lemmas.List.Edits.{sets};
ghost use Rattle.format.specs.Display.{decimal, hex};
ghost use Rattle.display.specs.Digits.{digit_in};

// A number in decimal, as far as the output goes. Answers its whole length. `write!` does not: to bytes that end before the
// number does it answers an error, and no length, and a job measures by an output of no bytes.
#[tactic(auto, using(crate::proofs::Decimals::decimals))]
pub fn write_decimal(output: &mut [u8], at: usize, n: u32) -> usize
    ensures value { result ≡ length (decimal n) }
    ensures upper_bound { result ≤ 10 }
    ensures output_after { output.new ≡ sets output.old at (decimal n) }
{
    let mut digits = [0u8; 20];
    let count = io::decimal(n as u64, &mut digits);
    wire::write_bytes(output, at, &digits[..count]);
    count
}

// A number in decimal, and a text. Answers the place after them.
#[tactic(auto, using(crate::proofs::LineLaws::joined))]
pub fn write_number(output: &mut [u8], at: usize, n: u32, text: &[u8]) -> usize
    requires at_bound { at ≤ 2 ^ 50 }
    requires text_len_bound { length text.now ≤ 32 }
    ensures value { result ≡ at + length (decimal n ++ text.now) }
    ensures upper_bound { result ≤ at + 10 + length text.now }
    ensures output_after { output.new ≡ sets output.old at (decimal n ++ text.now) }
{
    let next = at + write_decimal(output, at, n);
    wire::write_bytes(output, next, text);
    next + text.len()
}

// The digit of a number below 16: from 10 on a letter, in upper or in lower case. Of a larger number, that of its last
// digit.
pub fn hex_digit<const UPPER: bool>(n: u8) -> u8
    ensures { result ≡ digit_in UPPER (n % 16) }
{
    let digit = n % 16;
    let ten = if UPPER { b'A' } else { b'a' };
    if digit < 10 {
        b'0' + digit
    } else {
        ten + (digit - 10)
    }
}

// A number in four hexadecimal digits. By hand for the reason that `write_decimal` has.
#[tactic(auto, unfolding(format::specs::Display::hex))]
pub fn write_hex(output: &mut [u8], at: usize, n: u16)
    ensures { output.new ≡ sets output.old at (hex 4 n) }
{
    let last_digit = |n: u16| hex_digit::<true>((n % 16) as u8);
    let digits = [
        last_digit(n / 4096),
        last_digit(n / 256),
        last_digit(n / 16),
        last_digit(n),
    ];
    wire::write_bytes(output, at, &digits);
}
