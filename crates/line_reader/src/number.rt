// A field that is a number: digits with no 0 before others, at most 4,294,967,295.
ghost use Rattle.std.specs.Prelude.{◌≡◌};
ghost use Rattle.line_reader.specs.Numbers.{number_told, spelt_told};

// The number of a field, if it is one.
pub fn read_number(field: &[u8]) -> Option<u32>
    ensures { result ≡ number_told field.now }
{
    if field.is_empty() {
        return None;
    }
    let leading_zero = field[0] == b'0';
    if leading_zero && field.len() > 1 {
        return None;
    }
    read_digits(field)
}

// The number that digits spell; `parse` would take a plus before them too. It stops at what is no digit, and where the
// number is too large, which more digits do not change.
fn read_digits(field: &[u8]) -> Option<u32>
    ensures { result ≡ spelt_told 0 field.now }
{
    let mut n: u32 = 0;
    for byte in field {
        if !byte.is_ascii_digit() {
            return None;
        }
        let digit = u32::from(*byte - b'0');
        n = n.checked_mul(10)?.checked_add(digit)?;
    }
    Some(n)
}
