// A field that is bytes, in hex pairs.
ghost use Rattle.std.specs.Prelude.{◌≡◌};
ghost use Rattle.sheet.specs.Fields.{is_hex_digit};
ghost use Rattle.line_reader.specs.Sizes.{bytes_told};

// How many bytes a field says. The loop does not branch on the field, so that it can be compiled to vector code.
pub fn bytes_size(field: &[u8]) -> Option<usize>
    ensures { result ≡ bytes_told field.now }
{
    let mut good = field.len() % 2 == 0;
    for byte in field {
        good = good & is_hex_digit(*byte);
    }
    good.then_some(field.len() / 2)
}

fn is_hex_digit(byte: u8) -> bool
    ensures { result ≡ is_hex_digit byte }
{
    matches!(byte, b'0'..=b'9' | b'a'..=b'f')
}
