// A text with its escapes.
ghost use Rattle.std.specs.Prelude.{◌≡◌, ◌+◌, ◌*◌, ◌^◌, ◌≤◌, length};
ghost use Rattle.std.proofs.lemmas.List.Edits.{sets};
ghost use Rattle.sheet.specs.Fields.{escape};
ghost use Rattle.field_writer.specs.Letters.{letter_of};

use sheet::{BACKSLASH, NEWLINE, TAB};

// What follows the backslash that a byte is written with; None where it stands for itself.
fn letter(byte: u8) -> Option<u8>
    ensures { result ≡ letter_of byte }
{
    match byte {
        TAB => Some(b't'),
        NEWLINE => Some(b'n'),
        BACKSLASH => Some(BACKSLASH),
        _ => None,
    }
}

// A whole text. Bytes that stand for themselves are copied in runs. Answers the place after it.
pub fn write_escaped(output: &mut [u8], at: usize, text: &[u8]) -> usize
    requires { at + 2 * length text.now ≤ 2 ^ 60 }
    ensures value { result ≡ at + length (escape text.now) }
    ensures output_after { output.new ≡ sets output.old at (escape text.now) }
{
    let mut to = at;
    let mut rest = text;
    while let [first, after @ ..] = rest {
        if let Some(second) = letter(*first) {
            wire::write_array::<2>(output, to, [BACKSLASH, second]);
            to += 2;
            rest = after;
        } else {
            let run = find::find_any(rest, &[BACKSLASH, TAB, NEWLINE]);
            wire::write_bytes(output, to, &rest[..run]);
            to += run;
            rest = &rest[run..];
        }
    }
    to
}
