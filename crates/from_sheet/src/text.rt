// The text that a field says: its escapes are resolved.
ghost use Rattle.std.specs.Prelude.{◌≡◌, ◌+◌, ◌<◌, ◌^◌, length};
ghost use Rattle.std.proofs.lemmas.List.Edits.{sets};
ghost use Rattle.sheet.specs.Fields.{meant, unescape};
ghost use Rattle.from_sheet.specs.Escape.{is_pair};

use sheet::{BACKSLASH, NEWLINE, TAB};

// What a backslash followed by a letter stands for.
fn meant_by(letter: u8) -> u8
    ensures { result ≡ meant letter }
{
    match letter {
        b't' => TAB,
        b'n' => NEWLINE,
        _ => BACKSLASH,
    }
}

// Whether they begin with a backslash and a byte after it. Tried as a pattern in the loop: of the branch for all else the
// proof has no facts.
fn is_pair(bytes: &[u8]) -> bool
    ensures { result ≡ is_pair bytes.now }
{
    matches!(bytes, [BACKSLASH, _, ..])
}

// A whole text. Bytes that stand for themselves are copied in runs; a backslash with nothing after it is one of them.
// Answers the place after it. The bound is that of a slice's end, so that the sum fits.
pub fn write_unescaped(output: &mut [u8], at: usize, field: &[u8]) -> usize
    requires { at + length (unescape field.now) < 2 ^ 63 }
    ensures value { result ≡ at + length (unescape field.now) }
    ensures output_after { output.new ≡ sets output.old at (unescape field.now) }
{
    let mut to = at;
    let mut rest = field;
    while let [_, after @ ..] = rest {
        if is_pair(rest) {
            wire::write_array::<1>(output, to, [meant_by(rest[1])]);
            to += 1;
            rest = &rest[2..];
        } else {
            let run = 1 + find::find_any(after, &[BACKSLASH]);
            wire::write_bytes(output, to, &rest[..run]);
            to += run;
            rest = &rest[run..];
        }
    }
    to
}
