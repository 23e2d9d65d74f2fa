// A field that is a text, in which each backslash begins an escape.
ghost use Rattle.std.specs.Prelude.{◌≡◌, get_or};
ghost use Rattle.sheet.specs.Fields.{is_escape};
ghost use Rattle.line_reader.specs.Sizes.{text_told};

use find::find_any;
use sheet::BACKSLASH;

// How many bytes a text has with its escapes resolved. Bytes that stand for themselves are counted in runs, up to the next
// backslash.
pub fn text_size(field: &[u8]) -> Option<usize>
    ensures { result ≡ text_told 0 field.now }
{
    let mut size = 0;
    let mut rest = field;
    while let [first, after @ ..] = rest {
        if *first == BACKSLASH {
            if !is_escape(after) {
                return None;
            }
            size += 1;
            rest = &after[1..];
        } else {
            let run = find_any(rest, &[BACKSLASH]);
            size += run;
            rest = &rest[run..];
        }
    }
    Some(size)
}

// Whether what follows a backslash is there, and may follow one.
fn is_escape(after: &[u8]) -> bool
    ensures { result ≡ is_escape (get_or after.now 0 0) }
{
    matches!(after.first(), Some(b'\\' | b't' | b'n'))
}
