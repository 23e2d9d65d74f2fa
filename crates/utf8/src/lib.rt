// UTF-8 as RFC 3629 defines it, and the reading of text by its grammar, a character at a time.
//
// Proved: the answer is the one that specs/Rfc3629.antt gives from the grammar of the RFC, for every
// byte string of any length, read on from any place. Nothing is assumed. Whole texts are checked by the crate
// `validate`, which looks at blocks of bytes and comes here for the rest.
#![tactic(auto)]

mod character;
mod classes;
mod plain;

ghost use Rattle.std.specs.Prelude.{◌≡◌, drop};
ghost use Rattle.utf8.specs.Rfc3629.{octets_from};

use crate::classes::{CLASSES, Classes};
pub use plain::{are_plain, is_plain};

// Why bytes are no text: the first ill-formed sequence begins at this byte, and all before it is well formed.
#[derive(Clone, Copy, Debug, PartialEq, Eq)]
pub struct Utf8Error {
    pub valid_up_to: usize,
}

// Reads on from a place, by the table of classes. Past the end of a text there is nothing to read.
pub fn read_with_table(text: &[u8], from: usize) -> Result<(), Utf8Error>
    ensures { result ≡ octets_from 0 from (drop from text.now) }
{
    read_octets(text, from, Classes { table: &CLASSES })
}

// Reads on from a place, over each character by the class of its first byte. The place moves on by a length that is read,
// so that no iterator of the library goes this way.
fn read_octets(text: &[u8], from: usize, classes: Classes<'_>) -> Result<(), Utf8Error>
    ensures { result ≡ octets_from 0 from (drop from text.now) }
{
    let mut at = from;
    while at < text.len() {
        if text[at] < 0x80 {
            at += 1;
        } else {
            match character::length(text, at, classes) {
                Some(count) => at += count,
                None => return Err(Utf8Error { valid_up_to: at }),
            }
        }
    }
    Ok(())
}
