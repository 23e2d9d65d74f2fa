// Whether bytes are well-formed UTF-8, by RFC 3629: the check that srci.rs takes from core::str::from_utf8.
//
// Proved: the answer is the one that utf8/specs/Rfc3629.antt gives from the grammar of the RFC, for every
// byte string of any length. Nothing is assumed.
#![tactic(auto)]

mod ascii;
mod blocks;
mod rule;

ghost use Rattle.std.specs.Prelude.{◌≡◌};
ghost use Rattle.utf8.specs.Rfc3629.{utf8_of};

use utf8::Utf8Error;

// A text is passed over as far as it is ASCII, and then by the local rule. What is left, of a text that is ill-formed or very
// short, is read by the table.
pub fn validate(text: &[u8]) -> Result<(), Utf8Error>
    ensures { result ≡ utf8_of text.now }
{
    let at = ascii::run_end(text);
    if at == text.len() {
        return Ok(());
    }
    let from = rule::passed(text, at);
    if from == text.len() {
        return Ok(());
    }
    utf8::read_with_table(text, from)
}
