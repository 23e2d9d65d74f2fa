// The check of UTF-8 for host programs, which link libutf8_host.a: by it tests/utf8 times the check
// beside that of Rust's core, and compares the two.
#![tactic(auto)]

ghost use Rattle.std.specs.Prelude.{◌≡◌};
ghost use Rattle.utf8.specs.Rfc3629.{utf8_of};
ghost use Rattle.utf8_host.specs.Told.{number, place};

// Answers 0 for a text that is well formed. Else answers 1, and stores in `at` the place of the first ill-formed
// sequence.
#[unsafe(no_mangle)]
pub extern "C" fn utf8_validate(text: &[u8], at: &mut usize) -> u32
    ensures value { result ≡ number (utf8_of text.now) }
    ensures at_after { at.new ≡ place (utf8_of text.now) at.old }
{
    match validate::validate(text) {
        Ok(()) => 0,
        Err(error) => {
            *at = error.valid_up_to;
            1
        }
    }
}
