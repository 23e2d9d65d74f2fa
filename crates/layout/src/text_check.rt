// What a text must be, wherever it stands: UTF-8, with no NUL inside.
ghost use Rattle.std.specs.Prelude.{◌≡◌};
ghost use Rattle.layout.specs.TextCheck.{check_whole, check_text};
ghost use Rattle.layout.specs.declared.refusal.Refusal.TheVariants.{NotUtf8};

use crate::refusal::Refusal;
use crate::text::part_of;
use utf8::{Utf8Error, are_plain};
use wire::TextLength;

// A text that is ill formed anywhere is refused, and where does not matter.
impl From<Utf8Error> for Refusal {
    ghost from_gives = { λ _ refusal. refusal ≡ NotUtf8 };

    fn from(_error: Utf8Error) -> Refusal {
        Refusal::NotUtf8
    }
}

// Below this length a text is held to be plain at first. A longer one may well have other characters, and
// then a look at all of it would be in vain.
const SHORT: usize = 4096;

// A whole text. Of a short plain one a single look at each byte tells that it passes; any other is gone through for its
// characters, and then for a NUL.
pub fn check_whole(text: &[u8]) -> Result<(), Refusal>
    ensures { result ≡ check_whole text.now }
{
    if text.len() < SHORT && are_plain(text) {
        return Ok(());
    }
    validate::validate(text)?;
    if find::find_nul(text).is_some() {
        Err(Refusal::InnerNul)
    } else {
        Ok(())
    }
}

// The text from `start` on.
#[tactic(auto, unfolding(crate::specs::TextCheck::check_text))]
pub fn check_text(bytes: &[u8], start: usize, text: TextLength) -> Result<(), Refusal>
    ensures { result ≡ check_text bytes.now start text.0 }
{
    check_whole(part_of(bytes, start, text.0 as usize))
}
