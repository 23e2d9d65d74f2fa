// The card of a payload: the listing of its public copy, which is all that members see.
//
// It goes straight from the payload to the output, with no second buffer. It is run as a job (crate job).
//
// Proved: the answer and the output afterwards are those that crate format defines, the public copy and then its
// listing, for every byte string and every output; and that a card tells the public facts alone (specs/Card.antt).
// Nothing is assumed.
#![tactic(auto)]

mod source_info;

ghost use Rattle.std.specs.Prelude.{◌≡◌, length};
ghost use Rattle.format.specs.Card.{card_answer, card_output};

pub use crate::source_info::Card;
use layout::Answer;

// Writes the card of a payload to a lent output, whole, or refuses it and leaves the output as it was.
#[tactic(auto, unfolding(format::specs::Card::card_answer, format::specs::Card::card_output))]
pub fn card(payload: &[u8], output: &mut [u8]) -> Answer
    ensures value { result ≡ card_answer payload.now (length output.old) }
    ensures output_after { output.new ≡ card_output payload.now output.old }
{
    job::run::<Card>(payload, output)
}
