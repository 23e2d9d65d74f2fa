// The public copy of a payload: what a card may show of it, as a payload.
//
// It goes straight from the payload to the output, and is run as a job (crate job).
//
// Proved: the answer and the output afterwards are those that crate format defines (specs/PublicCopy.antt), for
// every byte string and every output; and what this gives away is demand 3 (specs/Secrecy.antt). Nothing is
// assumed.
#![tactic(auto)]

mod contents;
mod names;
mod source_info;

ghost use Rattle.std.specs.Prelude.{◌≡◌, length};
ghost use Rattle.format.specs.PublicCopy.{copy_answer, copy_output};

use crate::source_info::PublicCopy;
use layout::Answer;

// Writes the public copy of a payload to a lent output, whole, or refuses it and leaves the output as it was.
#[tactic(auto, unfolding(format::specs::PublicCopy::copy_answer, format::specs::PublicCopy::copy_output))]
pub fn public_copy(payload: &[u8], output: &mut [u8]) -> Answer
    ensures value { result ≡ copy_answer payload.now (length output.old) }
    ensures output_after { output.new ≡ copy_output payload.now output.old }
{
    job::run::<PublicCopy>(payload, output)
}
