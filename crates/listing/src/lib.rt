// Listing a payload: the port of the Display of SourceInfo.
//
// A line that counts the sections, and then a line for each, straight from the payload. It is run as a job (crate job).
//
// Proved: the answer and the output afterwards are those that crate format defines (specs/Listing.antt), for
// every byte string and every output. Nothing is assumed.
#![tactic(auto)]

mod source_info;

ghost use Rattle.std.specs.Prelude.{◌≡◌, length};
ghost use Rattle.format.specs.Listing.{list_answer, list_output};

pub use crate::source_info::Listing;
use layout::Answer;

// Lists a payload to a lent output, whole, or refuses it and leaves the output as it was.
#[tactic(auto, unfolding(format::specs::Listing::list_answer, format::specs::Listing::list_output))]
pub fn list(payload: &[u8], output: &mut [u8]) -> Answer
    ensures value { result ≡ list_answer payload.now (length output.old) }
    ensures output_after { output.new ≡ list_output payload.now output.old }
{
    job::run::<Listing>(payload, output)
}
