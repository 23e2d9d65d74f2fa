// The sheet of a payload: its sections as lines of text.
//
// It goes straight from the payload to the output, and is run as a job (crate job).
//
// Proved: the answer and the output afterwards are those that crate sheet defines (specs/ToSheet.antt), for
// every byte string and every output. Nothing is assumed.
#![tactic(auto)]

mod entry;
mod section;
mod source_info;

ghost use Rattle.std.specs.Prelude.{◌≡◌, length};
ghost use Rattle.sheet.specs.ToSheet.{to_sheet_answer, to_sheet_output};

use crate::source_info::Sheet;
use layout::Answer;

// Writes the sheet of a payload to a lent output, whole, or refuses it and leaves the output as it was.
#[tactic(auto, unfolding(sheet::specs::ToSheet::to_sheet_answer, sheet::specs::ToSheet::to_sheet_output))]
pub fn to_sheet(payload: &[u8], output: &mut [u8]) -> Answer
    ensures value { result ≡ to_sheet_answer payload.now (length output.old) }
    ensures output_after { output.new ≡ to_sheet_output payload.now output.old }
{
    job::run::<Sheet>(payload, output)
}
