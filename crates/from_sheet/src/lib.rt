// The payload of a sheet, straight from its lines to a lent output: the way in.
//
// The first pass checks the lines and measures the payload, and stores nothing (crate lines). The second goes over them
// again, stores the payload and cannot fail (`source_info::store_srci` and what it calls).
//
// Proved: the answer and the output afterwards are those that crate sheet defines (specs/FromSheet.antt), for every sheet
// and output. Nothing is assumed.
#![tactic(auto)]

mod entry;
mod hex;
mod record;
mod records;
mod run;
mod section;
mod source_info;
mod text;

ghost use Rattle.std.specs.Prelude.{◌≡◌, length};
ghost use Rattle.sheet.specs.FromSheet.{from_sheet_answer, from_sheet_output};

use crate::records::Records;
use layout::{Answer, Refusal};

// Makes the payload of a sheet in a lent output, whole, or refuses the sheet and leaves the output as it was.
pub fn from_sheet(sheet: &[u8], output: &mut [u8]) -> Answer
    ensures value { result ≡ from_sheet_answer sheet.now (length output.old) }
    ensures output_after { output.new ≡ from_sheet_output sheet.now output.old }
{
    let size = lines::measure(sheet)?;
    let short = output.len() < size as usize;
    if short {
        return Err(Refusal::NoRoom(size));
    }
    source_info::store_srci(Records::new(sheet), output, size);
    Ok(size)
}
