// Writing rows to a payload: the port of write_srci_canonical and of what it calls.
//
// The first pass checks the rows and measures the payload, and stores nothing (crate rows). The second stores
// it and cannot fail (`write_srci` and what it calls).
//
// Proved: the answer and the output afterwards are those that crate format defines (specs/Write.antt), for
// every payload, edit text, table and output. Nothing is assumed.
#![tactic(auto)]

mod entry;
mod position;
mod run;
mod section;
mod source;
mod source_info;
mod writers;

ghost use Rattle.std.specs.Prelude.{◌≡◌, length};
ghost use Rattle.format.specs.Write.{write_answer, write_output};

use layout::{Answer, Refusal, Sides};
use source::Source;

// Writes rows over a payload and an edit text to a lent output, whole, or refuses them and leaves the output
// as it was.
pub fn write(payload: &[u8], edit: &[u8], rows: &[u32], output: &mut [u8]) -> Answer
    ensures value { result ≡ write_answer payload.now edit.now rows.now (length output.old) }
    ensures output_after { output.new ≡ write_output payload.now edit.now rows.now output.old }
{
    let sides = Sides { payload, edit };
    let size = rows::measure(sides, rows)?;
    let room = output.len();
    if room < size as usize {
        return Err(Refusal::NoRoom(size));
    }
    source_info::write_srci(&Source { sides, rows }, output, size);
    Ok(size)
}
