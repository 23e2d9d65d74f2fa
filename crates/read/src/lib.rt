// Reading a payload into rows: the port of parse_srci.
//
// The first pass checks the payload and counts its rows, and stores nothing (crate parse). The second walks
// the checked payload and stores the rows (`fill_srci` and what it calls).
//
// Proved: the answer and the table afterwards are those that crate format defines (specs/Read.antt), for
// every byte string and every table. Nothing is assumed.
#![tactic(auto)]

mod fill;

ghost use Rattle.std.specs.Prelude.{◌≡◌, length};
ghost use Rattle.format.specs.Read.{read_answer, read_table};

use accepted::Payload;
use layout::{Answer, Refusal};
use table::Row;

// Reads a payload into the rows of a lent table, whole, or refuses it and leaves the table as it was.
pub fn read(payload: &[u8], rows: &mut [u32]) -> Answer
    ensures value { result ≡ read_answer payload.now (length rows.old) }
    ensures rows_after { rows.new ≡ read_table payload.now rows.old }
{
    let count = parse::parse_srci(payload)?;
    if Row::count(rows) < count as usize {
        return Err(Refusal::NoRows(count));
    }
    let checked = Payload { bytes: payload };
    fill::fill_srci(checked, rows);
    Ok(count)
}
