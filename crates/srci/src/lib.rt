// The C entry points: for C and Rust programs, which link libsrci.a.
//
// One function for each exported name, since C calls no generic one. A slice passes as a pointer and a length in
// elements. No function has a `requires`: every byte string and every table may be passed.
#![tactic(auto)]

ghost use Rattle.std.specs.Prelude.{◌≡◌, length};
ghost use Rattle.layout.specs.Refusals.{answer_number, answer_second};
ghost use Rattle.format.specs.Read.{read_answer, read_table};
ghost use Rattle.format.specs.Write.{write_answer, write_output};
ghost use Rattle.format.specs.Listing.{list_answer, list_output};
ghost use Rattle.format.specs.PublicCopy.{copy_answer, copy_output};
ghost use Rattle.format.specs.Card.{card_answer, card_output};
ghost use Rattle.sheet.specs.ToSheet.{to_sheet_answer, to_sheet_output};
ghost use Rattle.sheet.specs.FromSheet.{from_sheet_answer, from_sheet_output};
ghost use Rattle.srci.specs.Secrecy.{Called};

use layout::{Answer, answer_number, answer_second};

// An answer as C has it: 0 with the rows or bytes stored in `second`, or the refusal's number with its second number.
fn tell(answer: Answer, second: &mut u32) -> u32
    ensures value { result ≡ answer_number answer }
    ensures second_after { second.new ≡ answer_second answer }
{
    let told = answer_second(answer);
    *second = told;
    answer_number(answer)
}

// Reads a payload into the rows of a lent table. Answers 0, or the refusal's number. Stores in `second`
// how many rows were stored, or the refusal's second number.
#[unsafe(no_mangle)]
pub extern "C" fn srci_read(payload: &[u8], rows: &mut [u32], second: &mut u32) -> u32
    ensures value { result ≡ answer_number (read_answer payload.now (length rows.old)) }
    ensures rows_after { rows.new ≡ read_table payload.now rows.old }
    ensures second_after { second.new ≡ answer_second (read_answer payload.now (length rows.old)) }
{
    let answer = read::read(payload, rows);
    tell(answer, second)
}

// Writes the rows of a table, over a payload and an edit text, to a lent output. Answers 0, or the refusal's
// number. Stores in `second` how many bytes were stored, or the refusal's second number.
#[unsafe(no_mangle)]
pub extern "C" fn srci_write(
    payload: &[u8],
    edit: &[u8],
    rows: &[u32],
    output: &mut [u8],
    second: &mut u32,
) -> u32
    ensures value { result ≡ answer_number (write_answer payload.now edit.now rows.now (length output.old)) }
    ensures output_after { output.new ≡ write_output payload.now edit.now rows.now output.old }
    ensures second_after { second.new ≡ answer_second (write_answer payload.now edit.now rows.now (length output.old)) }
{
    let answer = write::write(payload, edit, rows, output);
    tell(answer, second)
}

// Lists a payload to a lent output. Answers 0, or the refusal's number. Stores in `second` how many bytes were
// stored, or the refusal's second number.
#[unsafe(no_mangle)]
pub extern "C" fn srci_list(payload: &[u8], output: &mut [u8], second: &mut u32) -> u32
    ensures value { result ≡ answer_number (list_answer payload.now (length output.old)) }
    ensures output_after { output.new ≡ list_output payload.now output.old }
    ensures second_after { second.new ≡ answer_second (list_answer payload.now (length output.old)) }
{
    let answer = listing::list(payload, output);
    tell(answer, second)
}

// Writes the public copy of a payload to a lent output. Answers 0, or the refusal's number. Stores in `second` how
// many bytes were stored, or the refusal's second number. The last clause is the other three in one, for
// `CallsTellFacts` (specs/Secrecy.antt), which says what the call tells of a payload.
#[unsafe(no_mangle)]
pub extern "C" fn srci_public_copy(payload: &[u8], output: &mut [u8], second: &mut u32) -> u32
    ensures value { result ≡ answer_number (copy_answer payload.now (length output.old)) }
    ensures output_after { output.new ≡ copy_output payload.now output.old }
    ensures second_after { second.new ≡ answer_second (copy_answer payload.now (length output.old)) }
    ensures called { Called copy_answer copy_output payload.now output.old result output.new second.new }
{
    let answer = public_copy::public_copy(payload, output);
    tell(answer, second)
}

// Writes the card of a payload, which is the listing of its public copy, to a lent output. Answers 0, or the refusal's
// number. Stores in `second` how many bytes were stored, or the refusal's second number. The last clause is for
// `CardsTellFacts` (specs/Secrecy.antt).
#[unsafe(no_mangle)]
pub extern "C" fn srci_card(payload: &[u8], output: &mut [u8], second: &mut u32) -> u32
    ensures value { result ≡ answer_number (card_answer payload.now (length output.old)) }
    ensures output_after { output.new ≡ card_output payload.now output.old }
    ensures second_after { second.new ≡ answer_second (card_answer payload.now (length output.old)) }
    ensures called { Called card_answer card_output payload.now output.old result output.new second.new }
{
    let answer = card::card(payload, output);
    tell(answer, second)
}

// Writes the sheet of a payload to a lent output. Answers 0, or the refusal's number. Stores in `second` how many bytes
// were stored, or the refusal's second number.
#[unsafe(no_mangle)]
pub extern "C" fn srci_to_sheet(payload: &[u8], output: &mut [u8], second: &mut u32) -> u32
    ensures value { result ≡ answer_number (to_sheet_answer payload.now (length output.old)) }
    ensures output_after { output.new ≡ to_sheet_output payload.now output.old }
    ensures second_after { second.new ≡ answer_second (to_sheet_answer payload.now (length output.old)) }
{
    let answer = to_sheet::to_sheet(payload, output);
    tell(answer, second)
}

// Makes the payload of a sheet in a lent output. Answers 0, or the refusal's number. Stores in `second` how many bytes
// were stored, or the refusal's second number.
#[unsafe(no_mangle)]
pub extern "C" fn srci_from_sheet(sheet: &[u8], output: &mut [u8], second: &mut u32) -> u32
    ensures value { result ≡ answer_number (from_sheet_answer sheet.now (length output.old)) }
    ensures output_after { output.new ≡ from_sheet_output sheet.now output.old }
    ensures second_after { second.new ≡ answer_second (from_sheet_answer sheet.now (length output.old)) }
{
    let answer = from_sheet::from_sheet(sheet, output);
    tell(answer, second)
}
