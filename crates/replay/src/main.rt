// Replays the calls that data/calls.txt holds, of every job, and prints what each answers.
//
// A line of data/calls.txt is a call: its job, and then what the job is given, parted by spaces, with bytes in
// hexadecimal digits. A line of the output is the answer: the number, the second number, and what is said here.
// - `read LENT PAYLOAD`: how many numbers are lent, and the payload. Answered: how many numbers of the table
//   were left as they were, and the numbers of the stored rows.
// - `write LENT PAYLOAD EDIT ROWS`: how many bytes are lent, the payload, the edit text, and the numbers of
//   the rows with commas between; `-` is none. Answered: how many bytes of the output were left as they were,
//   and the stored bytes.
// - `list LENT PAYLOAD`, `public_copy LENT PAYLOAD`, `card LENT PAYLOAD`, `to_sheet LENT PAYLOAD` and
//   `from_sheet LENT SHEET`: how many bytes are lent, and the payload or the sheet. Answered as a call of writing is.
// The table has 128 numbers and the output 512 bytes, of which a call is lent the first ones, so that a store
// past those would show.
//
// No expected line was made by this library. tests/replay/make.py wrote data/calls.txt and stdout from lists
// of calls with their answers. Of reading:
// - 360 calls worked out by an independent model of document 01, with 20 for each refusal from 2 to 16;
// - document 01's samples of reading (tests/replay/samples.tsv);
// - 300 calls whose rows the published Rust gave (tests/oracle/rows.rs), each payload with a table that is
//   exactly full, one that is longer, and one that is a number short.
// Of writing: 175 calls worked out by that model, 75 that are accepted and 25 for each of the refusals 11, 12,
// 17 and 19.
// Of listing:
// - 108 calls worked out by that model;
// - document 01's sample of listing (tests/replay/list_samples.tsv), with three outputs;
// - 100 calls whose text the published Rust gave (tests/oracle/rows.rs), each payload with an output that is
//   exactly full, one that is longer, one that is a byte short, and none.
// Of making public copies:
// - 108 calls worked out by that model;
// - 100 calls whose copy the published Rust wrote (tests/oracle/rows.rs), with outputs as for those of listing.
// Of making cards:
// - 42 calls with payloads that the model refuses to copy, three for each refusal from 2 to 15;
// - 60 calls whose card the published Rust printed of the copy that it wrote (tests/oracle/rows.rs), with outputs
//   as for those of listing.
// Of making sheets: 119 calls worked out by an independent model of request (a) of document 02. Of making payloads of
// sheets: 120 calls worked out by that model.
#![tactic(auto)]

ghost use Rattle.std.specs.Prelude.{◌≡◌, ◌≤◌, length, IfSome};

use layout::{Answer, answer_number, answer_second};
use std::io::Write;
use std::{fs, io};
use table::Row;

// Buffers are of fixed sizes, since the project has no heap.
const NUMBERS: usize = 128;

const BYTES: usize = 512;

// The most bytes that a call is given.
const BUFFER: usize = 4096;

// What every number of the table, and every byte of the output, holds before a call.
const UNTOUCHED: u32 = 2_779_096_485;

const UNTOUCHED_BYTE: u8 = 165;

// The value of a hexadecimal digit, and 0 for any other byte. Digits are read here by rules of the program's own, which take any
// text: those of sheets are read where a line was checked.
fn digit(byte: u8) -> u8
    ensures { result ≤ 15 }
{
    match byte {
        b'0'..=b'9' => byte - b'0',
        b'a'..=b'f' => byte - b'a' + 10,
        _ => 0,
    }
}

// What stands before the first space, and what stands after it; None where there is none.
fn split_word(text: &[u8]) -> Option<(&[u8], &[u8])> {
    let space = text.iter().position(|byte| *byte == b' ')?;
    Some((&text[..space], &text[space + 1..]))
}

// The number that decimal digits spell; no more of them are looked at once it has ten.
fn number(text: &[u8]) -> usize {
    let mut value: usize = 0;
    for byte in text {
        if 999_999_999 < value {
            break;
        }
        value = value * 10 + digit(*byte) as usize;
    }
    value
}

// Puts the numbers that stand between commas at the start of out, as far as both go, and answers how many
// they are, which is known after the last comma alone.
fn decode_numbers(text: &[u8], out: &mut [u32]) -> usize
    ensures { result ≤ length out.new }
{
    if text == b"-".as_slice() {
        return 0;
    }
    let mut count = 0;
    for field in text.split_inclusive(|byte| *byte == b',') {
        if count == out.len() {
            break;
        }
        let digits = field.strip_suffix(b",".as_slice()).unwrap_or(field);
        out[count] = u32::try_from(number(digits)).unwrap_or(u32::MAX);
        count += 1;
    }
    count
}

// Puts the bytes that hexadecimal digits spell at the start of out, as far as both go, and answers how
// many they are.
fn decode(text: &[u8], out: &mut [u8]) -> usize
    ensures { result ≤ length out.new }
{
    let pairs = text.chunks_exact(2);
    let count = pairs.len().min(out.len());
    for (byte, pair) in out.iter_mut().zip(pairs) {
        *byte = digit(pair[0]) * 16 + digit(pair[1]);
    }
    count
}

// Each with a space before it.
fn print_numbers<W: Write>(out: &mut W, numbers: &[u32]) -> io::Result<()> {
    for number in numbers {
        write!(out, " {number}")?;
    }
    Ok(())
}

fn print_bytes<W: Write>(out: &mut W, bytes: &[u8]) -> io::Result<()> {
    for byte in bytes {
        write!(out, "{byte:02x}")?;
    }
    Ok(())
}

// How many items are as they were before a call.
fn untouched<T: PartialEq + Copy>(items: &[T], before: T) -> usize {
    items.iter().filter(|item| **item == before).count()
}

// How many rows or bytes are stored, and 0 where an answer has more than there is room for.
fn stored(answer: Answer, most: usize) -> usize
    ensures { result ≤ most }
{
    match answer {
        Ok(count) if count as usize <= most => count as usize,
        _ => 0,
    }
}

// The two numbers of an answer, and how many items of the lent ones are left as they were.
fn print_answer<W: Write>(out: &mut W, answer: Answer, left: usize) -> io::Result<()> {
    let number = answer_number(answer);
    let second = answer_second(answer);
    write!(out, "{number} {second} {left}")
}

// The answer of a call that was lent the first bytes of an output, and the bytes that it stored.
fn print_made<W: Write>(out: &mut W, answer: Answer, output: &[u8; BYTES]) -> io::Result<()> {
    let (bytes, rest) = output.split_at(stored(answer, BYTES));
    print_answer(out, answer, untouched(rest, UNTOUCHED_BYTE))?;
    out.write_all(b" ")?;
    print_bytes(out, bytes)?;
    out.write_all(b"\n")
}

// How many items a call is lent, at most so many, and what else it is given.
fn split_lent(fields: &[u8], most: usize) -> Option<(usize, &[u8])>
    ensures { IfSome result (λ r. r.0 ≤ most) }
{
    let (digits, rest) = split_word(fields)?;
    let lent = number(digits);
    (lent <= most).then_some((lent, rest))
}

// A call of reading, as data/calls.txt has it. Anything else prints nothing.
fn replay_read<W: Write>(out: &mut W, fields: &[u8]) -> io::Result<()> {
    let Some((lent, digits)) = split_lent(fields, NUMBERS) else {
        return Ok(());
    };
    let mut payload = [0u8; BUFFER];
    let count = decode(digits, &mut payload);
    let mut table = [UNTOUCHED; NUMBERS];
    let answer = read::read(&payload[..count], &mut table[..lent]);
    let (numbers, rest) = table.split_at(stored(answer, NUMBERS / Row::WIDTH) * Row::WIDTH);
    print_answer(out, answer, untouched(rest, UNTOUCHED))?;
    print_numbers(out, numbers)?;
    out.write_all(b"\n")
}

// How many bytes a call of writing is lent, and the digits of its payload, of its edit text and of its rows.
fn split_write(fields: &[u8]) -> Option<(usize, &[u8], &[u8], &[u8])>
    ensures { IfSome result (λ r. r.0 ≤ BYTES) }
{
    let (lent, fields) = split_lent(fields, BYTES)?;
    let (payload, fields) = split_word(fields)?;
    let (edit, rows) = split_word(fields)?;
    Some((lent, payload, edit, rows))
}

// A call of writing. Anything else prints nothing.
fn replay_write<W: Write>(out: &mut W, fields: &[u8]) -> io::Result<()> {
    let Some((lent, payload_digits, edit_digits, row_digits)) = split_write(fields) else {
        return Ok(());
    };
    let mut payload = [0u8; BUFFER];
    let bytes = decode(payload_digits, &mut payload);
    let mut edit = [0u8; BUFFER];
    let edits = decode(edit_digits, &mut edit);
    let mut rows = [0u32; NUMBERS];
    let numbers = decode_numbers(row_digits, &mut rows);
    let mut output = [UNTOUCHED_BYTE; BYTES];
    let answer = write::write(
        &payload[..bytes],
        &edit[..edits],
        &rows[..numbers],
        &mut output[..lent],
    );
    print_made(out, answer, &output)
}

// A call of a job that takes an input, which is a payload or a sheet, and an output. Anything else prints nothing.
fn replay_made<W: Write, F: Fn(&[u8], &mut [u8]) -> Answer>(
    out: &mut W,
    make: F,
    fields: &[u8],
) -> io::Result<()>
    requires { F.IsAlwaysCallable make }
{
    let Some((lent, digits)) = split_lent(fields, BYTES) else {
        return Ok(());
    };
    let mut input = [0u8; BUFFER];
    let count = decode(digits, &mut input);
    let mut output = [UNTOUCHED_BYTE; BYTES];
    let answer = make(&input[..count], &mut output[..lent]);
    print_made(out, answer, &output)
}

// A call of the job that the line begins with. A line that names no job prints nothing.
fn replay_line<W: Write>(out: &mut W, line: &[u8]) -> io::Result<()> {
    let Some((word, fields)) = split_word(line) else {
        return Ok(());
    };
    match word {
        b"read" => replay_read(out, fields),
        b"write" => replay_write(out, fields),
        b"list" => replay_made(out, listing::list, fields),
        b"public_copy" => replay_made(out, public_copy::public_copy, fields),
        b"card" => replay_made(out, card::card, fields),
        b"to_sheet" => replay_made(out, to_sheet::to_sheet, fields),
        b"from_sheet" => replay_made(out, from_sheet::from_sheet, fields),
        _ => Ok(()),
    }
}

fn replay_all<W: Write>(out: &mut W, calls: &[u8]) -> io::Result<()> {
    for call in calls.split(|byte| *byte == b'\n') {
        replay_line(out, call)?;
    }
    Ok(())
}

// So many zeros. A function, so that the proof of `main` has their number alone, and not half a million of them.
fn zeros<const N: usize>() -> [u8; N]
    ensures { length result ≡ N }
{
    [0; N]
}

fn main(rt: HostRuntime) -> io::Result<()> {
    let mut file = fs::open(&rt, "calls.txt")?;
    let mut calls = zeros::<524288>();
    let count = print::read_full(&mut file, &mut calls)?;
    replay_all(&mut io::writer(&rt), &calls[..count])
}
