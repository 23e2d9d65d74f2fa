// What the programs list_payload and show_card print: each a function of the bytes that the program read. And how a
// program reads: into a buffer, as far as that goes.
//
// Proved: what is stored, and how many bytes, is what crate format defines for every input (specs/Print.antt,
// specs/Card.antt). Nothing is assumed.
#![tactic(auto)]

ghost use Rattle.std.specs.Prelude.{◌++◌, ◌≡◌, ◌≤◌, ◌<◌, IfOk, length, take, drop};
ghost use Rattle.std.specs.Io.KnownBytes.{Consumes, IsAtEnd};
ghost use Rattle.std.proofs.lemmas.List.Edits.{sets};
ghost use Rattle.format.specs.Card.{card_printed};
ghost use Rattle.format.specs.Print.{longer_line, list_printed, printed, told_length, told};

use card::Card;
use job::Job;
use layout::Answer;
use listing::Listing;
use std::io;
use std::io::Read;

// The most bytes that a program reads, and prints of a job's outcome.
pub const MOST: usize = 65536;

// The line of an input that is longer than a program reads. Answers its length.
#[tactic(auto, unfolding(format::specs::Display::ascii))]
fn write_longer(output: &mut [u8]) -> usize
    ensures value { result ≡ length longer_line }
    ensures output_after { output.new ≡ sets output.old 0 longer_line }
{
    let line = b"// longer than 65536 bytes\n";
    wire::write_bytes(output, 0, line);
    line.len()
}

// What is printed of an answer, over what its call left. Answers how many bytes that is.
#[tactic(auto, unfolding(format::specs::Print::told, format::specs::Print::told_length))]
fn write_answer(answer: Answer, output: &mut [u8]) -> usize
    ensures value { result ≡ told_length answer }
    ensures output_after { output.new ≡ told answer output.old }
{
    match answer {
        Ok(size) => size as usize,
        Err(refusal) => display::write_refused(output, refusal.number()),
    }
}

// Stores what is printed of a job over these bytes, and answers how many bytes that is. An input that is longer than a
// program reads may be cut off after one byte more.
fn write_printed<J: Job>(input: &[u8], output: &mut [u8; MOST]) -> usize
    ensures value { result ≡ length (printed J.made input.now) }
    ensures output_after { output.new ≡ printed J.made input.now ++ drop (length (printed J.made input.now)) output.old }
{
    if MOST < input.len() {
        return write_longer(output);
    }
    let answer = job::run::<J>(input, output);
    write_answer(answer, output)
}

// What list_payload prints. A function for each program, whose contract names what that program prints.
pub fn write_listing(input: &[u8], output: &mut [u8; MOST]) -> usize
    ensures value { result ≡ length (list_printed input.now) }
    ensures output_after { output.new ≡ list_printed input.now ++ drop (length (list_printed input.now)) output.old }
{
    write_printed::<Listing>(input, output)
}

// What show_card prints.
pub fn write_card(input: &[u8], output: &mut [u8; MOST]) -> usize
    ensures value { result ≡ length (card_printed input.now) }
    ensures output_after { output.new ≡ card_printed input.now ++ drop (length (card_printed input.now)) output.old }
{
    write_printed::<Card>(input, output)
}

// Reads until the input ends or the buffer is full, and answers how many bytes were read. The library's methods that
// read to the end need a heap.
pub fn read_full<R: Read>(input: &mut R, buffer: &mut [u8]) -> io::Result<usize>
    ensures bound { IfOk result (λ n. n ≤ length buffer.new) }
    ensures bytes { IfOk result (λ n. Consumes (R.remaining input.old) (R.remaining input.new) (take n buffer.new)) }
    ensures at_end { IfOk result (λ n. n < length buffer.new → IsAtEnd (R.remaining input.new)) }
{
    let mut count = 0;
    while count < buffer.len() {
        let read = input.read(&mut buffer[count..])?;
        if read == 0 {
            return Ok(count);
        }
        count += read;
    }
    Ok(count)
}
