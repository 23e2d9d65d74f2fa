// Prints the card of the payload that standard input holds, or a line that says why there is none.
//
// The file stdin holds packed contents of two files, an unknown section, two names and two pairs of arguments.
// It was put together from the layout (tests/programs/cases.py). The file stdout has what the published Rust prints of the
// public copy that it writes of this payload: three sections, and no size of the packed contents.
// tests/programs/run.sh runs the program on every other kind of input.
//
// list_payload differs from it in one name: what is longer than a line they share (crate print).
#![tactic(auto)]

use std::io;
use std::io::Write;

fn main(rt: HostRuntime) -> io::Result<()> {
    // a byte more than the program reads a card from, which tells that there are more
    let mut input = [0u8; print::MOST + 1];
    let count = print::read_full(&mut rt.reader(), &mut input)?;
    let mut output = [0u8; print::MOST];
    let size = print::write_card(&input[..count], &mut output);
    io::writer(&rt).write_all(&output[..size])
}
