// Prints the listing of the payload that standard input holds, or a line that says why there is none.
//
// The file stdin holds document 01's sample of 76 bytes: the name `a` with content size 5, then the pair `E`,
// `main`. It was put together by hand from the layout; stdout has the three lines that document 01 prints for
// it. tests/programs/run.sh runs the program on every other kind of input.
//
// show_card differs from it in one name: what is longer than a line they share (crate print).
#![tactic(auto)]

use std::io;
use std::io::Write;

fn main(rt: HostRuntime) -> io::Result<()> {
    // a byte more than the program lists, which tells that there are more
    let mut input = [0u8; print::MOST + 1];
    let count = print::read_full(&mut rt.reader(), &mut input)?;
    let mut output = [0u8; print::MOST];
    let size = print::write_listing(&input[..count], &mut output);
    io::writer(&rt).write_all(&output[..size])
}
