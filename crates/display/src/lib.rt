// The pages that a listing and a card are, stored in a lent output: a heading, and a line for each section of which the
// page says something; the line of a refused call; and a number in decimal, and the hexadecimal digit of both cases.
//
// Proved: every function that another crate can call is total, has no `requires`, and stores and answers just what crate
// format defines (specs/Display.antt, specs/Print.antt). What would be stored past the end is dropped. Nothing is assumed.
#![tactic(auto)]

mod line;
mod number;
mod page;
mod summary;

ghost use Rattle.std.specs.Prelude.{◌≡◌, ◌≤◌, length};
ghost use Rattle.std.proofs.lemmas.List.Edits.{sets};
ghost use Rattle.format.specs.Print.{number_line};

use crate::number::write_number;
pub use line::write_line;
pub use number::{hex_digit, write_decimal};
pub use page::{Page, write_heading, write_page};
pub use summary::{Summary, summarize};

// The line of a refused call, with its number. Answers its length.
#[tactic(auto, using(crate::proofs::LineLaws::joined), unfolding(format::specs::Display::ascii))]
pub fn write_refused(output: &mut [u8], number: u32) -> usize
    ensures value { result ≡ length (number_line number) }
    ensures upper_bound { result ≤ 22 }
    ensures output_after { output.new ≡ sets output.old 0 (number_line number) }
{
    wire::write_bytes(output, 0, b"// refused ");
    write_number(output, 11, number, b"\n")
}
