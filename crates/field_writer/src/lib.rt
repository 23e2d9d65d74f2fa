// The fields of a sheet's line, stored at a place of a lent output: a tab, and then a number in decimal, bytes in hex
// pairs, or a text with its escapes. Each function answers the place after its field.
//
// Proved: every function is total, and stores and answers just what crate sheet defines (specs/Fields.antt); those that
// another crate can call have no `requires`. What would be stored past the end is dropped. Nothing is assumed.
#![tactic(auto)]

mod hex;
mod text;

ghost use Rattle.std.specs.Prelude.{◌∷◌, ◌≡◌, ◌+◌, length};
ghost use Rattle.std.proofs.lemmas.List.Edits.{sets};
ghost use Rattle.layout.specs.Spans.{part};
ghost use Rattle.format.specs.Display.{decimal};
ghost use Rattle.sheet.specs.Fields.{tab, hex_pairs, escape};

use layout::part_of;
use wire::TextLength;

// A number.
pub fn write_number(output: &mut [u8], at: u32, n: u32) -> usize
    ensures value { result ≡ at + length (tab ∷ decimal n) }
    ensures output_after { output.new ≡ sets output.old at (tab ∷ decimal n) }
{
    let start = at as usize;
    wire::write_bytes(output, start, b"\t");
    let digits = display::write_decimal(output, start + 1, n);
    start + 1 + digits
}

// The `count` bytes from `start` on; fewer where they end before. A count of 32 bits, and not the bytes alone, keeps the place
// after them a number for all that may be passed; the same of a text.
pub fn write_hex(output: &mut [u8], at: u32, bytes: &[u8], start: usize, count: u32) -> usize
    ensures value { result ≡ at + length (tab ∷ hex_pairs (part bytes.now start count)) }
    ensures output_after { output.new ≡ sets output.old at (tab ∷ hex_pairs (part bytes.now start count)) }
{
    let pairs = at as usize + 1;
    wire::write_bytes(output, at as usize, b"\t");
    let part = part_of(bytes, start, count as usize);
    hex::write_pairs(output, pairs, part);
    pairs + 2 * part.len()
}

// The text from `start` on.
pub fn write_text(output: &mut [u8], at: u32, bytes: &[u8], start: usize, text: TextLength) -> usize
    ensures value { result ≡ at + length (tab ∷ escape (part bytes.now start text.0)) }
    ensures output_after { output.new ≡ sets output.old at (tab ∷ escape (part bytes.now start text.0)) }
{
    wire::write_bytes(output, at as usize, b"\t");
    let part = part_of(bytes, start, text.0 as usize);
    text::write_escaped(output, at as usize + 1, part)
}
