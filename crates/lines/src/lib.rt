// The first pass over the lines of a sheet: checks each, and measures the payload that they would be written as. It
// stores nothing.
//
// Proved: `split_line` takes the first line off, and `measure` gives the length of a sheet's payload or its refusal (crate
// sheet, specs/FromSheet.antt), for every byte string. Nothing is assumed.
#![tactic(auto)]

ghost use Rattle.std.specs.Prelude.{[], ◌≡◌, MatchOption};
ghost use Rattle.sheet.specs.Fields.{newline};
ghost use Rattle.sheet.specs.FromSheet.{from_sheet};
ghost use Rattle.sheet.specs.Lines.{parts, split};
ghost use Rattle.sizes.specs.Measure.{sized};
ghost use Rattle.lines.specs.Measure.{IsFirst};

use layout::Refusal;
use sheet::NEWLINE;
use sizes::Sizes;

// The first line and what follows its newline, if a newline ends it. Searched by `find_from`, which tests a block at once:
// `split` would look at one byte after the other.
pub fn split_line(lines: &[u8]) -> Option<(&[u8], &[u8])>
    ensures { MatchOption result (split newline lines.now ≡ parts lines.now []) (λ p. IsFirst lines.now p.0.now p.1.now) }
{
    let end = find::find_from(lines, NEWLINE, 0);
    if lines.len() <= end {
        return None;
    }
    Some((&lines[..end], &lines[end + 1..]))
}

// The bytes of the payload that a sheet would be written as: how many, or the first fault.
pub fn measure(sheet: &[u8]) -> Result<u32, Refusal>
    ensures { result ≡ sized (from_sheet sheet.now) }
{
    let mut sizes = Sizes::new();
    let mut number: u32 = 1;
    let mut rest = sheet;
    while !rest.is_empty() {
        let (line, after) = split_line(rest).ok_or(Refusal::BadLine(number))?;
        let line = line_reader::check_line(line, sizes.previous, number)?;
        sizes = sizes.advance(Some(line.tag), line.first, line.second);
        // the last number that 32 bits hold is that of all lines after it
        number = number.saturating_add(1);
        rest = after;
    }
    sizes.finish()
}
