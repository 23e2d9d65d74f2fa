// The lines of sections, stored at a place of the output. Each function answers the place after what it stores. The output and
// the place are passed apart: while a job measures, the output has no bytes and the place goes on all the same, where a cursor
// stops at the output's end. The place has a bound, so that sums fit.
ghost use Rattle.std.specs.Prelude.{◌≡◌, ◌+◌, ◌^◌, ◌≤◌, length};
ghost use Rattle.std.proofs.lemmas.List.Edits.{sets};
ghost use Rattle.format.specs.Display.{line, unknown_line};
ghost use Rattle.display.specs.Summary.{summary_line, records_line};

use crate::number::{write_hex, write_number};
use crate::summary::Summary;

// A line with a name, the number of a section's records, and a text.
#[tactic(auto, using(crate::proofs::LineLaws::records_line_parts), unfolding(format::specs::Display::ascii))]
fn write_records(
    output: &mut [u8],
    at: usize,
    place: u32,
    name: &[u8],
    count: u32,
    text: &[u8],
) -> usize
    requires at_bound { at ≤ 2 ^ 40 }
    requires name_len_bound { length name.now ≤ 20 }
    requires text_len_bound { length text.now ≤ 24 }
    ensures value { result ≡ at + length (records_line place name.now count text.now) }
    ensures upper_bound { result ≤ at + 70 }
    ensures output_after { output.new ≡ sets output.old at (records_line place name.now count text.now) }
{
    wire::write_bytes(output, at, b"//   [");
    let next = write_number(output, at + 6, place, name);
    write_number(output, next, count, text)
}

// The line of a section of an unknown kind.
fn write_unknown(output: &mut [u8], at: usize, place: u32, kind: u16, bytes: u32) -> usize
    requires { at ≤ 2 ^ 40 }
    ensures value { result ≡ at + length (line place (unknown_line kind bytes)) }
    ensures upper_bound { result ≤ at + 128 }
    ensures output_after { output.new ≡ sets output.old at (line place (unknown_line kind bytes)) }
{
    wire::write_bytes(output, at, b"//   [");
    let next = write_number(output, at + 6, place, b"] Unknown(0x");
    write_hex(output, next, kind);
    wire::write_bytes(output, next + 4, b"): ");
    write_number(output, next + 7, bytes, b" bytes\n")
}

// The line of a section that has a place in the listing. Answers the place after it.
#[tactic(auto, using(crate::proofs::LineLaws::whole_lines), unfolding(format::specs::Display::ascii))]
pub fn write_line(output: &mut [u8], at: u32, place: u32, summary: Summary) -> usize
    ensures value { result ≡ at + length (line place (summary_line summary)) }
    ensures upper_bound { result ≤ at + 128 }
    ensures output_after { output.new ≡ sets output.old at (line place (summary_line summary)) }
{
    let at = at as usize;
    match summary {
        Summary::Uncompressed(count) => write_records(
            output,
            at,
            place,
            b"] SourceContents: ",
            count,
            b" uncompressed file(s)\n",
        ),
        Summary::Zlib { count, bytes } => {
            let next = write_records(
                output,
                at,
                place,
                b"] SourceContents: ",
                count,
                b" zlib file(s), ",
            );
            write_number(output, next, bytes, b" bytes\n")
        }
        Summary::SourceNames(count) => write_records(
            output,
            at,
            place,
            b"] SourceNames: ",
            count,
            b" file(s)\n",
        ),
        Summary::Arguments(count) => write_records(
            output,
            at,
            place,
            b"] Arguments: ",
            count,
            b" pair(s)\n",
        ),
        Summary::Unknown { kind, bytes } => write_unknown(output, at, place, kind, bytes),
    }
}
