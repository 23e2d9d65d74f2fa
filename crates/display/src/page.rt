// A page: its heading, and the lines after it.
ghost use Rattle.std.specs.Prelude.{Option, ◌≡◌, ◌≤◌, length};
ghost use Rattle.std.specs.List.{filter_map};
ghost use Rattle.std.proofs.lemmas.List.Edits.{sets};
ghost use Rattle.format.specs.Display.{heading};
ghost use Rattle.accepted.specs.Sections.{Found, sections};
ghost use Rattle.display.specs.Summary.{page_said};
ghost use Rattle.display.specs.declared.summary.Summary.{Summary as Said};

use crate::line::write_line;
use crate::number::write_number;
use crate::summary::Summary;
use accepted::{CheckedSection, Payload, Sections};

// What a page says of the sections of a payload.
pub trait Page {
    // What it says of a section, if it has a line for it.
    ghost said: { Found → Option Said };

    fn summarize(section: CheckedSection) -> Option<Summary>
        ensures { result ≡ said (record { bytes = section.entry.payload.now; kind = section.entry.kind; at = section.entry.at }) };

    // How many lines that makes.
    fn line_count(payload: Payload) -> u16
        ensures { result ≡ length (filter_map said (sections payload.entry.bytes.now)) };
}

// The first line, of so many sections. Answers its length.
#[tactic(auto, using(crate::proofs::LineLaws::joined), unfolding(format::specs::Display::ascii))]
pub fn write_heading(output: &mut [u8], count: u32) -> usize
    ensures value { result ≡ length (heading count) }
    ensures upper_bound { result ≤ 45 }
    ensures output_after { output.new ≡ sets output.old 0 (heading count) }
{
    wire::write_bytes(output, 0, b"// Shader Source Info: ");
    write_number(output, 23, count, b" section(s)\n")
}

// A page of a payload, from the output's start on, as far as the output goes. Answers its length. A section of
// which nothing is said has no line and no place.
pub fn write_page<P: Page>(payload: Payload, output: &mut [u8]) -> u32
    ensures value { result ≡ length (page_said P.said payload.entry.bytes.now) }
    ensures output_after { output.new ≡ sets output.old 0 (page_said P.said payload.entry.bytes.now) }
{
    let mut to = write_heading(output, P::line_count(payload) as u32);
    let mut place = 0;
    for section in Sections::new(payload) {
        if let Some(summary) = P::summarize(section) {
            to = write_line(output, to as u32, place, summary);
            place += 1;
        }
    }
    to as u32
}
