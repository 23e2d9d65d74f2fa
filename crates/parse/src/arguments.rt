// Argument sections: names and values, each ended by a NUL.
ghost use Rattle.std.specs.Prelude.{◌≡◌, ℕ, ◌≤◌, ◌<◌, get_or};
ghost use Rattle.format.specs.Parse.{pair_text, pair, pairs, parse_arguments, after_pair};
ghost use Rattle.parse.specs.Outcome.{maybe_text, place_of, counted};

use crate::framing::check_framed;
use crate::part::{Part, SectionPart};
use crate::run::check_run;
use layout::{Refusal, SourceInfoSectionType};
use wire::TextLength;

const START: usize = SourceInfoSectionType::ARGS_START;

// How many bytes are looked at one by one before a text counts as long.
const NEAR: usize = 64;

// The end of the run, from a place on, of plain bytes; in a long run a place inside.
fn plain_end(part: Part, at: usize) -> usize
    requires { at ≤ part.end }
    ensures bounds { (at ≤ result) × (result ≤ part.entry.end) }
    ensures plain { (k : ℕ) → k < result → at ≤ k → (0 < get_or part.entry.payload.now k 0) × (get_or part.entry.payload.now k 0 < 0x80) }
{
    let near = part.end.min(at + NEAR);
    let run = &part.payload[at..near];
    let plain = run.iter().position(|byte| !utf8::is_plain(*byte));
    at + plain.unwrap_or(run.len())
}

// The text from a place on, which ends at the first NUL before `end`, whatever its length and characters.
// It is gone through twice, in blocks.
#[tactic(auto, unfolding(format::specs::Parse::pair_text, layout::specs::Checked::check, layout::specs::Checked::then))]
fn check_any_pair_text(part: Part, at: usize) -> Result<TextLength, Refusal>
    requires { at ≤ part.end }
    ensures { result ≡ maybe_text (pair_text part.entry.payload.now at part.entry.end) }
{
    let count = find::find_nul(&part.payload[at..part.end]).ok_or(Refusal::OpenText)?;
    let stop = at + count;
    validate::validate(&part.payload[at..stop])?;
    Ok(TextLength(count as u32))
}

// The same. Most texts of arguments are short and ASCII, or empty: the NUL of such a one is found, and its
// bytes are seen to be well formed, in one go and without a call.
#[tactic(auto, unfolding(format::specs::Parse::pair_text, layout::specs::Checked::check, layout::specs::Checked::then))]
fn check_pair_text(part: Part, at: usize) -> Result<TextLength, Refusal>
    requires { at ≤ part.end }
    ensures { result ≡ maybe_text (pair_text part.entry.payload.now at part.entry.end) }
{
    let stop = plain_end(part, at);
    if stop < part.end && part.payload[stop] == 0 {
        return Ok(TextLength((stop - at) as u32));
    }
    check_any_pair_text(part, at)
}

// The place after the pair at a place, both of whose texts end before the part's end.
#[tactic(auto, unfolding(format::specs::Parse::pair, layout::specs::Checked::then))]
fn check_pair(part: Part, at: usize) -> Result<usize, Refusal>
    requires { at ≤ part.end }
    ensures { result ≡ place_of after_pair (pair part.entry.payload.now at part.entry.end) }
{
    let name = check_pair_text(part, at)?;
    let start = at + name.wire_size().0;
    let value = check_pair_text(part, start)?;
    Ok(start + value.wire_size().0)
}

// As many pairs as the count says, from `start` on, up to the part's end.
fn check_pairs(part: Part, count: u32, start: usize) -> Result<u32, Refusal>
    requires { start ≤ part.end }
    ensures { result ≡ counted (pairs count part.entry.payload.now start part.entry.end) }
{
    check_run(|at| check_pair(part, at), count, start, part.end)
}

// An arguments section.
#[tactic(auto, unfolding(format::specs::Parse::parse_arguments, layout::specs::Checked::check, layout::specs::Checked::then))]
pub fn parse_arguments(section: SectionPart) -> Result<u32, Refusal>
    ensures { result ≡ counted (parse_arguments section.entry.payload.now section.entry.at section.entry.size) }
{
    let SectionPart { payload, at, size } = section;
    if size < START {
        return Err(Refusal::Short);
    }
    if wire::read_u32(payload, at + 8) != 0 {
        return Err(Refusal::Flag);
    }
    let bytes = wire::read_u32(payload, at + 12);
    check_framed(section, START as u32, bytes)?;
    let start = at + START;
    let end = start + bytes as usize;
    let count = wire::read_u32(payload, at + 16);
    let pairs = check_pairs(Part { payload, end }, count, start)?;
    Ok(1 + pairs)
}
