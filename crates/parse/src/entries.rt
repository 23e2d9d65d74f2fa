// Entries of names and of plain contents, which differ only in their header.
ghost use Rattle.std.specs.Prelude.{◌≡◌, ◌+◌, ◌-◌, ◌≤◌, length};
ghost use Rattle.wire.specs.Length.{wire_size};
ghost use Rattle.layout.specs.Kinds.{header_size};
ghost use Rattle.format.specs.Parse.{terminated_text, entry, entries, content_row_at, after_entry};
ghost use Rattle.parse.specs.Outcome.{place_of, counted};

use crate::padding::check_zeros;
use crate::part::Part;
use crate::run::check_run;
use layout::{EntryKind, Refusal, check_text};
use wire::{TextLength, WireSize};

// A text at a place, with its terminator and the zeros after it up to `next`.
#[tactic(auto, unfolding(format::specs::Parse::terminated_text, layout::specs::Checked::check, layout::specs::Checked::then))]
fn terminated_utf8(payload: &[u8], at: usize, text: TextLength, next: usize) -> Result<(), Refusal>
    requires text_bound { at + wire_size text.0 ≤ next }
    requires next_in_bounds { next ≤ length payload.now }
    ensures { result ≡ terminated_text payload.now at (wire_size text.0) (next - (at + wire_size text.0)) }
{
    let end = at + text.0 as usize;
    if payload[end] != 0 {
        return Err(Refusal::OpenText);
    }
    check_text(payload, at, text)?;
    let after = at + text.wire_size().0;
    check_zeros(&payload[after..next])
}

// The place after the entry at a place, which ends before the part's end.
#[tactic(auto, unfolding(format::specs::Parse::entry, layout::specs::Checked::check, layout::specs::Checked::then, wire::specs::Padding::aligned))]
fn check_entry(part: Part, kind: EntryKind, at: usize) -> Result<usize, Refusal>
    requires { at ≤ part.end }
    ensures { result ≡ place_of (after_entry (header_size kind) at) (entry (header_size kind) part.entry.payload.now at part.entry.end) }
{
    let Part { payload, end } = part;
    let header = kind.header_size();
    let left = end - at;
    if left < header {
        return Err(Refusal::Short);
    }
    if wire::read_u32(payload, at + 4) != 0 {
        return Err(Refusal::Flag);
    }
    let size = wire::read_u32(payload, at + 8);
    let text = WireSize(size as usize)
        .text_length()
        .ok_or(Refusal::EntrySize)?;
    let aligned = wire::align4(header as u32, size);
    if wire::read_u32(payload, at) as usize != aligned {
        return Err(Refusal::EntrySize);
    }
    if left < aligned {
        return Err(Refusal::EntrySize);
    }
    terminated_utf8(payload, at + header, text, at + aligned)?;
    Ok(at + aligned)
}

// As many entries as the count says, from `start` on, up to the part's end.
pub fn check_entries(part: Part, kind: EntryKind, count: u32, start: usize) -> Result<u32, Refusal>
    requires { start ≤ part.end }
    ensures { result ≡ counted (entries (header_size kind) content_row_at count part.entry.payload.now start part.entry.end) }
{
    check_run(|at| check_entry(part, kind, at), count, start, part.end)
}
