// What stands around the text of an entry: its header before it, its NUL and padding after it.
ghost use Rattle.std.specs.Prelude.{[], ◌∷◌, ◌≡◌, ◌+◌, ◌-◌};
ghost use Rattle.std.proofs.lemmas.List.Edits.{sets};
ghost use Rattle.wire.specs.Padding.{aligned};
ghost use Rattle.layout.specs.Kinds.{header_size};
ghost use Rattle.format.specs.Encoding.{u32};
ghost use Rattle.frames.specs.Frame.{entry_framed};

use layout::EntryKind;

// Closes an entry that stands at `start` and whose text ends at `end`: stores what its header begins with, and zeros from
// `end` on. Answers the place after it.
#[tactic(auto, using(wire::proofs::PaddingLaws::padding_bounds), unfolding(wire::specs::Padding::aligned))]
fn close_entry(output: &mut [u8], start: u32, kind: EntryKind, end: u32) -> usize
    ensures value { result ≡ start + aligned (end - start + 1) }
    ensures output_after { output.new ≡ entry_framed output.old start (header_size kind) end }
{
    let at = start as usize;
    let length = (end as usize).saturating_sub(at) + 1;
    let text = (end as usize).saturating_sub(at + kind.header_size()) + 1;
    let zeros = wire::padding_length(length);
    wire::write_u32(output, at, ((length + zeros) % 0x1_0000_0000) as u32);
    wire::write_u32(output, at + 4, 0);
    wire::write_u32(output, at + 8, (text % 0x1_0000_0000) as u32);
    wire::write_zeros(output, end as usize, 1 + zeros);
    at + (length + zeros)
}

// Closes a content.
pub fn close_content(output: &mut [u8], start: u32, end: u32) -> usize
    ensures value { result ≡ start + aligned (end - start + 1) }
    ensures output_after { output.new ≡ entry_framed output.old start 12 end }
{
    close_entry(output, start, EntryKind::Content, end)
}

// Closes a name, with its content's size.
pub fn close_name(output: &mut [u8], start: u32, end: u32, content_size: u32) -> usize
    ensures value { result ≡ start + aligned (end - start + 1) }
    ensures output_after { output.new ≡ entry_framed (sets output.old (start + 12) (u32 content_size)) start 16 end }
{
    wire::write_u32(output, start as usize + 12, content_size);
    close_entry(output, start, EntryKind::Name, end)
}

// Closes a name or a value of a pair, which has a NUL alone.
pub fn close_text(output: &mut [u8], end: u32) -> usize
    ensures value { result ≡ end + 1 }
    ensures output_after { output.new ≡ sets output.old end (0 ∷ []) }
{
    wire::write_zeros(output, end as usize, 1);
    end as usize + 1
}
