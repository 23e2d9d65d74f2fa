// Sections that stay as they are, and names, whose content sizes become those of empty contents.
ghost use Rattle.std.specs.Prelude.{◌≡◌, ◌+◌, ◌≤◌};
ghost use Rattle.std.proofs.lemmas.List.Edits.{sets};
ghost use Rattle.wire.specs.Number.{u32_at};
ghost use Rattle.layout.specs.Spans.{part};
ghost use Rattle.format.specs.Encoding.{limit};
ghost use Rattle.public_copy.specs.Hidden.{span, hidden};

use accepted::{CheckedSection, Names};

// The bytes of a section. Answers the place after them.
pub fn copy_bytes(section: CheckedSection, output: &mut [u8], to: usize) -> usize
    requires { to ≤ limit }
    ensures value { result ≡ to + u32_at section.entry.payload.now section.entry.at }
    ensures output_after { output.new ≡ sets output.old to (part section.entry.payload.now section.entry.at (u32_at section.entry.payload.now section.entry.at)) }
{
    let size = section.size() as usize;
    let bytes = &section.payload[section.at..section.at + size];
    wire::write_bytes(output, to, bytes);
    to + size
}

// The content sizes of entries that were copied to a place.
pub fn hide_sizes(names: Names, output: &mut [u8], mut to: usize)
    requires { to + span names ≤ limit }
    ensures { output.new ≡ hidden output.old to names.entry }
{
    for entry in names {
        wire::write_u32(output, to + 12, 1);
        to += entry.size();
    }
}
