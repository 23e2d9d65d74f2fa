// A whole public copy: its sections in order, and the main header before them.
ghost use Rattle.std.specs.Prelude.{◌≡◌, ◌+◌, ◌≤◌, length};
ghost use mathlib.Core.List.{flat_map};
ghost use Rattle.std.specs.List.{count_by};
ghost use Rattle.std.proofs.lemmas.List.Edits.{sets};
ghost use Rattle.layout.specs.Kinds.{known};
ghost use Rattle.format.specs.CopyWalk.{section_copy};
ghost use Rattle.format.specs.CopyWalk.{copy as CopyWalk·copy};
ghost use Rattle.format.specs.Encoding.{limit};
ghost use Rattle.format.specs.PublicCopy.{public_copy};
ghost use Rattle.format.proofs.Measured.{copy-by-walk};
ghost use Rattle.accepted.specs.Sections.{sections};
ghost use Rattle.public_copy.specs.Joined.{joined, copied};

use crate::contents::write_contents;
use crate::names::{copy_bytes, hide_sizes};
use accepted::{Body, CheckedSection, Payload, Sections};
use job::Job;
use layout::SourceInfoSectionType;

// What is left of a section. Answers the place after it.
fn copy_section(section: CheckedSection, output: &mut [u8], to: usize) -> usize
    requires { to + length (joined (section_copy section.payload.now section.kind section.at)) ≤ limit }
    ensures value { result ≡ to + length (joined (section_copy section.entry.payload.now section.entry.kind section.entry.at)) }
    ensures output_after { output.new ≡ sets output.old to (joined (section_copy section.entry.payload.now section.entry.kind section.entry.at)) }
{
    match section.body() {
        Body::Contents(_) | Body::Packed => {
            write_contents(output, to, section.compression(), section.content_count())
        }
        Body::Names(names) => {
            let end = copy_bytes(section, output, to);
            hide_sizes(names, output, to + SourceInfoSectionType::NAMES_START);
            end
        }
        Body::Arguments(_) => copy_bytes(section, output, to),
        Body::Unknown(_) => to,
    }
}

// The place after the sections of a copy, and how many they are.
#[derive(Clone, Copy)]
struct Copied {
    end: usize,
    sections: u16,
}

// What is left of a payload's sections, after the main header. They are counted as they are copied: a walk of its own, as
// the card has it, would go over all headers twice more for each call.
fn copy_sections(payload: Payload, output: &mut [u8]) -> Copied
    ensures value { result.end ≡ 8 + length (flat_map copied (sections payload.entry.bytes.now)) }
    ensures upper_bound { result.end ≤ limit }
    ensures sections_value { result.sections ≡ count_by (λ s. known s.kind) (sections payload.entry.bytes.now) }
    ensures output_after { output.new ≡ sets output.old 8 (flat_map copied (sections payload.entry.bytes.now)) }
{
    let mut to = SourceInfoSectionType::MAIN_HEADER_SIZE;
    let mut sections: u16 = 0;
    for section in Sections::new(payload) {
        to = copy_section(section, output, to);
        sections += section.kind.is_known() as u16;
    }
    Copied { end: to, sections }
}

pub struct PublicCopy;

impl Job for PublicCopy {
    ghost made = { public_copy };

    ghost walk = { CopyWalk·copy };

    ghost by_walk = { copy-by-walk };

    fn write(payload: Payload, output: &mut [u8]) -> u32 {
        let Copied { end, sections } = copy_sections(payload, output);
        let size = end as u32;
        frames::close_payload(output, size, sections);
        size
    }
}
