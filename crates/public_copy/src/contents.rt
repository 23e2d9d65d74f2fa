// Contents with nothing in them, stored at a place of the output: what stands around no text and around no stream (crate
// frames). The bound is of what each function stores, as in crate to_sheet, so that no type could hold it.
ghost use mathlib.Core.List.{[], flat_map};
ghost use Rattle.std.specs.Prelude.{◌≡◌, ◌+◌, ◌*◌, ◌≤◌, length, replicate};
ghost use Rattle.std.proofs.lemmas.List.Edits.{sets};
ghost use Rattle.format.specs.Encoding.{limit, content_entry};
ghost use Rattle.format.specs.CopyWalk.{contents_copy};

use layout::{SourceCompression, SourceInfoSectionType};

// The bytes of an empty content: its header, its NUL and the padding.
const EMPTY_SIZE: usize = SourceInfoSectionType::CONTENT_ENTRY_HEADER_SIZE + 4;

// So many empty contents. Answers the place after them. One is closed, and stored so many times: to close each where it
// stands takes 5 ns more, since where it ends is not known to be 12 bytes on. By their number, since places go on past the output's
// end, where it has no more chunks.
fn write_entries(output: &mut [u8], to: u32, count: u32) -> u32
    requires { to + 16 * count ≤ limit }
    ensures value { result ≡ to + 16 * count }
    ensures output_after { output.new ≡ sets output.old to (flat_map content_entry (replicate count [])) }
{
    let mut entry = [0; EMPTY_SIZE];
    frames::close_content(
        &mut entry,
        0,
        SourceInfoSectionType::CONTENT_ENTRY_HEADER_SIZE as u32,
    );
    for done in 0..count {
        let next = to + EMPTY_SIZE as u32 * done;
        wire::write_array::<EMPTY_SIZE>(output, next as usize, entry);
    }
    to + EMPTY_SIZE as u32 * count
}

// What a public copy has for contents of a compression and of so many records. Answers the place after it.
pub fn write_contents(
    output: &mut [u8],
    to: usize,
    compression: SourceCompression,
    count: u32,
) -> usize
    requires { to + length (contents_copy compression count) ≤ limit }
    ensures value { result ≡ to + length (contents_copy compression count) }
    ensures output_after { output.new ≡ sets output.old to (contents_copy compression count) }
{
    let start = to as u32;
    let stored = start + SourceInfoSectionType::CONTENTS_START as u32;
    let end = match compression {
        SourceCompression::None => write_entries(output, stored, count),
        SourceCompression::Zlib => stored,
    };
    frames::close_contents(output, start, end, 0, compression, end - stored, count)
}
