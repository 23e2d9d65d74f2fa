// What a section stores, at the place where it goes: the entries that the rows after its own are, or the bytes that its
// own row names.
ghost use Rattle.std.specs.Prelude.{◌≡◌, ◌+◌, length, drop, Some};
ghost use Rattle.std.proofs.lemmas.List.Edits.{sets};
ghost use Rattle.table.specs.Tags.{headers_size};
ghost use Rattle.format.specs.Encoding.{stored_bytes};
ghost use Rattle.write.specs.Section.{entries_of, next_section};
ghost use Rattle.write.specs.Source.{rows, section, MayWrite};

use crate::position::Position;
use crate::run::write_run;
use crate::source::Source;
use table::Tag;

// A section without what stands around its stored bytes: where it starts, where those bytes end, how many entries they
// are, and the index of the row after them.
#[derive(Clone, Copy)]
pub struct Body {
    pub start: u32,
    pub end: u32,
    pub count: u32,
    pub index: usize,
}

// Stores what the section of a tag at a position stores. Inlined, so that each writer has its tag as a constant.
#[inline(always)]
pub fn store_body(source: &Source, tag: Tag, output: &mut [u8], position: Position) -> Body
    requires { MayWrite source.now (Some tag) position }
    ensures start { result.start ≡ position.at }
    ensures end { result.end ≡ position.at + headers_size tag + length (stored_bytes (section source.now position)) }
    ensures count { result.count ≡ entries_of (Some tag) (drop (position.index + 1) (rows source.now)) }
    ensures index { result.index ≡ next_section (rows source.now) position.index }
    ensures output_after { output.new ≡ sets output.old (position.at + headers_size tag) (stored_bytes (section source.now position)) }
{
    let first = position.index + 1;
    let stored = position.at + tag.headers_size();
    match tag.entry_tag() {
        None => {
            let bytes = source.bytes(source.row(position.index));
            wire::write_bytes(output, stored, bytes);
            Body {
                start: position.at as u32,
                end: (stored + bytes.len()) as u32,
                count: 0,
                index: first,
            }
        }
        Some(entry) => {
            let after = write_run(source, entry, first, output, stored);
            Body {
                start: position.at as u32,
                end: after.at as u32,
                count: (after.index - first) as u32,
                index: after.index,
            }
        }
    }
}
