// The text or bytes of a span: a part of the payload or of the edit text, by its side.
ghost use Rattle.std.specs.Prelude.{◌≡◌};
ghost use Rattle.layout.specs.Spans.{side_of, part, span_bytes};

use crate::span::Span;

// The two sides that a span may lie on. Its side is a number, as a row of the C interface holds it.
#[derive(Clone, Copy)]
pub struct Sides<'a> {
    pub payload: &'a [u8],
    pub edit: &'a [u8],
}

impl<'a> Sides<'a> {
    // All bytes of a side: 0 is the payload, any other the edit text.
    #[inline(always)]
    #[tactic(auto, using(crate::proofs::BySide::sides))]
    pub fn side(self, side: u32) -> &'a [u8]
        ensures { result.now ≡ side_of side self.entry.payload.now self.entry.edit.now }
    {
        if side == 0 { self.payload } else { self.edit }
    }

    // The bytes that a span names; fewer where its side ends before.
    pub fn bytes_of(self, span: Span) -> &'a [u8]
        ensures { result.now ≡ span_bytes self.entry.payload.now self.entry.edit.now span }
    {
        part_of(
            self.side(span.side),
            span.start as usize,
            span.count as usize,
        )
    }
}

// The `count` bytes from `start` on; fewer where the slice ends before.
pub fn part_of(bytes: &[u8], start: usize, count: usize) -> &[u8]
    ensures { result.now ≡ part bytes.now start count }
{
    let rest = bytes.get(start..).unwrap_or(&[]);
    &rest[..count.min(rest.len())]
}
