// A row of a table: seven numbers. Only here is it said how many they are, by `WIDTH`, and which of them is which; and only here is
// the row of a tag made.
ghost use Rattle.std.specs.Prelude.{◌≡◌, length, get_or};
ghost use Rattle.layout.specs.Spans.{span};
ghost use Rattle.table.specs.Rows.{row_of, rows_of, are_whole, no_row, store_row, bytes_span, text_span, value_span, plain_row, packed_row, names_row, arguments_row, unknown_row, content_row, name_row, pair_row};

use crate::tag::Tag;
use layout::Span;
use wire::TextLength;

// All seven are numbers, the tag and the side too: through the C interface a caller may store any, and a row of no tag or of no
// side is refused in its turn, by the rules of rows.
#[derive(Clone, Copy)]
pub struct Row {
    // What the row is, by the number of its tag.
    pub tag: u32,
    // Where its texts and bytes are: 0 in the payload, 1 in the edit text.
    pub side: u32,
    pub a: u32,
    pub b: u32,
    pub c: u32,
    pub d: u32,
    pub e: u32,
}

impl Row {
    // How many numbers of a table make a row.
    pub const WIDTH: usize = 7;

    // The row that stands for one that a table does not hold.
    const ZERO: Row = Row {
        tag: 0,
        side: 0,
        a: 0,
        b: 0,
        c: 0,
        d: 0,
        e: 0,
    };

    // The row of its seven numbers. No `From`, which other crates would see.
    #[inline(always)]
    pub(crate) fn of_numbers(numbers: &[u32; Row::WIDTH]) -> Row
        ensures { result ≡ row_of numbers.now }
    {
        let [tag, side, a, b, c, d, e] = *numbers;
        Row {
            tag,
            side,
            a,
            b,
            c,
            d,
            e,
        }
    }

    // How many rows a table holds. Numbers past its last whole row are none.
    #[tactic(auto, using(crate::proofs::Rows::rows_counted))]
    pub fn count(table: &[u32]) -> usize
        ensures { result ≡ length (rows_of table.now) }
    {
        table.len() / Row::WIDTH
    }

    // Whether a table holds whole rows and no numbers past them.
    pub fn are_whole(table: &[u32]) -> bool
        ensures { result ≡ are_whole table.now }
    {
        table.len() % Row::WIDTH == 0
    }

    // The row at an index of a table, all zeros where the table does not hold it whole.
    pub fn load(table: &[u32], index: usize) -> Row
        ensures { result ≡ get_or (rows_of table.now) index no_row }
    {
        match table.as_chunks::<{ Row::WIDTH }>().0.get(index) {
            Some(numbers) => Row::of_numbers(numbers),
            None => Row::ZERO,
        }
    }

    // Stores the row at an index of a table; a table that does not hold that index whole stays as it is. Number by number: tried
    // as one copy of an array, which goes through memory and takes 3 ns more for each row.
    #[tactic(auto, unfolding(crate::specs::Rows::store_row))]
    pub fn store(self, table: &mut [u32], index: usize)
        ensures { table.new ≡ store_row table.old index self }
    {
        if index < table.len() / Row::WIDTH {
            let at = index * Row::WIDTH;
            table[at] = self.tag;
            table[at + 1] = self.side;
            table[at + 2] = self.a;
            table[at + 3] = self.b;
            table[at + 4] = self.c;
            table[at + 5] = self.d;
            table[at + 6] = self.e;
        }
    }

    // ---- The spans that a row names, all on its side.

    #[inline(always)]
    fn span(self, start: u32, count: u32) -> Span
        ensures { result ≡ span self.side start count }
    {
        Span {
            side: self.side,
            start,
            count,
        }
    }

    // The bytes of a packed or an unknown section.
    #[inline(always)]
    pub fn bytes_span(self) -> Span
        ensures { result ≡ bytes_span self }
    {
        self.span(self.b, self.c)
    }

    // The text of a content or a name, or the name of a pair.
    #[inline(always)]
    pub fn text_span(self) -> Span
        ensures { result ≡ text_span self }
    {
        self.span(self.a, self.b)
    }

    // The value of a pair.
    #[inline(always)]
    pub fn value_span(self) -> Span
        ensures { result ≡ value_span self }
    {
        self.span(self.c, self.d)
    }

    // ---- The row of each tag, as reading stores it: its texts and bytes are in the payload.

    pub fn plain_contents(field: u32) -> Row
        ensures { result ≡ plain_row field }
    {
        Row {
            tag: Tag::PlainContents.to_u32(),
            a: field,
            ..Row::ZERO
        }
    }

    pub fn packed_contents(
        field: u32,
        start: u32,
        length: u32,
        count: u32,
        uncompressed: u32,
    ) -> Row
        ensures { result ≡ packed_row field (span 0 start length) count uncompressed }
    {
        Row {
            tag: Tag::PackedContents.to_u32(),
            side: 0,
            a: field,
            b: start,
            c: length,
            d: count,
            e: uncompressed,
        }
    }

    pub fn names() -> Row
        ensures { result ≡ names_row }
    {
        Row {
            tag: Tag::Names.to_u32(),
            ..Row::ZERO
        }
    }

    pub fn arguments() -> Row
        ensures { result ≡ arguments_row }
    {
        Row {
            tag: Tag::Arguments.to_u32(),
            ..Row::ZERO
        }
    }

    pub fn unknown(kind: u16, start: u32, length: u32) -> Row
        ensures { result ≡ unknown_row kind (span 0 start length) }
    {
        Row {
            tag: Tag::Unknown.to_u32(),
            a: kind as u32,
            b: start,
            c: length,
            ..Row::ZERO
        }
    }

    pub fn content(start: u32, text: TextLength) -> Row
        ensures { result ≡ content_row (span 0 start text.0) }
    {
        Row {
            tag: Tag::Content.to_u32(),
            a: start,
            b: text.0,
            ..Row::ZERO
        }
    }

    pub fn name(start: u32, text: TextLength, content_size: u32) -> Row
        ensures { result ≡ name_row (span 0 start text.0) content_size }
    {
        Row {
            tag: Tag::Name.to_u32(),
            a: start,
            b: text.0,
            c: content_size,
            ..Row::ZERO
        }
    }

    pub fn pair(start: u32, name: TextLength, value_start: u32, value: TextLength) -> Row
        ensures { result ≡ pair_row (span 0 start name.0) (span 0 value_start value.0) }
    {
        Row {
            tag: Tag::Pair.to_u32(),
            a: start,
            b: name.0,
            c: value_start,
            d: value.0,
            ..Row::ZERO
        }
    }
}
