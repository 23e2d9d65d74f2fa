// What is written: the rows of a table, with the two sides that they name texts and bytes of.
ghost use Rattle.std.specs.Prelude.{◌≡◌, length, get_or};
ghost use Rattle.layout.specs.Spans.{span_bytes};
ghost use Rattle.table.specs.Rows.{rows_of, no_row, bytes_span, text_span, value_span};

use layout::Sides;
use table::Row;

#[derive(Clone, Copy)]
pub struct Source<'a> {
    pub sides: Sides<'a>,
    pub rows: &'a [u32],
}

impl<'a> Source<'a> {
    // How many rows there are.
    pub fn count(&self) -> usize
        ensures { result ≡ length (rows_of self.now.rows.now) }
    {
        Row::count(self.rows)
    }

    pub fn row(&self, index: usize) -> Row
        ensures { result ≡ get_or (rows_of self.now.rows.now) index no_row }
    {
        Row::load(self.rows, index)
    }

    // The text that an entry's row names; of a pair it is the name.
    pub fn text(&self, row: Row) -> &'a [u8]
        ensures { result.now ≡ span_bytes self.now.sides.payload.now self.now.sides.edit.now (text_span row) }
    {
        self.sides.bytes_of(row.text_span())
    }

    // The value that a pair's row names.
    pub fn value(&self, row: Row) -> &'a [u8]
        ensures { result.now ≡ span_bytes self.now.sides.payload.now self.now.sides.edit.now (value_span row) }
    {
        self.sides.bytes_of(row.value_span())
    }

    // The bytes that the row of a packed or an unknown section names.
    pub fn bytes(&self, row: Row) -> &'a [u8]
        ensures { result.now ≡ span_bytes self.now.sides.payload.now self.now.sides.edit.now (bytes_span row) }
    {
        self.sides.bytes_of(row.bytes_span())
    }
}
