// The rows of a table, one after the other.
ghost use Rattle.std.specs.Prelude.{◌≡◌, List, map};
ghost use Rattle.std.specs.Iterator.{YieldsFirst, item_count};
ghost use Rattle.table.specs.Rows.{row_of, rows_of};
ghost use Rattle.table.specs.declared.row.Row as row;

use crate::row::Row;
use std::marker::Model;

// The numbers of the rows that are left. A contract sees the list of those rows.
#[derive(Drop)]
pub struct TableRows<'a> {
    left: &'a [[u32; Row::WIDTH]],
}

impl<'a> Model for TableRows<'a> {
    ghost Value = { List row.Row };

    ghost view = { λ r. map row_of r.left.now };
}

impl<'a> TableRows<'a> {
    // All rows of a table. Numbers past its last whole row are none.
    pub fn new(table: &'a [u32]) -> TableRows<'a>
        ensures { result ≡ rows_of table.now }
    {
        TableRows {
            left: table.as_chunks::<{ Row::WIDTH }>().0,
        }
    }
}

impl<'a> Iterator for TableRows<'a> {
    type Item = Row;

    ghost next_gives = { YieldsFirst (λ left. left) };

    ghost remaining = { item_count (λ left. left) };

    fn next(&mut self) -> Option<Row> {
        let (numbers, left) = self.left.split_first()?;
        self.left = left;
        Some(Row::of_numbers(numbers))
    }
}
