// A table of rows: what a row is by its tag, the numbers that it holds, and how a table holds them.
//
// Proved: every function is total, has no `requires`, and gives just what its definition in specs/ says.
#![tactic(auto)]

mod row;
mod table_rows;
mod tag;

pub use row::Row;
pub use table_rows::TableRows;
pub use tag::Tag;
