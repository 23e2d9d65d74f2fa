// One line of a sheet, without its newline: its check, its tag and its fields.
//
// Proved: every function that another crate can call is total, has no `requires`, and answers just what crate sheet
// defines (specs/Lines.antt). Nothing is assumed.
#![tactic(auto)]

mod bytes;
mod line;
mod number;
mod split_line;
mod text;
mod word;

pub use line::{LineSizes, check_line};
pub use number::read_number;
pub use split_line::SplitLine;
