// The first pass over rows: checks them by the rules of rows, and measures the payload that they would be
// written as (crate sizes). It stores nothing.
//
// Proved: `check_row` gives what the rule of one row says, and `measure` the length of what writing gives or
// its refusal (crate format, specs/Rules.antt and specs/Write.antt), for every payload, edit text and table.
// Nothing is assumed.
#![tactic(auto)]

mod pass;
mod rule;

pub use pass::measure;
pub use rule::check_row;
