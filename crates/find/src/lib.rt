// Searches: the first byte that is one of some, the next place of a byte, and the first NUL, at which a text ends.
//
// Proved: the functions that other crates call are total, have no `requires`, and answer just what their
// definitions in specs/ say, `until` of Find.antt, and `first_nul` and `until_nul` of Nul.antt.
#![tactic(auto)]

mod find;
mod nul;

pub use find::{find_any, find_from};
pub use nul::{find_nul, find_nul_from};
