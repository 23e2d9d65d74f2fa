// A reader over a payload, for the first pass: it keeps the payload and its own place, takes one section after the other by
// its header, and moves on past it.
//
// Proved: what is taken at a place, and where the reader stands afterwards, is what the definition of reading
// gives (crate format, specs/Parse.antt), for every byte string and every place. Nothing is assumed.
#![tactic(auto)]

mod reader;
mod section;

pub use reader::SectionReader;
pub use section::Section;
