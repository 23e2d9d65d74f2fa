// The first pass over a payload: the port of parse_srci and of what it calls. It checks the payload and
// counts its rows, and stores nothing. Every job begins with it.
//
// Proved: it answers the number of rows or the first fault that the definition of reading gives
// (crate format, specs/Parse.antt), for every byte string. Nothing is assumed.
#![tactic(auto)]

mod arguments;
mod contents;
mod entries;
mod framing;
mod names;
mod padding;
mod part;
mod run;
mod source_info;

pub use source_info::parse_srci;
