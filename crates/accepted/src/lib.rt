// A payload that the first pass accepted, for the passes after it: an iterator over its sections, what each holds, by its
// kind, and iterators over its entries and its pairs, each with what is known of it. Nothing is tested again.
//
// Proved: the iterators give the sections, the entries and the pairs of the walk over an accepted payload (crate format,
// specs/Walk.antt), all of them, each of which is good; and what a section's or an entry's headers say is read where the
// definition has it. Nothing is assumed.
#![tactic(auto)]

mod body;
mod checked_section;
mod entries;
mod pairs;
mod payload;
mod sections;

pub use body::Body;
pub use checked_section::CheckedSection;
pub use entries::{Content, Contents, Entries, Entry, Name, Names};
pub use pairs::{Pair, Pairs};
pub use payload::Payload;
pub use sections::{Sections, known_sections};
