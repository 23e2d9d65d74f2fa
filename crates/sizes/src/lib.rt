// Measures the payload that records would be written as, record by record, from their tags and the lengths of
// what they hold. Rows and the lines of a sheet hold records, each in their way.
//
// Proved: every function is total, and gives just what its definition in specs/ says; those that another crate can call
// have no `requires`. Measuring records in order gives the length of the encoding of their sections, or refuses where
// they are not within the limits (proofs/MeasuredRecords.antt). Nothing is assumed.
#![tactic(auto)]

mod part;
mod sizes;

pub use sizes::Sizes;
