// What the SRCI layout is made of: little-endian numbers, padding to a multiple of 4, runs of zeros,
// and the two ways to measure a text. srci.rs has the readers under the same names.
//
// Proved: every function that another crate can call is total, has no `requires`, and answers or stores just what its
// definition in specs/ says. Bytes past the end of a slice read as 0, and what would be stored past the end is dropped.
#![tactic(auto)]

mod bytes;
mod length;
mod number;
mod padding;

pub use bytes::write_bytes;
pub use length::{TextLength, WireSize};
pub use number::{read_u16, read_u32, write_array, write_u16, write_u32};
pub use padding::{align4, padding_length, write_zeros, zeros};
