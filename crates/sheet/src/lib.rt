// A sheet: a payload as lines of text, which a moderator can edit. This crate has no code but three constants: specs/ holds the
// definitions that the contracts of the crates of sheets name (field_writer, to_sheet, line_reader, lines, from_sheet), and
// the promises; proofs/ proves them.
//
// specs/:
//
//   Fields    numbers, bytes and texts, each as it is shown and as it is read
//   Lines     a record as a line, and a line as a record
//   ToSheet   the sheet of a payload: the lines of its sections
//   FromSheet the payload of a sheet: the sections of its lines, encoded
//   SheetWalk the sheet of a payload as a walk over its bytes, which the code follows
//   Samples   calls with their answers
//   Promises  what follows: out and back, one sheet only, the first faulty line decides
//
// Proved: each promise of specs/Promises.antt, and that the samples hold. Nothing is assumed.

#![tactic(auto)]

// What parts the fields of a line, what closes a line, and what begins an escape.
pub const TAB: u8 = b'\t';

pub const NEWLINE: u8 = b'\n';

pub const BACKSLASH: u8 = b'\\';
