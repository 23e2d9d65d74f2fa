// What an SRCI payload means, and what is promised of it. This crate has no code: specs/ holds the
// definitions that the other crates' contracts name, and proofs/ their laws and the proofs of the promises.
//
// specs/ in document 01's order:
//
//   Layout           Sections (what a payload says), Encoding (its bytes, and the limits), WellFormed (what
//                    sections must be)
//   Rows             Rules (what a row may hold and follow), Resolve (the sections that rows say), Said (what one
//                    row says, places apart), Records (what a row and a line of a sheet both hold, and its sections)
//   Refused calls    Parse (reading, fault by fault), Read, Write, Listing (the jobs with what they are
//                    lent), Output (lent output, whichever job), RefusedCalls (which job has which refusals)
//   Public copy      PublicCopy, PublicFacts, Secrecy (what a holder of the copy can learn),
//                    Card (the listing of the copy)
//   Sample payloads  Samples (the starred ones), Display (the lines of a listing), Print (what a program prints)
//   what follows     Promises (of each job by itself), RoundTrips (of reading and writing together)
//
// Walk, Lines, CopyWalk and CardWalk are no part of the meaning: they say how a pass goes over an accepted payload. Tags and
// rows have code, and are defined in crate table; section kinds, refusals, spans and what a text must be in layout;
// numbers and padding in wire; NULs in find; UTF-8 in utf8.
//
// Proved: each promise of specs/Promises.antt, specs/RoundTrips.antt, specs/Secrecy.antt, specs/Card.antt and
// specs/RefusedCalls.antt, and that the starred samples hold. Nothing is assumed.

#![tactic(auto)]
