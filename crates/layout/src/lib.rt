// What the SRCI layout has that needs code of its own: section kinds, compression, header sizes, kinds of entries, refusals, the
// text or bytes of a span, and what a text must be.
//
// Proved: every function is total, has no `requires`, and gives just what its definition in specs/ says.
#![tactic(auto)]

mod compression;
mod entry_kind;
mod refusal;
mod section_type;
mod span;
mod text;
mod text_check;

// The most bytes that a payload holds: an attachment's limit.
pub const PAYLOAD_LIMIT: usize = 26_214_400;

pub use compression::SourceCompression;
pub use entry_kind::EntryKind;
pub use refusal::{Answer, Refusal, answer_number, answer_second};
pub use section_type::SourceInfoSectionType;
pub use span::Span;
pub use text::{Sides, part_of};
pub use text_check::{check_text, check_whole};
