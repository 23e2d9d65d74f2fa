// Why a call is refused, and what every job answers.
ghost use Rattle.std.specs.Prelude.{◌≡◌};
ghost use Rattle.layout.specs.Refusals.{refusal_number, refusal_second, answer_number, answer_second};

// In the order of their numbers, from 1.
#[derive(Clone, Copy)]
pub enum Refusal {
    // The payload has more than 26,214,400 bytes.
    Oversize,
    // The payload has under 8 bytes, or not a multiple of 4.
    Ragged,
    // The main header's length is wrong, or its flags are set.
    MainHeader,
    // A section's size has no 4 bytes, is under 8 or no multiple of 4, or goes past the end.
    Frame,
    // Flags of a section, a body or an entry are set.
    Flag,
    // A body header or an entry header does not fit.
    Short,
    // A section's size is not what its stored bytes make it.
    BodySize,
    // A padding byte is not 0.
    Padding,
    // An entry's text has no room for its terminator, its aligned size is wrong, or it goes past its bytes.
    EntrySize,
    // A text's terminator is missing.
    OpenText,
    // A text is not UTF-8.
    NotUtf8,
    // A text has a NUL inside.
    InnerNul,
    // Bytes remain after the count.
    Leftover,
    // Compression is neither 0 nor 1.
    Compression,
    // Of a plain section, uncompressed and stored bytes differ.
    Unequal,
    // The row table is too short; this many rows are needed.
    NoRows(u32),
    // A row breaks a rule of rows.
    BadRow,
    // Sections, entry bytes or the payload pass a limit.
    WontFit,
    // The output is too short; this many bytes are needed.
    NoRoom(u32),
    // A line of a sheet is malformed or misplaced; this is its number, from 1.
    BadLine(u32),
}

// What a call answers: how many rows or bytes were stored, or why it is refused.
pub type Answer = Result<u32, Refusal>;

impl Refusal {
    // The numbers stand here one by one, as in the definition that document 01 asks for.
    pub fn number(self) -> u32
        ensures { result ≡ refusal_number self }
    {
        match self {
            Refusal::Oversize => 1,
            Refusal::Ragged => 2,
            Refusal::MainHeader => 3,
            Refusal::Frame => 4,
            Refusal::Flag => 5,
            Refusal::Short => 6,
            Refusal::BodySize => 7,
            Refusal::Padding => 8,
            Refusal::EntrySize => 9,
            Refusal::OpenText => 10,
            Refusal::NotUtf8 => 11,
            Refusal::InnerNul => 12,
            Refusal::Leftover => 13,
            Refusal::Compression => 14,
            Refusal::Unequal => 15,
            Refusal::NoRows(_) => 16,
            Refusal::BadRow => 17,
            Refusal::WontFit => 18,
            Refusal::NoRoom(_) => 19,
            Refusal::BadLine(_) => 20,
        }
    }

    // Rows or bytes that are needed, where that is what was lacking; a line's number; else 0, since C has two numbers.
    pub fn second(self) -> u32
        ensures { result ≡ refusal_second self }
    {
        match self {
            Refusal::NoRows(rows) => rows,
            Refusal::NoRoom(bytes) => bytes,
            Refusal::BadLine(line) => line,
            _ => 0,
        }
    }
}

// 0 for an accepted call, else the refusal's number.
pub fn answer_number(answer: Answer) -> u32
    ensures { result ≡ answer_number answer }
{
    match answer {
        Ok(_) => 0,
        Err(refusal) => refusal.number(),
    }
}

// The rows or bytes stored, or the refusal's second number.
pub fn answer_second(answer: Answer) -> u32
    ensures { result ≡ answer_second answer }
{
    match answer {
        Ok(stored) => stored,
        Err(refusal) => refusal.second(),
    }
}
