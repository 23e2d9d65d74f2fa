// A span: a text or bytes that a row names.

// All three are numbers of the C interface, so a span may lie past its side's end, and its side may be none.
#[derive(Clone, Copy)]
pub struct Span {
    // 0 is the payload, any other the edit text.
    pub side: u32,
    // The place of the first byte.
    pub start: u32,
    // How many bytes; of a text its terminator is not counted.
    pub count: u32,
}
