// Where writing stands: the place of the output, which document 01 lends to each section writer, to be moved on past its
// section; and with it the index of the row that is written next there.
#[derive(Clone, Copy)]
pub struct Position {
    pub index: usize,
    pub at: usize,
}
