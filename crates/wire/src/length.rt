// A text is measured in two ways, and a type for each keeps them apart: its length leaves the
// terminator out, and its size on the wire counts it.
ghost use Rattle.std.specs.Prelude.{◌≡◌};
ghost use Rattle.wire.specs.Length.{wire_size, terminated};

// Bytes of a text, without its terminator: what a row holds.
#[derive(Clone, Copy)]
pub struct TextLength(pub u32);

// Bytes that a text takes on the wire, with its terminator.
#[derive(Clone, Copy)]
pub struct WireSize(pub usize);

impl TextLength {
    pub fn wire_size(self) -> WireSize
        ensures { result.0 ≡ wire_size self.0 }
    {
        WireSize(self.0 as usize + 1)
    }
}

impl WireSize {
    // The same conversion backwards: a size of 0 leaves no room for the terminator, and a length has 32 bits.
    #[tactic(auto, using(crate::proofs::LengthLaws::text_lengths), unfolding(crate::specs::Length::terminated))]
    pub fn text_length(self) -> Option<TextLength>
        ensures { result ≡ terminated self.0 }
    {
        let length = u32::try_from(self.0.checked_sub(1)?).ok()?;
        Some(TextLength(length))
    }
}
