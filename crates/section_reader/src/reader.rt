// The reader: a payload and a place in it. Each function over it is thin, and leaves the work to section.rt.
ghost use Rattle.std.specs.Prelude.{◌≡◌, ltb, length};
ghost use Rattle.section_reader.specs.Section.{taken, moved_on};

use crate::section::{Section, left_at, section_at};
use layout::Refusal;

#[derive(Clone, Copy)]
pub struct SectionReader<'a> {
    pub payload: &'a [u8],
    pub at: usize,
}

impl<'a> SectionReader<'a> {
    pub fn new(payload: &'a [u8], at: usize) -> SectionReader<'a>
        ensures { (result.payload ≡ payload.entry) × (result.at ≡ at) }
    {
        SectionReader { payload, at }
    }

    // Takes the next section, and moves on past it. At a fault the reader stays.
    pub fn next(&mut self) -> Result<Section, Refusal>
        ensures { (result ≡ taken self.old.payload.now self.old.at) × (self.new ≡ moved_on self.old) }
    {
        let section = section_at(self.payload, self.at)?;
        self.at += section.size;
        Ok(section)
    }

    // Whether bytes are left from the reader's place on.
    pub fn has_left(self) -> bool
        ensures { result ≡ ltb self.entry.at (length self.entry.payload.now) }
    {
        left_at(self.payload, self.at)
    }
}
