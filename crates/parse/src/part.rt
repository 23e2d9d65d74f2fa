// What the steps of the first pass are given of a payload, with what is known of it.
ghost use Rattle.std.specs.Prelude.{◌+◌, ◌≤◌, length};
ghost use Rattle.format.specs.Encoding.{limit};

// A payload, and an end in it up to which entries or pairs go. A place in it is passed beside it, since it is another at each step.
// No slice of what is left, which would need no `at ≤ part.end`: the definition of reading goes by places of the whole payload,
// as rows hold them, so that each step would have to be proved to read the same of a slice from 0 on.
#[derive(Clone, Copy)]
pub struct Part<'a> {
    pub payload: &'a [u8],
    pub end: usize,
    pub ghost within: { end ≤ length payload.now },
    pub ghost limited: { length payload.now ≤ limit },
}

// A payload, and the place and the size of a section in it.
#[derive(Clone, Copy)]
pub struct SectionPart<'a> {
    pub payload: &'a [u8],
    pub at: usize,
    pub size: usize,
    pub ghost within: { at + size ≤ length payload.now },
    pub ghost limited: { length payload.now ≤ limit },
}
