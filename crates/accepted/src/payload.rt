// A payload that the first pass accepted.
ghost use Rattle.std.specs.Prelude.{is_ok, true, ◌≡◌};
ghost use Rattle.wire.specs.Number.{u16_at};
ghost use Rattle.format.specs.Parse.{parse};
ghost use Rattle.format.specs.WellFormed.{Bytes};

#[derive(Clone, Copy)]
pub struct Payload<'a> {
    pub bytes: &'a [u8],
    pub ghost are_bytes: { Bytes bytes.now },
    pub ghost accepted: { is_ok (parse bytes.now) ≡ true },
}

impl<'a> Payload<'a> {
    // How many sections the main header tells of.
    pub fn section_count(self) -> u16
        ensures { result ≡ u16_at self.entry.bytes.now 6 }
    {
        wire::read_u16(self.bytes, 6)
    }
}
