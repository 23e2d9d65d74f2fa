// A line that the first pass has checked, as the record that it says.
ghost use Rattle.std.specs.Prelude.{true, ◌≡◌, ◌-◌, ◌≤◌, ◌<◌, ◌+◌};
ghost use Rattle.table.specs.declared.tag.Tag.TheVariants.{Unknown};
ghost use Rattle.format.specs.Records.{Record, number_count, text_count, number, text};
ghost use Rattle.sheet.specs.Lines.{said_by, is_made, is_ruled, is_shown, said};
ghost use Rattle.from_sheet.specs.Records.{fields_of, record_of, LineChecked};

use line_reader::{SplitLine, read_number};
use std::marker::Model;
use table::Tag;

#[derive(Drop)]
pub struct LineRecord<'a> {
    line: SplitLine<'a>,
    tag: Tag,
}

impl<'a> Model for LineRecord<'a> {
    ghost Value = { Record };

    ghost view = { λ l. said_by l.tag (fields_of l.line.line.now) };

    ghost invariant = { λ l. (is_made l.tag (fields_of l.line.line.now) ≡ true) × (is_ruled (said_by l.tag (fields_of l.line.line.now)) ≡ true) };
}

impl<'a> LineRecord<'a> {
    // The record of a line.
    pub fn new(line: &'a [u8]) -> LineRecord<'a>
        requires { LineChecked line.now }
        ensures { result ≡ record_of line.now }
    {
        let line = SplitLine::new(line);
        // a checked line has a tag
        let tag = line.tag().unwrap();
        LineRecord { line, tag }
    }

    pub fn tag(&self) -> Tag
        ensures { result ≡ self.now.tag }
    {
        self.tag
    }

    // The number at an index.
    pub fn number(&self, index: usize) -> u32
        requires { index < number_count self.now.tag }
        ensures { result ≡ number index self.now }
    {
        read_number(self.line.field(index)).unwrap_or(0)
    }

    // The kind of an unknown section, which has 16 bits: the line was checked by the rule of unknown sections.
    pub fn kind(&self) -> u16
        requires { self.now.tag ≡ Unknown }
        ensures { result ≡ number 0 self.now }
    {
        read_number(self.line.field(0)).unwrap_or(0) as u16
    }

    // A field that says bytes or a text.
    pub fn field(&self, index: usize) -> &'a [u8]
        requires at_text { number_count self.now.tag ≤ index }
        requires in_bounds { index < number_count self.now.tag + text_count self.now.tag }
        ensures shown { is_shown self.now.tag result.now ≡ true }
        ensures value { said self.now.tag result.now ≡ text (index - number_count self.now.tag) self.now }
    {
        self.line.field(index)
    }
}
