// A section from its record and those of its entries. What it stores goes first, and then what stands around it (crate
// frames).
ghost use Rattle.std.specs.Prelude.{true, ◌∷◌, ◌≡◌, ◌+◌, ◌-◌, ◌≤◌, length, None};
ghost use Rattle.std.proofs.lemmas.List.Edits.{sets};
ghost use Rattle.wire.specs.Padding.{aligned};
ghost use Rattle.table.specs.Tags.{entry_tag, begins_section, headers_size};
ghost use Rattle.format.specs.Encoding.{limit, stored_bytes, encode_section};
ghost use Rattle.format.specs.Records.{in_order, sections};
ghost use Rattle.from_sheet.specs.Run.{run, past};
ghost use Rattle.from_sheet.specs.Section.{section_of, Framed};

use crate::hex::write_unpaired;
use crate::record::LineRecord;
use crate::records::Records;
use crate::run::{RunEnd, store_entries};
use layout::{SourceCompression, SourceInfoSectionType};
use table::Tag;

// Stores what the section that a record begins stores: its bytes, or the entries that the next records are. Answers
// where they end.
fn store_body(
    record: &LineRecord<'_>,
    records: &mut Records<'_>,
    output: &mut [u8],
    start: usize,
) -> RunEnd
    requires begins { begins_section record.now.tag ≡ true }
    requires bound { start + length (stored_bytes (section_of record.now.tag record.now records.old)) ≤ limit }
    ensures records_after { records.new ≡ past (entry_tag record.now.tag) records.old }
    ensures to_value { result.to ≡ start + length (stored_bytes (section_of record.now.tag record.now records.old)) }
    ensures count_value { result.count ≡ length (run (entry_tag record.now.tag) records.old) }
    ensures output_after { output.new ≡ sets output.old start (stored_bytes (section_of record.now.tag record.now records.old)) }
{
    match record.tag() {
        Tag::PackedContents => RunEnd {
            to: write_unpaired(output, start, record.field(3)),
            count: 0,
        },
        Tag::Unknown => RunEnd {
            to: write_unpaired(output, start, record.field(1)),
            count: 0,
        },
        tag => {
            // any other section has entries
            let Some(entry) = tag.entry_tag() else {
                unreachable!()
            };
            store_entries(records, entry, output, start)
        }
    }
}

// Closes a section that a record begins, which stands at `start`, whose stored bytes end at `end` and which has so many
// entries. Answers the place after it. Crate write closes sections in five writers, as document 01 has them: with a row's numbers,
// and not a record's.
fn close(output: &mut [u8], record: &LineRecord<'_>, start: u32, end: u32, count: u32) -> usize
    requires begins { begins_section record.now.tag ≡ true }
    requires end_least { start + headers_size record.now.tag ≤ end }
    ensures value { result ≡ start + aligned (end - start) }
    ensures framed { Framed record.now output.old start end count output.new }
{
    match record.tag() {
        Tag::PlainContents => {
            let bytes = end - (start + SourceInfoSectionType::CONTENTS_START as u32);
            let field = record.number(0);
            frames::close_contents(
                output,
                start,
                end,
                field,
                SourceCompression::None,
                bytes,
                count,
            )
        }
        Tag::PackedContents => frames::close_contents(
            output,
            start,
            end,
            record.number(0),
            SourceCompression::Zlib,
            record.number(2),
            record.number(1),
        ),
        Tag::Names => frames::close_names(output, start, end, count),
        Tag::Arguments => frames::close_arguments(output, start, end, count),
        Tag::Unknown => {
            let kind = SourceInfoSectionType::Unknown(record.kind());
            frames::close_section(output, start, end, kind)
        }
        // an entry begins no section
        _ => start as usize,
    }
}

// Stores the section that a record begins, with its entries, which the next records are. Answers the place after it.
pub fn store_section(
    record: &LineRecord<'_>,
    records: &mut Records<'_>,
    output: &mut [u8],
    to: usize,
) -> usize
    requires order { in_order None (record.now ∷ records.old) ≡ true }
    requires bound { to + length (encode_section (section_of record.now.tag record.now records.old)) ≤ limit }
    ensures fewer { length records.new ≤ length records.old }
    ensures order_after { in_order None records.new ≡ true }
    ensures sections { sections (record.now ∷ records.old) ≡ section_of record.now.tag record.now records.old ∷ sections records.new }
    ensures to_value { result ≡ to + length (encode_section (section_of record.now.tag record.now records.old)) }
    ensures output_after { output.new ≡ sets output.old to (encode_section (section_of record.now.tag record.now records.old)) }
{
    let start = to + record.tag().headers_size();
    let body = store_body(record, records, output, start);
    close(output, record, to as u32, body.to as u32, body.count as u32)
}
