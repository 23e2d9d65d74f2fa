// A whole payload: its sections in order, and the main header before them.
ghost use Rattle.std.specs.Prelude.{true, ◌≡◌, ◌+◌, ◌≤◌, length, None};
ghost use mathlib.Core.List.{flat_map};
ghost use Rattle.std.proofs.lemmas.List.Edits.{sets};
ghost use Rattle.format.specs.Encoding.{limit, encode_section, encode};
ghost use Rattle.format.specs.Records.{in_order, sections};

use crate::records::Records;
use crate::section::store_section;
use layout::SourceInfoSectionType;

// All sections, after the main header. Answers how many they are, which is known as they are taken. No `for`: a section takes
// its entries from the same records.
fn store_sections(mut records: Records<'_>, output: &mut [u8]) -> u16
    requires order { in_order None records ≡ true }
    requires few { length (sections records) ≤ 65535 }
    requires bound { 8 + length (flat_map encode_section (sections records)) ≤ limit }
    ensures value { result ≡ length (sections records.entry) }
    ensures output_after { output.new ≡ sets output.old 8 (flat_map encode_section (sections records.entry)) }
{
    let mut to = SourceInfoSectionType::MAIN_HEADER_SIZE;
    let mut count: u16 = 0;
    while let Some(record) = records.next() {
        to = store_section(&record, &mut records, output, to);
        count += 1;
    }
    count
}

// The payload of the sections that records say, of so many bytes, from the output's start on.
#[tactic(auto, using(frames::proofs::PayloadClosed::payload_closed))]
pub fn store_srci(records: Records<'_>, output: &mut [u8], size: u32)
    requires order { in_order None records ≡ true }
    requires few { length (sections records) ≤ 65535 }
    requires size_value { size ≡ length (encode (sections records)) }
    requires size_le_limit { size ≤ limit }
    ensures { output.new ≡ sets output.old 0 (encode (sections records.entry)) }
{
    let sections = store_sections(records, output);
    frames::close_payload(output, size, sections);
}
