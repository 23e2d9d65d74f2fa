// The local rule of UTF-8 (specs/Rule.antt), over whole blocks: a byte is right or wrong after the three before it.
//
// The loop over a block does not branch on the text: `&` and `|` on bools, unlike `&&` and `||`, leave it straight, so
// that it is compiled to comparisons of many bytes at once.
ghost use Rattle.std.specs.Prelude.{◌≡◌, ℕ, ◌+◌, ◌<◌, ◌≤◌, true, false, length, drop, slice_index};
ghost use Rattle.utf8.specs.Rfc3629.{octets_from, utf8_of};
ghost use Rattle.validate.specs.Rule.{right, right_at};

use crate::blocks::{LARGE, SMALL, blocks_end};

// A shorter text is read by the table: a block is not worth setting up for so few characters.
const SHORTEST: usize = 2 * SMALL;

// Whether a byte is wrong after p3, p2, p1. Only what this lets pass is promised to be right: where it finds fault, the
// table decides, so that a needless fault would cost time and no answer.
fn wrong(p3: u8, p2: u8, p1: u8, byte: u8) -> bool
    ensures { result ≡ false → right p3 p2 p1 byte ≡ true }
{
    let due = (p1 >= 0xC2) | (p2 >= 0xE0) | (p3 >= 0xF0);
    let tail = (byte >= 0x80) & (byte < 0xC0);
    let overlong = ((p1 == 0xE0) & (byte < 0xA0)) | ((p1 == 0xF0) & (byte < 0x90));
    let surrogate = (p1 == 0xED) & (byte >= 0xA0);
    let above = (p1 == 0xF4) & (byte >= 0x90);
    let never = ((byte >= 0xC0) & (byte < 0xC2)) | (byte >= 0xF5);
    (due != tail) | overlong | surrogate | above | never
}

// Whether a byte is wrong after the three before it. The first three have no such bytes here, and are not looked at.
// By index: tried with `windows(4)`, which takes 6 to 9 % longer, since each window is then shifted together from the one before,
// and with `array_windows`, which executes 5 % more; mixed text just meets its bar as it is (docs/BENCHMARKS.md).
fn has_wrong(bytes: &[u8]) -> bool
    ensures { result ≡ false → (k : ℕ) → k + 3 < length bytes.now → right (slice_index bytes.now k) (slice_index bytes.now (k + 1)) (slice_index bytes.now (k + 2)) (slice_index bytes.now (k + 3)) ≡ true }
{
    let mut found = false;
    for k in 3..bytes.len() {
        found |= wrong(bytes[k - 3], bytes[k - 2], bytes[k - 1], bytes[k]);
    }
    found
}

// A text with a place up to which every byte is right.
#[derive(Clone, Copy)]
struct RightPart<'a> {
    text: &'a [u8],
    end: usize,
    ghost in_text: { end ≤ length text.now },
    ghost each: { (i : ℕ) → i < end → right_at text.now i ≡ true },
}

impl<'a> RightPart<'a> {
    // The same, carried on over the whole blocks after it that have no wrong byte.
    fn over_blocks(self) -> RightPart<'a>
        requires { 3 ≤ self.end }
        ensures { result.text.now ≡ self.entry.text.now }
    {
        let text = self.text;
        let large = blocks_end::<LARGE, _>(
            text.len(),
            self.end,
            |i| has_wrong(&text[i - 3..i + LARGE]),
        );
        let end = blocks_end::<SMALL, _>(text.len(), large, |i| has_wrong(&text[i - 3..i + SMALL]));
        RightPart { text, end }
    }

    // The same, up to the end of a text that is right throughout. What is left of it after the last whole block is looked at
    // with the bytes before it, as one block. So 19: a small block, and the three bytes before it.
    fn carried_on(self) -> RightPart<'a>
        requires { (3 ≤ self.end) × (19 ≤ length self.text.now) }
        ensures { result.text.now ≡ self.entry.text.now }
    {
        let part = self.over_blocks();
        let text = part.text;
        let last = text.len() - SMALL;
        if part.end < last || has_wrong(&text[last - 3..]) {
            return part;
        }
        RightPart {
            text,
            end: text.len(),
        }
    }

    // The place at or before its end where no character is open.
    fn shut_end(self) -> usize
        ensures upper_bound { result ≤ length self.entry.text.now }
        ensures same_answer { octets_from 0 result (drop result self.entry.text.now) ≡ utf8_of self.entry.text.now }
    {
        let text = self.text;
        let end = self.end;
        if end < 3 {
            return 0;
        }
        if text[end - 1] >= 0xC2 {
            return end - 1;
        }
        if text[end - 2] >= 0xE0 {
            return end - 2;
        }
        if text[end - 3] >= 0xF0 {
            return end - 3;
        }
        end
    }
}

// A place up to which the text is well formed, its end if it is so throughout, as far as blocks tell. Up to `at` it is ASCII.
pub fn passed(text: &[u8], at: usize) -> usize
    requires at_in_bounds { at ≤ length text.now }
    requires ascii { (i : ℕ) → i < at → slice_index text.now i < 0x80 }
    ensures upper_bound { result ≤ length text.now }
    ensures same_answer { octets_from 0 result (drop result text.now) ≡ utf8_of text.now }
{
    if text.len() < SHORTEST {
        return at;
    }
    if at >= 3 {
        return RightPart { text, end: at }.carried_on().shut_end();
    }
    // Before its start three zeros count as a text's bytes.
    if has_wrong(&[0, 0, 0, text[0], text[1], text[2]]) {
        return at;
    }
    RightPart { text, end: 3 }.carried_on().shut_end()
}
