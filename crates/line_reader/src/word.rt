// The word of a line, which tells its tag.
ghost use Rattle.std.specs.Prelude.{◌≡◌};
ghost use Rattle.std.specs.Str.{bytes_eq};
ghost use Rattle.sheet.specs.Lines.{tag_of_word};

use table::Tag;

// Whether bytes are those of a word. An array has a constant length, so that they are tested at once: `==` on slices is
// slower here, and each line pays for it.
fn is_word<const N: usize>(bytes: &[u8], word: &[u8; N]) -> bool
    ensures { result ≡ bytes_eq bytes.now word.now }
{
    match bytes.as_array() {
        Some(bytes) => bytes == word,
        None => false,
    }
}

// The tag that has a word, if one has it. A `match` on the words is compiled to a test of each byte, and its proof has a
// case for each.
#[tactic(auto, using(crate::proofs::FieldLaws::words), unfolding(format::specs::Display::ascii))]
pub(crate) fn tag_of_word(word: &[u8]) -> Option<Tag>
    ensures { result ≡ tag_of_word word.now }
{
    if is_word(word, b"contents") {
        Some(Tag::PlainContents)
    } else if is_word(word, b"packed") {
        Some(Tag::PackedContents)
    } else if is_word(word, b"names") {
        Some(Tag::Names)
    } else if is_word(word, b"arguments") {
        Some(Tag::Arguments)
    } else if is_word(word, b"unknown") {
        Some(Tag::Unknown)
    } else if is_word(word, b"content") {
        Some(Tag::Content)
    } else if is_word(word, b"name") {
        Some(Tag::Name)
    } else if is_word(word, b"pair") {
        Some(Tag::Pair)
    } else {
        None
    }
}
