//! What stands before and after a place of a text.

ghost use Rattle.std.specs.Prelude.{◌≡◌, ◌≤◌, length};
ghost use Rattle.bstr.specs.Utf8.{decoded};
ghost use Rattle.hir_tree.specs.Sides.{byte_before, byte_after, char_of_length, char_of_length_before, char_before, char_after, ascii_side, ascii_sides, unicode_side, unicode_before, unicode_after, unicode_sides, is_edge, is_no_edge, is_word_start, is_word_end, is_half_start, is_half_end};

use bstr::decode_utf8;
use unicode::perl::is_word_character;

/// What a word look sees on one side of a place.
#[derive(Clone, Copy, PartialEq, Eq)]
pub enum Side {
    /// A word character.
    Word,
    /// An end of the text, or what is no word character.
    Other,
    /// Bytes that are no whole character.
    Broken,
}

/// What a word look sees on both sides of a place.
#[derive(Clone, Copy)]
pub struct Sides {
    pub before: Side,
    pub after: Side,
}

impl Sides {
    /// Exactly one side is a word character.
    pub fn is_edge(self) -> bool
        ensures { result ≡ is_edge self }
    {
        (self.before == Side::Word) != (self.after == Side::Word)
    }

    /// Both sides are word characters, or neither is, and no side is broken.
    pub fn is_no_edge(self) -> bool
        ensures { result ≡ is_no_edge self }
    {
        self.before == self.after && self.before != Side::Broken
    }

    /// A word character stands after the place, and none before it.
    pub fn is_word_start(self) -> bool
        ensures { result ≡ is_word_start self }
    {
        self.before != Side::Word && self.after == Side::Word
    }

    /// A word character stands before the place, and none after it.
    pub fn is_word_end(self) -> bool
        ensures { result ≡ is_word_end self }
    {
        self.before == Side::Word && self.after != Side::Word
    }

    /// No word character stands before the place, and that side isn't broken.
    pub fn is_half_start(self) -> bool
        ensures { result ≡ is_half_start self }
    {
        self.before == Side::Other
    }

    /// No word character stands after the place, and that side isn't broken.
    pub fn is_half_end(self) -> bool
        ensures { result ≡ is_half_end self }
    {
        self.after == Side::Other
    }
}

/// The byte before a place. There is none at the start of the text.
pub fn byte_before(text: &[u8], at: usize) -> Option<u8>
    requires { at ≤ length text.now }
    ensures { result ≡ byte_before text.now at }
{
    if at == 0 { None } else { Some(text[at - 1]) }
}

/// The byte after a place. There is none at the end of the text.
pub fn byte_after(text: &[u8], at: usize) -> Option<u8>
    ensures { result ≡ byte_after text.now at }
{
    text.get(at).copied()
}

/// What an ASCII look sees of a byte, and at an end of the text.
fn ascii_side(byte: Option<u8>) -> Side
    ensures { result ≡ ascii_side byte }
{
    match byte {
        Some(b) if b.is_ascii_alphanumeric() || b == b'_' => Side::Word,
        _ => Side::Other,
    }
}

/// What the ASCII word looks see on both sides of a place.
#[tactic(auto, unfolding(crate::specs::Sides::ascii_sides))]
pub fn ascii_sides(text: &[u8], at: usize) -> Sides
    requires { at ≤ length text.now }
    ensures { result ≡ ascii_sides text.now at }
{
    Sides {
        before: ascii_side(byte_before(text, at)),
        after: ascii_side(byte_after(text, at)),
    }
}

/// The first character, if it takes so many bytes.
fn char_of_length(bytes: usize, front: &[u8]) -> Option<char>
    ensures { result ≡ char_of_length bytes (decoded front.now) }
{
    let (character, size) = decode_utf8(front);
    if size == bytes { character } else { None }
}

/// The character of so many bytes whose UTF-8 ends at a place.
fn char_of_length_before(bytes: usize, text: &[u8], at: usize) -> Option<char>
    requires { at ≤ length text.now }
    ensures { result ≡ char_of_length_before bytes text.now at }
{
    if at < bytes {
        None
    } else {
        char_of_length(bytes, &text[at - bytes..])
    }
}

/// The character whose UTF-8 ends at a place.
#[tactic(auto, unfolding(crate::specs::Sides::char_before))]
fn char_before(text: &[u8], at: usize) -> Option<char>
    requires { at ≤ length text.now }
    ensures { result ≡ char_before text.now at }
{
    char_of_length_before(1, text, at)
        .or_else(|| char_of_length_before(2, text, at))
        .or_else(|| char_of_length_before(3, text, at))
        .or_else(|| char_of_length_before(4, text, at))
}

/// The character whose UTF-8 begins at a place.
fn char_after(text: &[u8], at: usize) -> Option<char>
    requires { at ≤ length text.now }
    ensures { result ≡ char_after text.now at }
{
    decode_utf8(&text[at..]).0
}

/// What a Unicode look sees of the whole character on a side, and where there is none.
fn unicode_side(character: Option<char>) -> Side
    ensures { result ≡ unicode_side character }
{
    match character {
        Some(c) if is_word_character(c) => Side::Word,
        Some(_) => Side::Other,
        None => Side::Broken,
    }
}

/// What a Unicode look sees before a place.
fn unicode_before(text: &[u8], at: usize) -> Side
    requires { at ≤ length text.now }
    ensures { result ≡ unicode_before text.now at }
{
    if at == 0 {
        Side::Other
    } else {
        unicode_side(char_before(text, at))
    }
}

/// What a Unicode look sees after a place.
fn unicode_after(text: &[u8], at: usize) -> Side
    requires { at ≤ length text.now }
    ensures { result ≡ unicode_after text.now at }
{
    if at == text.len() {
        Side::Other
    } else {
        unicode_side(char_after(text, at))
    }
}

/// What the Unicode word looks see on both sides of a place.
#[tactic(auto, unfolding(crate::specs::Sides::unicode_sides))]
pub fn unicode_sides(text: &[u8], at: usize) -> Sides
    requires { at ≤ length text.now }
    ensures { result ≡ unicode_sides text.now at }
{
    Sides {
        before: unicode_before(text, at),
        after: unicode_after(text, at),
    }
}
