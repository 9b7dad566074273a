//! What a pattern can ask of a place.

ghost use Rattle.std.specs.Prelude.{◌≡◌, ◌≤◌, length};
ghost use Rattle.hir_tree.specs.Looks.{holds};

use crate::side::{ascii_sides, byte_after, byte_before, unicode_sides};

/// What a pattern asks of a place, without taking a byte.
///
/// What stands before a place is the byte or the character that ends there, and what stands after it the one that
/// begins there. A side is *broken* where the text doesn't end on it and no whole UTF-8 character stands there. The
/// Unicode kinds take the word characters of `\w`: letters and all else that is Alphabetic, marks, decimal digits,
/// connector punctuation and the two joiners. The ASCII kinds look at one byte of `[0-9A-Za-z_]`. An end of the text and
/// a broken side hold no word character.
#[derive(Clone, Copy, Debug, PartialEq, Eq)]
pub enum Look {
    /// Holds at the start of the text.
    Start,
    /// Holds at the end of the text.
    End,
    /// Holds at the start of the text and after `\n`.
    StartLF,
    /// Holds at the end of the text and before `\n`.
    EndLF,
    /// Holds at the start of the text, after `\n`, and after `\r` where `\n` doesn't follow.
    StartCRLF,
    /// Holds at the end of the text, before `\r`, and before `\n` where `\r` doesn't precede.
    EndCRLF,
    /// Holds where exactly one side is an ASCII word character.
    WordAscii,
    /// Holds where both sides are ASCII word characters, or neither is.
    WordAsciiNegate,
    /// Holds where exactly one side is a word character.
    WordUnicode,
    /// Holds where both sides are word characters, or neither is, and no side is broken.
    WordUnicodeNegate,
    /// Holds where an ASCII word character stands after the place and none before it.
    WordStartAscii,
    /// Holds where an ASCII word character stands before the place and none after it.
    WordEndAscii,
    /// Holds where a word character stands after the place and none before it.
    WordStartUnicode,
    /// Holds where a word character stands before the place and none after it.
    WordEndUnicode,
    /// Holds where no ASCII word character stands before the place.
    WordStartHalfAscii,
    /// Holds where no ASCII word character stands after the place.
    WordEndHalfAscii,
    /// Holds where no word character stands before the place, and that side isn't broken.
    WordStartHalfUnicode,
    /// Holds where no word character stands after the place, and that side isn't broken.
    WordEndHalfUnicode,
}

/// Whether a look holds at a place of a text. The place is a number of bytes from the start, at most all of them.
#[tactic(auto, unfolding(crate::specs::Looks::holds))]
pub fn holds(look: Look, text: &[u8], at: usize) -> bool
    requires { at ≤ length text.now }
    ensures { result ≡ holds look text.now at }
{
    match look {
        Look::Start => at == 0,
        Look::End => at == text.len(),
        Look::StartLF => at == 0 || byte_before(text, at) == Some(b'\n'),
        Look::EndLF => at == text.len() || byte_after(text, at) == Some(b'\n'),
        Look::StartCRLF => starts_line(text, at),
        Look::EndCRLF => ends_line(text, at),
        Look::WordAscii => ascii_sides(text, at).is_edge(),
        Look::WordAsciiNegate => ascii_sides(text, at).is_no_edge(),
        Look::WordUnicode => unicode_sides(text, at).is_edge(),
        Look::WordUnicodeNegate => unicode_sides(text, at).is_no_edge(),
        Look::WordStartAscii => ascii_sides(text, at).is_word_start(),
        Look::WordEndAscii => ascii_sides(text, at).is_word_end(),
        Look::WordStartUnicode => unicode_sides(text, at).is_word_start(),
        Look::WordEndUnicode => unicode_sides(text, at).is_word_end(),
        Look::WordStartHalfAscii => ascii_sides(text, at).is_half_start(),
        Look::WordEndHalfAscii => ascii_sides(text, at).is_half_end(),
        Look::WordStartHalfUnicode => unicode_sides(text, at).is_half_start(),
        Look::WordEndHalfUnicode => unicode_sides(text, at).is_half_end(),
    }
}

/// Whether a line starts at a place, where `\n`, `\r` and `\r\n` end lines.
#[tactic(auto, unfolding(crate::specs::Looks::holds))]
fn starts_line(text: &[u8], at: usize) -> bool
    requires { at ≤ length text.now }
    ensures { result ≡ holds Look.StartCRLF text.now at }
{
    match byte_before(text, at) {
        None | Some(b'\n') => true,
        Some(b'\r') => byte_after(text, at) != Some(b'\n'),
        Some(_) => false,
    }
}

/// Whether a line ends at a place, where `\n`, `\r` and `\r\n` end lines.
#[tactic(auto, unfolding(crate::specs::Looks::holds))]
fn ends_line(text: &[u8], at: usize) -> bool
    requires { at ≤ length text.now }
    ensures { result ≡ holds Look.EndCRLF text.now at }
{
    match byte_after(text, at) {
        None | Some(b'\r') => true,
        Some(b'\n') => byte_before(text, at) != Some(b'\r'),
        Some(_) => false,
    }
}
