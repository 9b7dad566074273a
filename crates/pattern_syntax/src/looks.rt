//! Looks that are written with a `\`.

ghost use Rattle.std.specs.Prelude.{◌≡◌, ◌<◌, ◌≤◌, ◌+◌, ◌++◌, ◌==◌, ℕ, List, true, IsTrue, codes, drop, length, if◌then◌else◌};
ghost use Rattle.std.specs.List.{list_any};
ghost use Rattle.pattern_syntax.specs.Syntax as syntax;
ghost use Rattle.pattern_syntax.specs.Escapes.{IsEscapeLetter};
ghost use Rattle.pattern_syntax.specs.Singles.{IsEdgeRead, IsNamedEdge, IsPlainEdge, IsShortEdge, IsAnyEdge, look_of, short_edge};

use crate::Flags;
use crate::escapes::escape_letter;
use hir_tree::Look;

/// The first where words are of Unicode, and else the second.
fn by_words(flags: Flags, unicode: Look, ascii: Look) -> Look
    ensures { result ≡ (if flags.unicode then unicode else ascii) }
{
    if flags.unicode { unicode } else { ascii }
}

/// Whether these characters stand at a place.
fn stands_at(text: &[char], at: usize, name: &[char]) -> bool
    requires { at ≤ length text.now }
    ensures stands { IsTrue result → drop at text.now ≡ name.now ++ drop (at + length name.now) text.now }
    ensures within { IsTrue result → at + length name.now ≤ length text.now }
    ensures others { (t : List ℕ) → drop at text.now ≡ name.now ++ t → IsTrue result }
{
    text[at..].starts_with(name)
}

/// The look of `\b` and a name in braces.
fn read_named_edge(text: &[char], at: usize, letter: char, flags: Flags) -> Option<(Look, usize)>
    requires { IsEscapeLetter text.now at letter }
    ensures { IsEdgeRead IsNamedEdge flags text.now at result }
{
    if letter != 'b' {
        return None;
    }
    let name = at + 2;
    if stands_at(text, name, &['{', 's', 't', 'a', 'r', 't', '}']) {
        let look = by_words(flags, Look::WordStartUnicode, Look::WordStartAscii);
        return Some((look, at + 9));
    }
    if stands_at(text, name, &['{', 'e', 'n', 'd', '}']) {
        let look = by_words(flags, Look::WordEndUnicode, Look::WordEndAscii);
        return Some((look, at + 7));
    }
    if stands_at(
        text,
        name,
        &['{', 's', 't', 'a', 'r', 't', '-', 'h', 'a', 'l', 'f', '}'],
    ) {
        let look = by_words(flags, Look::WordStartHalfUnicode, Look::WordStartHalfAscii);
        return Some((look, at + 14));
    }
    if stands_at(
        text,
        name,
        &['{', 'e', 'n', 'd', '-', 'h', 'a', 'l', 'f', '}'],
    ) {
        let look = by_words(flags, Look::WordEndHalfUnicode, Look::WordEndHalfAscii);
        return Some((look, at + 12));
    }
    None
}

/// Whether the character is a decimal digit of ASCII.
fn is_decimal(c: char) -> bool
    ensures { result ≡ list_any (λ d. c == d) (codes "0123456789") }
{
    matches!(c, '0' | '1' | '2' | '3' | '4' | '5' | '6' | '7' | '8' | '9')
}

/// Whether `\b` alone may stand before a place: a `{` there has a digit behind it.
fn ends_edge(text: &[char], at: usize) -> bool
    requires { at ≤ length text.now }
    ensures { result ≡ syntax.fine_edge (drop at text.now) }
{
    if at == text.len() || text[at] != '{' {
        return true;
    }
    at + 1 < text.len() && is_decimal(text[at + 1])
}

/// The look of `\b` alone.
fn read_plain_edge(text: &[char], at: usize, letter: char, flags: Flags) -> Option<(Look, usize)>
    requires { IsEscapeLetter text.now at letter }
    ensures { IsEdgeRead IsPlainEdge flags text.now at result }
{
    if letter != 'b' || !ends_edge(text, at + 2) {
        return None;
    }
    Some((by_words(flags, Look::WordUnicode, Look::WordAscii), at + 2))
}

/// The look of a letter alone, but `b`.
fn short_look(letter: char, flags: Flags) -> Option<Look>
    ensures { result ≡ look_of flags.unicode (short_edge letter) }
{
    match letter {
        'A' => Some(Look::Start),
        'z' => Some(Look::End),
        'B' => Some(by_words(flags, Look::WordUnicodeNegate, Look::WordAsciiNegate)),
        '<' => Some(by_words(flags, Look::WordStartUnicode, Look::WordStartAscii)),
        '>' => Some(by_words(flags, Look::WordEndUnicode, Look::WordEndAscii)),
        _ => None,
    }
}

/// The look of a letter alone, but `b`, and the place behind it.
fn read_short_edge(text: &[char], at: usize, letter: char, flags: Flags) -> Option<(Look, usize)>
    requires { IsEscapeLetter text.now at letter }
    ensures { IsEdgeRead IsShortEdge flags text.now at result }
{
    let Some(look) = short_look(letter, flags) else {
        return None;
    };
    Some((look, at + 2))
}

/// The look at a place, and the place behind it, if one stands there that is written with a `\`.
pub(crate) fn read_look(text: &[char], at: usize, flags: Flags) -> Option<(Look, usize)>
    requires { at < length text.now }
    ensures { IsEdgeRead IsAnyEdge flags text.now at result }
{
    let Some(letter) = escape_letter(text, at) else {
        return None;
    };
    if let Some(read) = read_named_edge(text, at, letter, flags) {
        return Some(read);
    }
    if let Some(read) = read_plain_edge(text, at, letter, flags) {
        return Some(read);
    }
    read_short_edge(text, at, letter, flags)
}
