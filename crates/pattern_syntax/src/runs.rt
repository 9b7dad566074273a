//! Runs of characters of one kind.

ghost use Rattle.std.specs.Prelude.{◌≡◌, ◌≤◌, drop, length};
ghost use Rattle.pattern_syntax.specs.Flags.{begins};
ghost use Rattle.pattern_syntax.specs.Runs.{takes, behind};

use unicode::properties::is_white_space;

/// Characters of one kind.
#[derive(Clone, Copy)]
pub(crate) enum CharKind {
    /// An ASCII digit.
    Digit,
    /// A letter of a flag.
    Flag,
    /// A character with the property White_Space.
    White,
    /// An ASCII letter or digit, or `_`.
    Word,
}

impl CharKind {
    /// Whether a character is of this kind.
    fn takes(self, c: char) -> bool
        ensures { result ≡ takes self c }
    {
        match self {
            CharKind::Digit => matches!(c, '0'..='9'),
            CharKind::Flag => matches!(c, 'i' | 'm' | 's' | 'R' | 'U' | 'u' | 'x'),
            CharKind::White => is_white_space(c),
            CharKind::Word => matches!(c, '0'..='9' | 'A'..='Z' | 'a'..='z' | '_'),
        }
    }
}

/// The place behind all characters of a kind that come next.
pub(crate) fn behind(text: &[char], at: usize, kind: CharKind) -> usize
    requires { at ≤ length text.now }
    ensures left { drop result text.now ≡ behind (takes kind) (drop at text.now) }
    ensures onward { at ≤ result }
    ensures within { result ≤ length text.now }
{
    let mut place = at;
    while place < text.len() && kind.takes(text[place]) {
        place += 1;
    }
    place
}

/// Whether a character comes next.
pub(crate) fn is_next(text: &[char], at: usize, c: char) -> bool
    requires { at ≤ length text.now }
    ensures { result ≡ begins c (drop at text.now) }
{
    at < text.len() && text[at] == c
}
