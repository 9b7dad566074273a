//! Flag lists.

ghost use Rattle.std.specs.Prelude.{◌≡◌, ◌≤◌, drop, length};
ghost use Rattle.pattern_syntax.specs.Flags.{set_flag, set_flags};
ghost use Rattle.pattern_syntax.specs.OpeningReaders.{are_distinct, ends_flags, IsOffRead, IsFlagsRead};

use crate::Flags;
use crate::runs::{CharKind, behind, is_next};

const ON: bool = true;

const OFF: bool = false;

/// Flags after a letter that turns one on or off.
fn with_letter(flags: Flags, letter: char, value: bool) -> Flags
    ensures { result ≡ set_flag value letter flags }
{
    match letter {
        'i' => Flags {
            folds: value,
            ..flags
        },
        'm' => Flags {
            multi: value,
            ..flags
        },
        's' => Flags {
            dot_all: value,
            ..flags
        },
        'R' => Flags {
            crlf: value,
            ..flags
        },
        'U' => Flags {
            swaps: value,
            ..flags
        },
        'u' => Flags {
            unicode: value,
            ..flags
        },
        'x' => Flags {
            spaces: value,
            ..flags
        },
        _ => flags,
    }
}

/// Flags after letters that turn them on or off.
fn with_letters(flags: Flags, letters: &[char], value: bool) -> Flags
    ensures { result ≡ set_flags value letters.now flags }
{
    let mut changed = flags;
    for letter in letters {
        changed = with_letter(changed, *letter, value);
    }
    changed
}

/// Whether no character stands twice.
fn are_distinct(characters: &[char]) -> bool
    ensures { result ≡ are_distinct characters.now }
{
    for (i, c) in characters.iter().enumerate() {
        if characters[..i].contains(c) {
            return false;
        }
    }
    true
}

/// The place behind a `-` that comes next and the letters behind it, or this place.
fn behind_off(text: &[char], at: usize) -> usize
    requires { at ≤ length text.now }
    ensures { IsOffRead text.now at result }
{
    if is_next(text, at, '-') {
        behind(text, at + 1, CharKind::Flag)
    } else {
        at
    }
}

/// Whether a `:` or `)` comes next.
fn ends_list(text: &[char], at: usize) -> bool
    requires { at ≤ length text.now }
    ensures { result ≡ ends_flags (drop at text.now) }
{
    is_next(text, at, ':') || is_next(text, at, ')')
}

/// The flags after the flag list that comes next, and the place of the `:` or `)` that ends it.
pub(crate) fn read_flags(text: &[char], at: usize, flags: Flags) -> Option<(Flags, usize)>
    requires { at ≤ length text.now }
    ensures { IsFlagsRead flags text.now at result }
{
    let dash = behind(text, at, CharKind::Flag);
    let end = behind_off(text, dash);
    if !ends_list(text, end) {
        return None;
    }
    if end == dash + 1 {
        return None;
    }
    if !are_distinct(&text[at..end]) {
        return None;
    }
    let set = with_letters(flags, &text[at..dash], ON);
    if end == dash {
        return Some((set, end));
    }
    Some((with_letters(set, &text[dash + 1..end], OFF), end))
}
