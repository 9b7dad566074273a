//! How a class begins.

ghost use Rattle.std.specs.Prelude.{◌≡◌, ◌<◌, ◌≤◌, length, slice_index};
ghost use Rattle.pattern_syntax.specs.ClassReading.{HeadAt, IsNextRead};

use crate::{Flags, behind_blanks};

/// What stands behind a `[` up to the leading members.
#[derive(Clone, Copy, Debug, PartialEq, Eq)]
pub(crate) struct ClassHead {
    /// Whether a `^` stands there.
    pub negated: bool,
    /// How many `-` are members there.
    pub dashes: usize,
    /// Whether a `]` is a member there.
    pub bracket: bool,
}

/// The place behind a character that comes next, if it does. It is none that is passed over.
fn behind_next(text: &[char], at: usize, c: char, flags: Flags) -> Option<usize>
    requires { at ≤ length text.now }
    ensures { IsNextRead flags text.now at c result }
{
    let place = behind_blanks(text, at, flags.spaces);
    if place < text.len() && text[place] == c {
        return Some(place + 1);
    }
    None
}

/// The head of the class whose `[` stands at a place, and the place behind it.
pub(crate) fn read_head(text: &[char], at: usize, flags: Flags) -> (ClassHead, usize)
    requires within { at < length text.now }
    requires opens { slice_index text.now at ≡ 91 }
    ensures { HeadAt flags text.now at result.0 result.1 }
{
    let caret = behind_next(text, at + 1, '^', flags);
    let first = caret.unwrap_or(at + 1);
    let mut place = first;
    let mut dashes = 0;
    while let Some(next) = behind_next(text, place, '-', flags) {
        dashes += 1;
        place = next;
    }
    let bracket = if dashes == 0 {
        behind_next(text, place, ']', flags)
    } else {
        None
    };
    let head = ClassHead {
        negated: caret.is_some(),
        dashes,
        bracket: bracket.is_some(),
    };
    (head, bracket.unwrap_or(place))
}
