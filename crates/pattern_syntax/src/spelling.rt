//! Characters that come next in turn, where blanks between them may be passed over.

ghost use Rattle.std.specs.Prelude.{◌≡◌, ◌<◌, ◌≤◌, [], ◌∷◌, ℕ, List, false, IfOk, IfSome, IfNone, drop, length};
ghost use Rattle.pattern_syntax.specs.Flags.{has, seen};
ghost use Rattle.pattern_syntax.specs.Escapes.{Spells, SpelledAt, BracesAt, in_braces};

use crate::{Flags, behind_blanks};
use sd_base::NoMemory;
use std::alloc::Global;

/// The character that comes next, and the place behind it, if one does.
pub(crate) fn next_character(text: &[char], at: usize, flags: Flags) -> Option<(char, usize)>
    requires { at ≤ length text.now }
    ensures found { IfSome result (λ found. seen flags (drop at text.now) ≡ found.0 ∷ drop found.1 text.now) }
    ensures moves { IfSome result (λ found. at < found.1) }
    ensures within { IfSome result (λ found. found.1 ≤ length text.now) }
    ensures none { IfNone result (seen flags (drop at text.now) ≡ []) }
{
    let place = behind_blanks(text, at, flags.spaces);
    if place == text.len() {
        return None;
    }
    Some((text[place], place + 1))
}

/// So many characters that come next, and the place behind them, if there are as many. Refuses for want of memory alone.
pub(crate) fn read_spaced(
    alloc: Global,
    text: &[char],
    at: usize,
    count: usize,
    flags: Flags,
) -> Result<Option<(Vec<char>, usize)>, NoMemory>
    requires { at ≤ length text.now }
    ensures found { IfOk result (λ read. IfSome read (λ found. SpelledAt flags text.now at count found.0.items found.1)) }
    ensures none { IfOk result (λ read. IfNone read ((cs t : List ℕ) → length cs ≡ count → Spells flags cs (drop at text.now) t → ⊥)) }
{
    let mut read = Vec::new(alloc);
    let mut place = at;
    while read.len() < count {
        let Some((c, next)) = next_character(text, place, flags) else {
            return Ok(None);
        };
        read.push(c)?;
        place = next;
    }
    Ok(Some((read, place)))
}

/// What braces hold that come next, and the place behind them, if they do. Refuses for want of memory alone.
pub(crate) fn read_braced(
    alloc: Global,
    text: &[char],
    at: usize,
    flags: Flags,
) -> Result<Option<(Vec<char>, usize)>, NoMemory>
    requires { at ≤ length text.now }
    ensures found { IfOk result (λ read. IfSome read (λ found. BracesAt flags text.now at found.0.items found.1)) }
    ensures none { IfOk result (λ read. IfNone read ((cs t : List ℕ) → has 125 cs ≡ false → Spells flags (in_braces cs) (drop at text.now) t → ⊥)) }
{
    let Some((brace, mut place)) = next_character(text, at, flags) else {
        return Ok(None);
    };
    if brace != '{' {
        return Ok(None);
    }
    let mut read = Vec::new(alloc);
    while let Some((c, next)) = next_character(text, place, flags) {
        place = next;
        if c == '}' {
            return Ok(Some((read, place)));
        }
        read.push(c)?;
    }
    Ok(None)
}
