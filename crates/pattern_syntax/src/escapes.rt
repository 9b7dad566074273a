//! Escapes.

ghost use Rattle.std.specs.Prelude.{◌≡◌, ◌<◌, ◌∷◌, ℕ, List, IfOk, IfSome, IfNone, codes, drop, length};
ghost use Rattle.pattern_syntax.specs.declared.flags.Flags.{Flags as AnyFlags};
ghost use Rattle.pattern_syntax.specs.Flags.{has};
ghost use Rattle.pattern_syntax.specs.Atom as atom;
ghost use Rattle.pattern_syntax.specs.Escapes.{IsEscapeLetter, IsKindRead, IsPlain, IsPerl};
ghost use Rattle.pattern_syntax.specs.Readers.{IsEscapeRead};

use crate::categories::{read_braced_category, read_category};
use crate::codes::{read_braced_code, read_code};
use crate::octal::read_octal;
use crate::{Flags, Member, perl_set};
use sd_base::NoMemory;
use std::alloc::Global;

/// The letter behind the `\` at a place, if one stands there.
pub(crate) fn escape_letter(text: &[char], at: usize) -> Option<char>
    requires { at < length text.now }
    ensures found { IfSome result (λ letter. IsEscapeLetter text.now at letter) }
    ensures none { IfNone result ((letter : ℕ) (t : List ℕ) → drop at text.now ≡ 92 ∷ letter ∷ t → ⊥) }
{
    if text[at] != '\\' || at + 1 == text.len() {
        return None;
    }
    Some(text[at + 1])
}

/// Whether the character stands for itself behind a `\`.
fn is_escapable(c: char) -> bool
    ensures { result ≡ atom.is_escapable c }
{
    c.is_ascii() && !(c.is_ascii_alphanumeric() || c == '<' || c == '>')
}

/// The control character of `\a` and its like, by the letter.
fn control_of(letter: char) -> Option<char>
    ensures { result ≡ atom.control_of letter }
{
    match letter {
        'a' => Some('\u{7}'),
        'f' => Some('\u{c}'),
        't' => Some('\t'),
        'n' => Some('\n'),
        'r' => Some('\r'),
        'v' => Some('\u{b}'),
        _ => None,
    }
}

/// A character that a `\` takes its meaning from, or a control character.
fn read_plain(text: &[char], at: usize, letter: char) -> Option<(Member, usize)>
    requires { IsEscapeLetter text.now at letter }
    ensures { (k : AnyFlags) → IsKindRead IsPlain k text.now at result }
{
    if is_escapable(letter) {
        return Some((Member::Character(letter), at + 2));
    }
    let c = control_of(letter)?;
    Some((Member::Character(c), at + 2))
}

/// Whether the letter names a set behind a `\`.
fn is_perl_letter(letter: char) -> bool
    ensures { result ≡ has letter (codes "dswDSW") }
{
    matches!(letter, 'd' | 's' | 'w' | 'D' | 'S' | 'W')
}

/// The set of `\d` and its like. Refuses for want of memory alone.
fn read_perl(
    alloc: Global,
    text: &[char],
    at: usize,
    letter: char,
    flags: Flags,
) -> Result<Option<(Member, usize)>, NoMemory>
    requires { IsEscapeLetter text.now at letter }
    ensures { IfOk result (IsKindRead IsPerl flags text.now at) }
{
    if !is_perl_letter(letter) {
        return Ok(None);
    }
    let set = perl_set(alloc, letter, flags)?;
    Ok(Some((Member::Set(set), at + 2)))
}

/// The escape at a place, and the place behind it, if one stands there that is no look. Refuses for want of memory alone.
pub fn read_escape(
    alloc: Global,
    text: &[char],
    at: usize,
    flags: Flags,
) -> Result<Option<(Member, usize)>, NoMemory>
    requires { at < length text.now }
    ensures { IfOk result (IsEscapeRead flags text.now at) }
{
    let Some(letter) = escape_letter(text, at) else {
        return Ok(None);
    };
    if let Some(read) = read_plain(text, at, letter) {
        return Ok(Some(read));
    }
    if let Some(read) = read_octal(text, at, flags) {
        return Ok(Some(read));
    }
    if let Some(read) = read_perl(alloc, text, at, letter, flags)? {
        return Ok(Some(read));
    }
    if let Some(read) = read_code(alloc, text, at, letter, flags)? {
        return Ok(Some(read));
    }
    if let Some(read) = read_braced_code(alloc, text, at, letter, flags)? {
        return Ok(Some(read));
    }
    if let Some(read) = read_category(alloc, text, at, letter, flags)? {
        return Ok(Some(read));
    }
    read_braced_category(alloc, text, at, letter, flags)
}
