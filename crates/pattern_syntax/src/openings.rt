//! What parentheses open.

ghost use Rattle.std.specs.Prelude.{◌≡◌, ◌<◌, ◌≤◌, true, IfOk, length};
ghost use Rattle.std.specs.Str.{encode_utf8_all};
ghost use Rattle.pattern_syntax.specs.Sets.{is_ascii_word};
ghost use Rattle.pattern_syntax.specs.Syntax.{is_name};
ghost use Rattle.pattern_syntax.specs.Readers.{IsOpeningRead};
ghost use Rattle.pattern_syntax.specs.OpeningReaders.{IsAngleRead, IsNamedRead, IsFlaggedRead, IsMarkedRead};
ghost use Rattle.std.specs.List.{list_all};

use crate::blanks::behind_blanks;
use crate::flag_lists::read_flags;
use crate::runs::{CharKind, behind, is_next};
use crate::{Flags, Opening};
use sd_base::{NoMemory, Text};
use std::alloc::Global;

/// The place behind a `<` or `P<` that comes next.
fn behind_angle(text: &[char], at: usize) -> Option<usize>
    requires { at ≤ length text.now }
    ensures { IsAngleRead text.now at result }
{
    let angle = if is_next(text, at, 'P') { at + 1 } else { at };
    if is_next(text, angle, '<') {
        Some(angle + 1)
    } else {
        None
    }
}

/// Whether ASCII letters, digits and `_` are a name: there are some, and the first is no digit.
fn is_name(word: &[char]) -> bool
    requires { list_all is_ascii_word word.now ≡ true }
    ensures { result ≡ is_name word.now }
{
    !word.is_empty() && !matches!(word[0], '0'..='9')
}

/// The text of characters. Refuses for want of memory alone.
fn text_of(alloc: Global, characters: &[char]) -> Result<Text, NoMemory>
    ensures { IfOk result (λ text. text ≡ encode_utf8_all characters.now) }
{
    let text: String = characters.iter().copied().collect(alloc)?;
    Ok(Text::from(text))
}

/// The group with the name that comes next, and the place behind the `>` that ends it. Refuses for want of memory alone.
fn read_named(alloc: Global, text: &[char], at: usize) -> Result<Option<(Opening, usize)>, NoMemory>
    requires { at ≤ length text.now }
    ensures { IfOk result (IsNamedRead text.now at) }
{
    let end = behind(text, at, CharKind::Word);
    if !is_next(text, end, '>') {
        return Ok(None);
    }
    let word = &text[at..end];
    if !is_name(word) {
        return Ok(None);
    }
    let name = text_of(alloc, word)?;
    Ok(Some((Opening::Named(name), end + 1)))
}

/// What a flag list opens that comes next behind `(?`, and the place behind it.
fn read_flagged(text: &[char], at: usize, flags: Flags) -> Option<(Opening, usize)>
    requires { at ≤ length text.now }
    ensures { IsFlaggedRead flags text.now at result }
{
    let (applied, end) = read_flags(text, at, flags)?;
    if is_next(text, end, ':') {
        return Some((Opening::Plain(applied), end + 1));
    }
    if end == at {
        return None;
    }
    Some((Opening::Sets(applied), end + 1))
}

/// What is opened by what comes next behind `(?`, and the place behind it. Refuses for want of memory alone.
fn read_marked(
    alloc: Global,
    text: &[char],
    at: usize,
    flags: Flags,
) -> Result<Option<(Opening, usize)>, NoMemory>
    requires { at ≤ length text.now }
    ensures { IfOk result (IsMarkedRead flags text.now at) }
{
    match behind_angle(text, at) {
        Some(start) => read_named(alloc, text, start),
        None => Ok(read_flagged(text, at, flags)),
    }
}

/// What is opened at a place, and the place behind that, if something is. Refuses for want of memory alone.
pub fn read_opening(
    alloc: Global,
    text: &[char],
    at: usize,
    flags: Flags,
) -> Result<Option<(Opening, usize)>, NoMemory>
    requires { at < length text.now }
    ensures { IfOk result (IsOpeningRead flags text.now at) }
{
    if !is_next(text, at, '(') {
        return Ok(None);
    }
    let mark = behind_blanks(text, at + 1, flags.spaces);
    if is_next(text, mark, '?') {
        read_marked(alloc, text, mark + 1, flags)
    } else {
        Ok(Some((Opening::Numbered, at + 1)))
    }
}
