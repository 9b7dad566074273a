//! Single items.

ghost use Rattle.std.specs.Prelude.{◌≡◌, ◌<◌, [], IfOk, length};
ghost use Rattle.pattern_syntax.specs.Class as class;
ghost use Rattle.pattern_syntax.specs.Syntax as syntax;
ghost use Rattle.pattern_syntax.specs.Reads as reads;
ghost use Rattle.pattern_syntax.specs.Readers.{IsSet, IsSingleRead, HasLiterals, part_of};
ghost use Rattle.pattern_syntax.specs.Singles.{IsSignRead, IsCharacterRead};
ghost use Rattle.pattern_syntax.specs.SetTree as set_tree;

use crate::literals::{bytes_of, literal_item, member_item, no_literals, set_item};
use crate::looks::read_look;
use crate::{Flags, Item, complement, read_class, read_escape};
use hir_tree::{Hir, Look};
use regex_class::Class;
use sd_base::NoMemory;
use std::alloc::Global;
use unicode::properties::is_white_space;

/// The item of a look.
fn look_item(look: Look) -> Item
    ensures part { part_of result ≡ reads.at_depth 0 (set_tree.looks look) }
    ensures literals { HasLiterals result.literals [] }
{
    Item {
        hir: Hir::Look(look),
        depth: 0,
        literals: no_literals(),
    }
}

/// What a `.` doesn't take. Refuses for want of memory alone.
fn line_ends(alloc: Global, flags: Flags) -> Result<Class, NoMemory>
    ensures { IfOk result (λ ends. IsSet ends (reads.line_end flags)) }
{
    if flags.dot_all {
        return Ok(Class::empty(alloc));
    }
    if flags.crlf {
        return Ok(Class::from_ranges(alloc, &[(10, 10), (13, 13)])?);
    }
    Ok(Class::from_ranges(alloc, &[(10, 10)])?)
}

/// The item of a `.`. Refuses for want of memory alone.
fn dot_item(alloc: Global, flags: Flags) -> Result<Item, NoMemory>
    ensures part { IfOk result (λ item. part_of item ≡ reads.single_part flags syntax.dot) }
    ensures literals { IfOk result (λ item. HasLiterals item.literals []) }
{
    let ends = line_ends(alloc, flags)?;
    let others = complement(&ends, flags)?;
    set_item(alloc, &others, 0, no_literals(), flags)
}

/// The look of `^` or `$`: that of the text, or that of lines.
fn line_look(flags: Flags, text: Look, lines: Look, crlf_lines: Look) -> Look
    ensures { result ≡ reads.line_look text lines crlf_lines flags }
{
    if !flags.multi {
        text
    } else if flags.crlf {
        crlf_lines
    } else {
        lines
    }
}

/// The item of `.`, `^` or `$`, and the place behind it, if one of them stands there. Refuses for want of memory alone.
fn read_sign(
    alloc: Global,
    text: &[char],
    at: usize,
    flags: Flags,
) -> Result<Option<(Item, usize)>, NoMemory>
    requires { at < length text.now }
    ensures { IfOk result (IsSignRead flags text.now at) }
{
    let c = text[at];
    if c == '.' {
        return Ok(Some((dot_item(alloc, flags)?, at + 1)));
    }
    if c == '^' {
        let look = line_look(flags, Look::Start, Look::StartLF, Look::StartCRLF);
        return Ok(Some((look_item(look), at + 1)));
    }
    if c == '$' {
        let look = line_look(flags, Look::End, Look::EndLF, Look::EndCRLF);
        return Ok(Some((look_item(look), at + 1)));
    }
    Ok(None)
}

/// Whether the character means something else than itself.
fn is_special(c: char) -> bool
    ensures { result ≡ syntax.is_special c }
{
    matches!(
        c,
        '\\' | '.' | '+' | '*' | '?' | '(' | ')' | '|' | '[' | '{' | '^' | '$'
    )
}

/// Whether white space or a comment begins with the character, where they are passed over.
fn is_blank_start(c: char, flags: Flags) -> bool
    ensures { result ≡ class.is_blank_start flags c }
{
    flags.spaces && (is_white_space(c) || c == '#')
}

/// The item of a character that stands for itself, and the place behind it, if one does. Refuses for want of memory alone.
fn read_character(
    alloc: Global,
    text: &[char],
    at: usize,
    flags: Flags,
) -> Result<Option<(Item, usize)>, NoMemory>
    requires { at < length text.now }
    ensures { IfOk result (IsCharacterRead flags text.now at) }
{
    let c = text[at];
    if is_special(c) || is_blank_start(c, flags) {
        return Ok(None);
    }
    let bytes = bytes_of(alloc, c)?;
    let item = literal_item(alloc, c, bytes, flags)?;
    Ok(Some((item, at + 1)))
}

/// The single item at a place, and the place behind it, if one stands there. Refuses for want of memory alone.
pub fn read_single(
    alloc: Global,
    text: &[char],
    at: usize,
    flags: Flags,
) -> Result<Option<(Item, usize)>, NoMemory>
    requires { at < length text.now }
    ensures { IfOk result (IsSingleRead flags text.now at) }
{
    if let Some(read) = read_sign(alloc, text, at, flags)? {
        return Ok(Some(read));
    }
    if let Some((look, next)) = read_look(text, at, flags) {
        return Ok(Some((look_item(look), next)));
    }
    if let Some((member, next)) = read_escape(alloc, text, at, flags)? {
        return Ok(Some((member_item(alloc, member, flags)?, next)));
    }
    if let Some((read, next)) = read_class(alloc, text, at, flags)? {
        let item = set_item(alloc, &read.set, read.depth, read.literals, flags)?;
        return Ok(Some((item, next)));
    }
    read_character(alloc, text, at, flags)
}
