//! Members of classes that are characters or escapes.

ghost use Rattle.std.specs.Prelude.{◌≡◌, ◌<◌, ◌≤◌, ◌||◌, IfOk, drop, length, nat_lt, true};
ghost use Rattle.pattern_syntax.specs.Class.{makes_range};
ghost use Rattle.pattern_syntax.specs.ClassReading.{IsMemberRead, IsSecondRead};

use crate::{Flags, Member, behind_blanks, read_escape};
use regex_class::Class;
use sd_base::NoMemory;
use std::alloc::Global;

/// What a character or an escape is in a class.
#[derive(Drop)]
pub(crate) enum ClassMember {
    /// One character, or with `u` off one byte.
    Single(char),
    /// A set.
    Many(Class),
}

/// Whether a character may be a member: with `u` off it is ASCII.
fn is_allowed(c: char, flags: Flags) -> bool
    ensures { result ≡ (flags.unicode || nat_lt c 128) }
{
    flags.unicode || c.is_ascii()
}

/// The character or the escape at a place, and the place behind it, if one stands there that may be a member.
/// Refuses for want of memory alone.
pub(crate) fn read_member(
    alloc: Global,
    text: &[char],
    at: usize,
    flags: Flags,
) -> Result<Option<(ClassMember, usize)>, NoMemory>
    requires { at < length text.now }
    ensures { IfOk result (IsMemberRead flags text.now at) }
{
    let c = text[at];
    if c != '\\' {
        if !is_allowed(c, flags) {
            return Ok(None);
        }
        return Ok(Some((ClassMember::Single(c), at + 1)));
    }
    let Some((escape, behind)) = read_escape(alloc, text, at, flags)? else {
        return Ok(None);
    };
    match escape {
        Member::Character(c) => {
            if !is_allowed(c, flags) {
                return Ok(None);
            }
            Ok(Some((ClassMember::Single(c), behind)))
        }
        Member::HexByte(byte) => Ok(Some((ClassMember::Single(char::from(byte)), behind))),
        Member::Set(set) => Ok(Some((ClassMember::Many(set), behind))),
    }
}

/// The second end of a range whose first end stands before a place, and the place behind it, if a single one stands there.
/// Refuses for want of memory alone.
pub(crate) fn read_second(
    alloc: Global,
    text: &[char],
    at: usize,
    flags: Flags,
) -> Result<Option<(char, usize)>, NoMemory>
    requires within { at ≤ length text.now }
    requires makes { makes_range flags (drop at text.now) ≡ true }
    ensures { IfOk result (IsSecondRead flags text.now at) }
{
    let dash = behind_blanks(text, at, flags.spaces);
    let place = behind_blanks(text, dash + 1, flags.spaces);
    if place == text.len() || text[place] == '[' {
        return Ok(None);
    }
    let Some((member, behind)) = read_member(alloc, text, place, flags)? else {
        return Ok(None);
    };
    let ClassMember::Single(c) = member else {
        return Ok(None);
    };
    Ok(Some((c, behind)))
}
