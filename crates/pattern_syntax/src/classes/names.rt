//! Names of sets in classes.

ghost use Rattle.std.specs.Prelude.{◌≡◌, ◌<◌, ◌≤◌, IfOk, drop, length, slice_index};
ghost use Rattle.pattern_syntax.specs.ClassReading.{IsNameOpen, IsNameRead, after_letters};

use crate::{Flags, ascii_set, complement};
use regex_class::Class;
use sd_base::NoMemory;
use std::alloc::Global;

/// The place behind the small letters at a place.
fn behind_letters(text: &[char], at: usize) -> usize
    requires { at ≤ length text.now }
    ensures rest { drop result text.now ≡ after_letters (drop at text.now) }
    ensures onward { at ≤ result }
    ensures within { result ≤ length text.now }
{
    let mut place = at;
    while place < text.len() && text[place].is_ascii_lowercase() {
        place += 1;
    }
    place
}

/// Whether the name that a `[:` begins is negated, and where its letters would stand, if one may begin at a `[`.
fn open_name(text: &[char], at: usize) -> Option<(bool, usize)>
    requires within { at < length text.now }
    requires opens { slice_index text.now at ≡ 91 }
    ensures { IsNameOpen text.now at result }
{
    if at + 1 == text.len() || text[at + 1] != ':' {
        return None;
    }
    if at + 2 < text.len() && text[at + 2] == '^' {
        return Some((true, at + 3));
    }
    Some((false, at + 2))
}

/// The set that has its name in `[: :]` at a `[`, and the place behind it, if one has. Refuses for want of memory alone.
pub(crate) fn read_name(
    alloc: Global,
    text: &[char],
    at: usize,
    flags: Flags,
) -> Result<Option<(Class, usize)>, NoMemory>
    requires within { at < length text.now }
    requires opens { slice_index text.now at ≡ 91 }
    ensures { IfOk result (IsNameRead flags text.now at) }
{
    let Some((negated, start)) = open_name(text, at) else {
        return Ok(None);
    };
    let end = behind_letters(text, start);
    if !text[end..].starts_with(&[':', ']']) {
        return Ok(None);
    }
    let Some(set) = ascii_set(alloc, &text[start..end])? else {
        return Ok(None);
    };
    if !negated {
        return Ok(Some((set, end + 2)));
    }
    Ok(Some((complement(&set, flags)?, end + 2)))
}
