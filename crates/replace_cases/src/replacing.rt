//! What replacers make of bytes.

use crate::Answer;
use crate::making::{Asked, made, settings_of};
use anyhow::Error;
use case_reader::{Case, CaseFault};
use sd_base::NoMemory;
use sd_change::{Replaces, Rewritten};
use sd_replace::Replacer;
use std::alloc::Global;

/// A text to find, a replacement text, bytes: how many matches are replaced, a colon, and the new bytes.
pub fn replace(alloc: Global, case: &Case<'_>) -> Answer {
    replaced(alloc, case, 0, None, 0)
}

/// The letters of flags or nothing, and what `replace` has: the same, under the flags.
pub fn replace_flags(alloc: Global, case: &Case<'_>) -> Answer {
    match case.line().written(0)? {
        "%none" => replaced(alloc, case, 1, None, 0),
        _ => {
            let flags = case.line().text(alloc, 0)?;
            replaced(alloc, case, 1, Some(flags.as_str()), 0)
        }
    }
}

/// How many matches are replaced at most, and what `replace` has: the same, within the limit. 0 is no limit.
pub fn replace_limit(alloc: Global, case: &Case<'_>) -> Answer {
    let written = case.line().written(0)?;
    let limit = written.parse::<u64>().map_err(|_| CaseFault::Number)?;
    replaced(alloc, case, 1, None, limit)
}

/// What is made of bytes by a replacer whose texts and bytes stand from a field on.
fn replaced(
    alloc: Global,
    case: &Case<'_>,
    first: usize,
    flags: Option<&str>,
    limit: u64,
) -> Answer {
    let settings = settings_of(case)?;
    let find = case.line().text(alloc, first)?;
    let with = case.line().text(alloc, first.saturating_add(1))?;
    let old = case.line().bytes(alloc, first.saturating_add(2))?;
    let asked = Asked {
        settings,
        find: find.as_str(),
        with: with.as_str(),
        flags,
        limit,
    };
    answer_to(alloc, &asked, &old)
}

/// What the replacer that is asked for makes of bytes. It is held here alone.
fn answer_to(alloc: Global, asked: &Asked<'_>, old: &[u8]) -> Answer {
    let replacer = made(alloc, asked)?;
    let answer = answer_of(alloc, &replacer, old);
    drop(replacer);
    answer
}

/// What a replacer makes of bytes by each of its calls.
fn answer_of(alloc: Global, replacer: &Replacer, old: &[u8]) -> Answer {
    let new = new_bytes(replacer, old)?;
    let count = count_of(replacer, old)?;
    match first_unlike(alloc, replacer, old, &new, count) {
        None => shown(alloc, count, &new),
        Some(call) => Err(Error::msg(format_args!(
            "{call} answers otherwise than replace and count"
        ))),
    }
}

/// A count, a colon, and bytes.
fn shown(alloc: Global, count: u128, new: &[u8]) -> Answer {
    let mut bytes = format!(in alloc; "{count}:")?.into_bytes();
    bytes.extend_from_slice(new)?;
    Ok(Some(bytes))
}

/// The new bytes.
fn new_bytes(replacer: &Replacer, old: &[u8]) -> Result<Vec<u8>, NoMemory> {
    replacer.replace(old)
}

/// How many matches are replaced.
fn count_of(replacer: &Replacer, old: &[u8]) -> Result<u128, NoMemory> {
    replacer.count(old)
}

/// The first of the other calls that answers otherwise.
fn first_unlike(
    alloc: Global,
    replacer: &Replacer,
    old: &[u8],
    new: &[u8],
    count: u128,
) -> Option<&'static str> {
    if !shows(replacer, old, new) {
        Some("replace_preview")
    } else if !tells(replacer, old, count > 0) {
        Some("has_matches")
    } else if !rewrites(alloc, replacer, old, new, count) {
        Some("rewrite")
    } else {
        None
    }
}

/// Whether a preview shows these bytes.
fn shows(replacer: &Replacer, old: &[u8], new: &[u8]) -> bool {
    match replacer.replace_preview(old) {
        Ok(shown) => shown.as_slice() == new,
        Err(NoMemory) => false,
    }
}

/// Whether it is told so that there is a match.
fn tells(replacer: &Replacer, old: &[u8], is_there: bool) -> bool {
    matches!(replacer.has_matches(old), Ok(told) if told == is_there)
}

/// Whether bytes that are given away become these, with so many matches replaced.
fn rewrites(alloc: Global, replacer: &Replacer, old: &[u8], new: &[u8], count: u128) -> bool {
    let Ok(content) = Vec::from_slice(alloc, old) else {
        return false;
    };
    match replacer.rewrite(content) {
        Ok(rewritten) => is_right(&rewritten, old, new, count),
        Err(NoMemory) => false,
    }
}

/// Whether bytes that were given away became these, with so many matches replaced.
fn is_right(rewritten: &Rewritten, old: &[u8], new: &[u8], count: u128) -> bool {
    match rewritten {
        Rewritten::Same {
            bytes,
            count: counted,
        } => new == old && bytes.as_slice() == new && *counted == count,
        Rewritten::Other(changed) => {
            new != old && changed.new_bytes.as_slice() == new && changed.count == count
        }
    }
}
