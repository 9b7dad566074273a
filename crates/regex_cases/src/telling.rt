//! What matchers tell of themselves.

use crate::Answer;
use crate::fields::Fields;
use case_reader::CaseFault;
use grep_matcher::{LineTerminator, Matcher};
use grep_regex::RegexMatcher;
use std::alloc::Global;

/// A number as an answer, or nothing.
pub fn number(alloc: Global, number: Option<usize>) -> Answer {
    match number {
        None => Ok(None),
        Some(number) => Ok(Some(format!(in alloc; "{number}")?.into_bytes())),
    }
}

/// `yes` or `no`.
pub fn yes(alloc: Global, is_so: bool) -> Answer {
    let word = if is_so { "yes" } else { "no" };
    Ok(Some(word.as_bytes().to_vec(alloc)?))
}

/// A name: the number of its group.
pub fn named(alloc: Global, matcher: &RegexMatcher, fields: &Fields<'_>) -> Answer {
    let name = fields.text(alloc, 0)?;
    number(alloc, matcher.capture_index(&name))
}

/// How many groups a match has, the whole one among them.
pub fn count(alloc: Global, matcher: &RegexMatcher) -> Answer {
    number(alloc, Some(matcher.capture_count()))
}

/// Whether a byte is told to be in no match.
fn is_skipped(matcher: &RegexMatcher, byte: u8) -> bool {
    matcher
        .non_matching_bytes()
        .is_some_and(|set| set.contains(byte))
}

/// All bytes that are told to be in no match.
pub fn non_matching(alloc: Global, matcher: &RegexMatcher) -> Answer {
    let mut skipped = Vec::new(alloc);
    for byte in 0..=u8::MAX {
        if is_skipped(matcher, byte) {
            skipped.push(byte)?;
        }
    }
    Ok(Some(skipped))
}

/// A byte: whether that is told to be in no match.
pub fn skips(alloc: Global, matcher: &RegexMatcher, fields: &Fields<'_>) -> Answer {
    match fields.bytes(alloc, 0)?.as_slice() {
        [byte] => yes(alloc, is_skipped(matcher, *byte)),
        _ => Err(CaseFault::Word)?,
    }
}

/// The last byte of the terminator that is told of.
pub fn terminator(alloc: Global, matcher: &RegexMatcher) -> Answer {
    number(alloc, matcher.line_terminator().map(last_byte))
}

/// The last byte of a terminator.
fn last_byte(end: LineTerminator) -> usize {
    usize::from(end.as_byte())
}
