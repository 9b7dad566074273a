//! What matchers find.

use crate::Answer;
use crate::fields::Fields;
use crate::telling::{number, yes};
use anyhow::{Context, Error};
use grep_matcher::{Captures, LineMatchKind, Match, Matcher};
use grep_regex::RegexMatcher;
use sd_base::NoMemory;
use std::alloc::Global;

/// The ends of a span as an answer, or nothing.
fn span(alloc: Global, found: Option<Match>) -> Answer {
    match found {
        None => Ok(None),
        Some(span) => Ok(Some(ends(alloc, span)?.into_bytes())),
    }
}

/// The ends of a span.
fn ends(alloc: Global, span: Match) -> Result<String, Error> {
    Ok(format!(in alloc; "{}-{}", span.start(), span.end())?)
}

/// A text: where the first match lies.
pub fn find(alloc: Global, matcher: &RegexMatcher, fields: &Fields<'_>) -> Answer {
    let text = fields.bytes(alloc, 0)?;
    span(alloc, matcher.find(&text)?)
}

/// A text: where each match lies.
pub fn find_all(alloc: Global, matcher: &RegexMatcher, fields: &Fields<'_>) -> Answer {
    let text = fields.bytes(alloc, 0)?;
    let spans = all_spans(alloc, matcher, &text).context("out of memory")?;
    let mut out = String::new(alloc);
    for (index, span) in spans.iter().enumerate() {
        if index > 0 {
            out.push('/')?;
        }
        out.push_str(&ends(alloc, *span)?)?;
    }
    Ok(Some(out.into_bytes()))
}

/// All that a matcher finds, if there is memory for it.
fn all_spans(alloc: Global, matcher: &RegexMatcher, text: &[u8]) -> Option<Vec<Match>> {
    let mut spans = Vec::new(alloc);
    let done = matcher.find_iter(text, |span| spans.push(span).is_ok());
    done.is_ok().then_some(spans)
}

/// A text: whether there is a match.
pub fn is_match(alloc: Global, matcher: &RegexMatcher, fields: &Fields<'_>) -> Answer {
    let text = fields.bytes(alloc, 0)?;
    yes(alloc, matcher.is_match(&text)?)
}

/// A text: where its first line with a match is confirmed.
pub fn confirms(alloc: Global, matcher: &RegexMatcher, fields: &Fields<'_>) -> Answer {
    let text = fields.bytes(alloc, 0)?;
    match matcher.find_candidate_line(&text)? {
        Some(LineMatchKind::Confirmed(place)) => number(alloc, Some(place)),
        _ => Ok(None),
    }
}

/// A text, the number of a group: where that lies in the first match.
pub fn group(alloc: Global, matcher: &RegexMatcher, fields: &Fields<'_>) -> Answer {
    let text = fields.bytes(alloc, 0)?;
    let index = fields.number(1)?;
    span(alloc, group_of(matcher, &text, index)?)
}

/// Where a group of the first match lies.
fn group_of(matcher: &RegexMatcher, text: &[u8], index: usize) -> Result<Option<Match>, NoMemory> {
    let mut caps = matcher.new_captures()?;
    let is_found = matcher.captures(text, &mut caps);
    let span = caps.get(index);
    drop(caps);
    Ok(if is_found? { span } else { None })
}

/// A text, a place of it, the number of a group: where that lies in the first match from the place on.
pub fn group_from(alloc: Global, matcher: &RegexMatcher, fields: &Fields<'_>) -> Answer {
    let text = fields.bytes(alloc, 0)?;
    let at = fields.number(1)?;
    let index = fields.number(2)?;
    span(alloc, group_of_match_from(matcher, &text, at, index)?)
}

/// Where a group of the first match from a place on lies. Nothing where there is no such place.
fn group_of_match_from(
    matcher: &RegexMatcher,
    text: &[u8],
    at: usize,
    index: usize,
) -> Result<Option<Match>, NoMemory> {
    if at > text.len() {
        return Ok(None);
    }
    let mut caps = matcher.new_captures()?;
    let is_found = matcher.captures_at(text, at, &mut caps);
    let span = caps.get(index);
    drop(caps);
    Ok(if is_found? { span } else { None })
}
