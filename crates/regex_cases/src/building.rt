//! How matchers are built, and why they are refused.

use crate::Answer;
use crate::fields::pattern_count;
use crate::options::builder_of;
use anyhow::Error;
use case_reader::Case;
use grep_regex::{Error as Refusal, RegexMatcher, RegexMatcherBuilder, fit_together};
use sd_base::{NoMemory, Patterns};
use std::alloc::Global;

/// How many bytes a pattern may have.
const MOST_BYTES: usize = u32::MAX as usize;

/// The matcher of one pattern. A pattern that is too long is refused as for want of memory. Callers are told nothing of the matcher,
/// so that they are quickly proved.
fn made_of_one(
    alloc: Global,
    builder: &RegexMatcherBuilder,
    pattern: &str,
) -> Result<RegexMatcher, Refusal> {
    if pattern.len() > MOST_BYTES {
        return Err(NoMemory.into());
    }
    builder.build(alloc, pattern)
}

/// The same of several patterns.
fn made_of_many(
    alloc: Global,
    builder: &RegexMatcherBuilder,
    patterns: &Patterns,
) -> Result<RegexMatcher, Refusal> {
    if !fit_together(patterns) {
        return Err(NoMemory.into());
    }
    builder.build_many(alloc, patterns)
}

/// The same of several literals.
fn made_of_literals(
    alloc: Global,
    builder: &RegexMatcherBuilder,
    literals: &Patterns,
) -> Result<RegexMatcher, Refusal> {
    if !fit_together(literals) {
        return Err(NoMemory.into());
    }
    builder.build_literals(alloc, literals)
}

/// The patterns of a case.
fn patterns_of(alloc: Global, case: &Case<'_>) -> Result<Patterns, Error> {
    let mut patterns = Patterns::new(alloc);
    for number in 0..pattern_count(case)? {
        patterns.push(&case.line().text(alloc, number)?)?;
    }
    Ok(patterns)
}

/// The matcher of a case, or why there is none. Refuses settings that aren't known, and patterns that are no text.
pub fn made(alloc: Global, case: &Case<'_>) -> Result<Result<RegexMatcher, Refusal>, Error> {
    match case.setting("patterns") {
        None => {
            let pattern = case.line().text(alloc, 0)?;
            Ok(made_of_one(alloc, &builder_of(case)?, &pattern))
        }
        Some(_) => {
            let patterns = patterns_of(alloc, case)?;
            let builder = builder_of(case)?;
            Ok(match case.setting("literals") {
                None => made_of_many(alloc, &builder, &patterns),
                Some(_) => made_of_literals(alloc, &builder, &patterns),
            })
        }
    }
}

/// Why a case has no matcher, or nothing where it has one.
fn refusal(alloc: Global, case: &Case<'_>) -> Result<Option<Refusal>, Error> {
    match made(alloc, case)? {
        Ok(matcher) => {
            drop(matcher);
            Ok(None)
        }
        Err(refusal) => Ok(Some(refusal)),
    }
}

/// Patterns: `built`, or the kind of their refusal.
pub fn build(alloc: Global, case: &Case<'_>) -> Answer {
    match refusal(alloc, case)? {
        None => Ok(Some(b"built".to_vec(alloc)?)),
        Some(refusal) => Ok(Some(format!(in alloc; "{:?}", refusal.kind())?.into_bytes())),
    }
}

/// Patterns: what their refusal says, or nothing where they are built.
pub fn says(alloc: Global, case: &Case<'_>) -> Answer {
    match refusal(alloc, case)? {
        None => Ok(None),
        Some(refusal) => Ok(Some(format!(in alloc; "{refusal}")?.into_bytes())),
    }
}
