//! Clones of builders.
//!
//! A matcher is let go where it is asked, and answers with plain values, so that tests are quickly proved.

use grep_matcher::{Match, Matcher};
use grep_regex::{RegexMatcher, RegexMatcherBuilder};
use std::alloc::Global;
use std::test::Fail;

/// The pattern of the tests.
const PATTERN: &str = "b";

/// A builder of matchers of words, whose letters stand for both their cases. Callers are told nothing of it.
fn words() -> RegexMatcherBuilder {
    let mut builder = RegexMatcherBuilder::new();
    builder.case_insensitive(true).word(true);
    builder
}

/// A clone of a builder. Callers are told nothing of it.
fn cloned(builder: &RegexMatcherBuilder) -> Result<RegexMatcherBuilder, Fail> {
    Ok(builder.clone()?)
}

/// A matcher by a builder. Callers are told nothing of it.
fn built(alloc: Global, builder: &RegexMatcherBuilder) -> Result<RegexMatcher, Fail> {
    if PATTERN.len() > u32::MAX as usize {
        return Err("the pattern is too long")?;
    }
    Ok(builder.build(alloc, PATTERN)?)
}

/// Where a builder's matcher first finds something.
fn found(alloc: Global, builder: &RegexMatcherBuilder) -> Result<Option<Match>, Fail> {
    let matcher = built(alloc, builder)?;
    let found = matcher.find(b"ab B");
    drop(matcher);
    Ok(found?)
}

#[test]
fn a_cloned_builder_has_the_same_options(rt: HostRuntime) -> Result<(), Fail> {
    let clone = cloned(&words())?;
    assert_eq!(rt; found(rt.alloc(), &clone)?, Some(Match::new(3, 4)));
    Ok(())
}

#[test]
fn a_cloned_builder_is_set_alone(rt: HostRuntime) -> Result<(), Fail> {
    let builder = words();
    let mut clone = cloned(&builder)?;
    clone.word(false);
    assert_eq!(rt; found(rt.alloc(), &clone)?, Some(Match::new(1, 2)));
    assert_eq!(rt; found(rt.alloc(), &builder)?, Some(Match::new(3, 4)));
    Ok(())
}
