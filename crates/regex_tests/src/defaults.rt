//! The matchers that are made without a builder.
//!
//! A matcher is let go where it is asked, and answers with plain values, so that tests are quickly proved.

use grep_matcher::{LineTerminator, Matcher};
use grep_regex::{Error, ErrorKind, RegexMatcher};
use sd_base::NoMemory;
use std::alloc::Global;
use std::test::Fail;

/// Which matcher is made.
#[derive(Clone, Copy)]
enum Make {
    New,
    NewLineMatcher,
}

/// Makes a matcher. Callers are told nothing of it. A long pattern is refused as for want of memory.
fn made(alloc: Global, make: Make, pattern: &str) -> Result<RegexMatcher, Error> {
    if pattern.len() > u32::MAX as usize {
        return Err(NoMemory.into());
    }
    match make {
        Make::New => RegexMatcher::new(alloc, pattern),
        Make::NewLineMatcher => RegexMatcher::new_line_matcher(alloc, pattern),
    }
}

/// Whether a matcher finds something in a text.
fn finds(alloc: Global, make: Make, pattern: &str, text: &[u8]) -> Result<bool, Fail> {
    let matcher = made(alloc, make, pattern)?;
    let is_found = matcher.is_match(text);
    drop(matcher);
    Ok(is_found?)
}

/// The last byte of the terminator that a matcher tells of.
fn told(alloc: Global, make: Make, pattern: &str) -> Result<Option<u8>, Fail> {
    let matcher = made(alloc, make, pattern)?;
    let end = matcher.line_terminator();
    drop(matcher);
    Ok(end.map(last_byte))
}

fn last_byte(end: LineTerminator) -> u8 {
    end.as_byte()
}

/// Why no matcher is made, if so.
fn refusal(alloc: Global, make: Make, pattern: &str) -> Option<ErrorKind> {
    match made(alloc, make, pattern) {
        Ok(matcher) => {
            drop(matcher);
            None
        }
        Err(error) => Some(*error.kind()),
    }
}

#[test]
fn a_new_matcher_has_no_terminator(rt: HostRuntime) -> Result<(), Fail> {
    let alloc = rt.alloc();
    assert!(rt; finds(alloc, Make::New, "a\nb", b"a\nb")?);
    assert_eq!(rt; told(alloc, Make::New, "a\nb")?, None);
    Ok(())
}

#[test]
fn a_line_matcher_ends_lines_with_a_line_feed(rt: HostRuntime) -> Result<(), Fail> {
    let alloc = rt.alloc();
    assert!(rt; finds(alloc, Make::NewLineMatcher, "a", b"b\na")?);
    assert_eq!(rt; told(alloc, Make::NewLineMatcher, "a")?, Some(b'\n'));
    let refused = refusal(alloc, Make::NewLineMatcher, "a\nb");
    assert_eq!(rt; refused, Some(ErrorKind::NotAllowed(b'\n')));
    Ok(())
}
