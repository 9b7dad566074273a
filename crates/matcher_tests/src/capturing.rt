//! The captures calls, of a matcher that captures and of one that doesn't.

use crate::pairs::{PairCaptures, Pairs};
use crate::plain::Plain;
use grep_matcher::{Captures, Match, Matcher, NoCaptures, NoError};
use sd_base::NoMemory;
use std::test::Fail;

const PAIRS: &[u8] = b"-a-b.-c";

/// Whether the spans of a group are those that start and end here.
fn are_set_at(spans: &[Option<Match>], wanted: &[(usize, usize)]) -> bool {
    if spans.len() != wanted.len() {
        return false;
    }
    for (span, (start, end)) in spans.iter().zip(wanted.iter()) {
        match span {
            Some(span) if span.start() == *start && span.end() == *end => {}
            _ => return false,
        }
    }
    true
}

/// Whether the first pair is found, and its groups stand where they should.
fn first_pair_has_groups(pairs: &Pairs, caps: &mut PairCaptures) -> bool {
    matches!(pairs.captures(PAIRS, caps), Ok(true))
        && caps.as_match() == Match::new(0, 2)
        && caps.get(1) == Some(Match::new(1, 2))
        && caps.get(2).is_none()
        && !caps.is_empty()
}

/// Adds the group 1 of each pair.
fn capture_seconds(
    pairs: &Pairs,
    caps: &mut PairCaptures,
    seconds: &mut Vec<Option<Match>>,
) -> Result<(), NoError> {
    pairs.captures_iter(PAIRS, caps, |c: &PairCaptures| {
        seconds.push(c.get(1)).is_ok()
    })
}

#[test]
fn each_pair_comes_with_its_groups(rt: HostRuntime) -> Result<(), Fail> {
    let pairs = Pairs { first: b'-' };
    let mut caps = pairs.new_captures()?;
    assert!(rt; pairs.capture_count() == 2);
    assert!(rt; first_pair_has_groups(&pairs, &mut caps));
    let mut seconds = Vec::new(rt.alloc());
    assert!(rt; capture_seconds(&pairs, &mut caps, &mut seconds).is_ok());
    assert!(rt; are_set_at(&seconds, &[(1, 2), (3, 4), (6, 7)]));
    Ok(())
}

/// Adds the group 0 of each pair from a place on.
fn capture_later(
    pairs: &Pairs,
    caps: &mut PairCaptures,
    spans: &mut Vec<Option<Match>>,
) -> Result<(), NoError> {
    pairs.captures_iter_at(PAIRS, 2, caps, |c: &PairCaptures| {
        spans.push(c.get(0)).is_ok()
    })
}

/// Adds the group 0 of each pair from a place on by the call whose closure may fail. `false` where it failed.
fn try_capture_later(
    pairs: &Pairs,
    caps: &mut PairCaptures,
    spans: &mut Vec<Option<Match>>,
) -> bool {
    let all = pairs.try_captures_iter_at(
        PAIRS,
        3,
        caps,
        |c: &PairCaptures| -> Result<bool, NoMemory> {
            spans.push(c.get(0))?;
            Ok(true)
        },
    );
    matches!(all, Ok(Ok(())))
}

/// Adds the group 0 of the first pair by the call whose closure may fail. `false` where it failed.
fn try_capture_one(pairs: &Pairs, caps: &mut PairCaptures, spans: &mut Vec<Option<Match>>) -> bool {
    let one = pairs.try_captures_iter(PAIRS, caps, |c: &PairCaptures| -> Result<bool, NoMemory> {
        spans.push(c.get(0))?;
        Ok(false)
    });
    matches!(one, Ok(Ok(())))
}

#[test]
fn captures_from_a_place(rt: HostRuntime) -> Result<(), Fail> {
    let pairs = Pairs { first: b'-' };
    let mut caps = pairs.new_captures()?;
    let mut spans = Vec::new(rt.alloc());
    assert!(rt; capture_later(&pairs, &mut caps, &mut spans).is_ok());
    assert!(rt; try_capture_later(&pairs, &mut caps, &mut spans));
    assert!(rt; try_capture_one(&pairs, &mut caps, &mut spans));
    assert!(rt; are_set_at(&spans, &[(2, 4), (5, 7), (5, 7), (0, 2)]));
    Ok(())
}

/// Whether a matcher without captures tells nothing of groups, of bytes and of lines.
fn tells_nothing(one: &Plain<'_>) -> bool {
    one.capture_count() == 0
        && one.capture_index("name").is_none()
        && one.non_matching_bytes().is_none()
        && one.line_terminator().is_none()
}

/// Whether the closure is called with the captures of a match.
fn is_called(one: &Plain<'_>, caps: &mut NoCaptures) -> Result<bool, NoError> {
    let mut called = false;
    one.captures_iter(b"one", caps, |_caps| {
        called = true;
        true
    })?;
    Ok(called)
}

#[test]
fn a_matcher_without_captures_gives_none(rt: HostRuntime) -> Result<(), Fail> {
    let one = Plain { text: b"one" };
    let mut caps = one.new_captures()?;
    assert!(rt; tells_nothing(&one));
    assert!(rt; one.captures(b"one", &mut caps) == Ok(false));
    assert!(rt; is_called(&one, &mut caps) == Ok(false));
    Ok(())
}
