//! The find calls, on a plain text.

use crate::gathered::{all_spans, count, stand_at};
use crate::plain::Plain;
use grep_matcher::{LineMatchKind, Match, Matcher};
use sd_base::NoMemory;
use std::alloc::Global;

const TEXT: &[u8] = b"one two one";

/// Where `one` stands in the haystack.
const WANT: &[(usize, usize)] = &[(0, 3), (8, 11)];

/// Adds the spans of the haystack. `false` where that failed.
fn find_all(spans: &mut Vec<Match>) -> bool {
    let one = Plain { text: b"one" };
    one.find_iter(TEXT, |span| spans.push(span).is_ok()).is_ok()
}

/// Adds the spans of the haystack by the call whose closure may fail. `false` where it failed.
fn try_all(spans: &mut Vec<Match>) -> bool {
    let one = Plain { text: b"one" };
    let all = one.try_find_iter(TEXT, |span| -> Result<bool, NoMemory> {
        spans.push(span)?;
        Ok(true)
    });
    matches!(all, Ok(Ok(())))
}

/// Whether the fair cover has its spans here.
fn covers<M: Matcher>(
    matcher: &M,
    alloc: Global,
    haystack: &[u8],
    wanted: &[(usize, usize)],
) -> Result<bool, M::Error> {
    match all_spans(matcher, alloc, haystack)? {
        Ok(spans) => Ok(stand_at(&spans, wanted)),
        Err(_error) => Ok(false),
    }
}

#[test]
fn every_find_call_gives_the_same_spans(rt: HostRuntime) {
    let mut spans = Vec::new(rt.alloc());
    assert!(rt; find_all(&mut spans));
    assert!(rt; stand_at(&spans, WANT));
    let mut tried = Vec::new(rt.alloc());
    assert!(rt; try_all(&mut tried));
    assert!(rt; stand_at(&tried, WANT));
    let one = Plain { text: b"one" };
    assert!(rt; covers(&&one, rt.alloc(), TEXT, WANT) == Ok(true));
    assert!(rt; count(&one, TEXT) == Ok(2));
}

/// Adds the spans of the haystack from a place on. `false` where that failed.
fn find_later(spans: &mut Vec<Match>) -> bool {
    let one = Plain { text: b"one" };
    one.find_iter_at(TEXT, 2, |span| spans.push(span).is_ok())
        .is_ok()
}

/// Adds the spans of the haystack from a place on by the call whose closure may fail. `false` where it failed.
fn try_later(spans: &mut Vec<Match>) -> bool {
    let one = Plain { text: b"one" };
    let all = one.try_find_iter_at(TEXT, 2, |span| -> Result<bool, NoMemory> {
        spans.push(span)?;
        Ok(true)
    });
    matches!(all, Ok(Ok(())))
}

/// Whether the first matches stand where they should.
fn first_matches_stand(one: &Plain<'_>) -> bool {
    one.find(TEXT) == Ok(Some(Match::new(0, 3)))
        && one.find_at(TEXT, 2) == Ok(Some(Match::new(8, 11)))
}

/// Whether the first matches end where they should.
fn first_matches_end(one: &Plain<'_>) -> bool {
    one.shortest_match(TEXT) == Ok(Some(3)) && one.shortest_match_at(TEXT, 2) == Ok(Some(11))
}

/// Whether a place in the first line that matches is found.
fn first_line_is_found(one: &Plain<'_>) -> bool {
    matches!(
        one.find_candidate_line(TEXT),
        Ok(Some(LineMatchKind::Confirmed(3)))
    )
}

/// Whether it is told rightly from where on there are matches.
fn matches_are_told(one: &Plain<'_>) -> bool {
    one.is_match(TEXT) == Ok(true)
        && one.is_match_at(TEXT, 8) == Ok(true)
        && one.is_match_at(TEXT, 9) == Ok(false)
}

#[test]
fn searches_go_on_from_a_place(rt: HostRuntime) {
    let mut spans = Vec::new(rt.alloc());
    assert!(rt; find_later(&mut spans));
    assert!(rt; try_later(&mut spans));
    assert!(rt; stand_at(&spans, &[(8, 11), (8, 11)]));
    let one = Plain { text: b"one" };
    assert!(rt; first_matches_stand(&one));
    assert!(rt; first_matches_end(&one));
    assert!(rt; first_line_is_found(&one));
    assert!(rt; matches_are_told(&one));
}

#[test]
fn the_empty_text_stands_at_every_place_once(rt: HostRuntime) {
    let empty = Plain { text: b"" };
    assert!(rt; covers(&empty, rt.alloc(), b"ab", &[(0, 0), (1, 1), (2, 2)]) == Ok(true));
    assert!(rt; covers(&empty, rt.alloc(), b"", &[(0, 0)]) == Ok(true));
}

/// Adds the first span of the haystack. `false` where that failed.
fn find_one(spans: &mut Vec<Match>) -> bool {
    let one = Plain { text: b"one" };
    let done = one.find_iter(TEXT, |span| {
        let _kept = spans.push(span).is_ok();
        false
    });
    done.is_ok()
}

/// Whether an error of the closure is the answer.
fn is_refused() -> bool {
    let one = Plain { text: b"one" };
    let refused = one.try_find_iter(TEXT, |_span| -> Result<bool, NoMemory> { Err(NoMemory) });
    matches!(refused, Ok(Err(_)))
}

#[test]
fn a_closure_ends_the_calls(rt: HostRuntime) {
    let mut spans = Vec::new(rt.alloc());
    assert!(rt; find_one(&mut spans));
    assert!(rt; stand_at(&spans, &[(0, 3)]));
    assert!(rt; is_refused());
}
