//! Spans, and printed texts.

ghost use Rattle.std.specs.Prelude.{◌≡◌, ◌≤◌, length, replicate, slice_range};
ghost use Rattle.std.specs.List.{splice};

use grep_matcher::{Captures, LineMatchKind, Match, NoCaptures};
use std::alloc::{AllocError, Global};
use std::fmt::Debug;
use std::test::Fail;

/// Each byte becomes an `x`.
fn cross(bytes: &mut [u8])
    ensures { bytes.new ≡ replicate (length bytes.old) 120 }
{
    bytes.fill(b'x');
}

/// Each byte of the span becomes an `x`, and the others stay.
fn cross_out(span: &Match, haystack: &mut [u8])
    requires { span.now.end ≤ length haystack.old }
    ensures { haystack.new ≡ splice haystack.old span.now.start span.now.end (replicate (length (slice_range haystack.old span.now.start span.now.end)) 120) }
{
    cross(span.slice_of_mut(haystack));
}

/// Whether a span of which parts are taken and which is moved starts and ends where it should.
fn moves_and_cuts() -> bool {
    let span = Match::new(2, 7);
    span.with_start(4) == Match::new(4, 7)
        && span.with_end(4) == Match::new(2, 4)
        && span.offset(10) == Match::new(12, 17)
        && span.len() == 5
        && !span.is_empty()
        && Match::zero(3).is_empty()
}

/// Whether what stands at a span is found.
fn slices(two: &Match) -> bool
    requires { (two.now.start ≡ 4) × (two.now.end ≡ 7) }
{
    two.slice_of(b"one two one") == b"two".as_slice() && two.str_of("one two one") == "two"
}

#[test]
fn spans_are_moved_and_cut(rt: HostRuntime) {
    assert!(rt; moves_and_cuts());
    let two = Match::new(4, 7);
    assert!(rt; slices(&two));
    let mut bytes = *b"one two one";
    cross_out(&two, &mut bytes);
    assert!(rt; bytes.as_slice() == b"one xxx one".as_slice());
}

/// Whether a value is printed like this.
pub(crate) fn prints_as(
    alloc: Global,
    value: &impl Debug,
    wanted: &str,
) -> Result<bool, AllocError> {
    Ok(format!(in alloc; "{value:?}")?.as_str() == wanted)
}

/// Whether a copy of captures without groups has none.
fn copy_has_no_groups() -> Result<bool, AllocError> {
    let caps = NoCaptures::new().clone()?;
    Ok(caps.len() == 0 && caps.is_empty() && caps.get(0).is_none())
}

#[test]
fn texts_are_printed(rt: HostRuntime) -> Result<(), Fail> {
    let alloc = rt.alloc();
    assert!(rt; prints_as(alloc, &Match::new(2, 7), "Match { start: 2, end: 7 }")?);
    assert!(rt; prints_as(alloc, &LineMatchKind::Candidate(3), "Candidate(3)")?);
    assert!(rt; copy_has_no_groups()?);
    Ok(())
}
