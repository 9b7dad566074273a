//! The replacing calls.

use crate::gathered::{copied, replaced_and_counted, replaced_with};
use crate::pairs::{PairCaptures, Pairs};
use crate::plain::Plain;
use grep_matcher::{Captures, Fault, Match, Matcher, NoCaptures};
use sd_base::NoMemory;
use std::test::Fail;

const TEXT: &[u8] = b"one two one";

const PAIRS: &[u8] = b"-a-b.";

/// Adds the haystack with a `1` in the place of each span. `false` where that failed.
fn replace_all(dst: &mut Vec<u8>) -> bool {
    replaced_with(&Plain { text: b"one" }, TEXT, b"1", dst).is_ok()
}

/// Adds the haystack with its own bytes in the place of each span. `false` where that failed.
fn copy_all(dst: &mut Vec<u8>) -> bool {
    copied(&Plain { text: b"one" }, TEXT, dst).is_ok()
}

#[test]
fn each_span_gives_way_to_a_text(rt: HostRuntime) -> Result<(), Fail> {
    let alloc = rt.alloc();
    let mut dst = b"> ".to_vec(alloc)?;
    assert!(rt; replace_all(&mut dst));
    assert!(rt; dst.as_slice() == b"> 1 two 1".as_slice());
    let mut same = Vec::new(alloc);
    assert!(rt; copy_all(&mut same));
    assert!(rt; same.as_slice() == TEXT);
    Ok(())
}

/// Adds the haystack with a `!` after each span. `false` where that failed.
fn mark_all(dst: &mut Vec<u8>) -> bool {
    let one = Plain { text: b"one" };
    let done = one.replace(TEXT, dst, |span, out: &mut Vec<u8>| {
        out.extend_from_slice(span.slice_of(TEXT))?;
        out.extend_from_slice(b"!")?;
        Ok(true)
    });
    done.is_ok()
}

#[test]
fn each_span_gives_way_to_its_own_bytes(rt: HostRuntime) {
    let mut dst = Vec::new(rt.alloc());
    assert!(rt; mark_all(&mut dst));
    assert!(rt; dst.as_slice() == b"one! two one!".as_slice());
}

/// Adds the haystack with a `1` in the place of the first span. `false` where that failed.
fn replace_one(dst: &mut Vec<u8>) -> bool {
    let one = Plain { text: b"one" };
    let done = one.replace(TEXT, dst, |_span, out: &mut Vec<u8>| {
        out.extend_from_slice(b"1")?;
        Ok(false)
    });
    done.is_ok()
}

/// Whether an error of the closure is the answer.
fn is_refused(dst: &mut Vec<u8>) -> bool {
    let one = Plain { text: b"one" };
    let refused = one.replace(TEXT, dst, |_span, _out: &mut Vec<u8>| Err(NoMemory));
    matches!(refused, Err(Fault::NoMemory))
}

#[test]
fn the_rest_stands_after_a_false(rt: HostRuntime) {
    let mut dst = Vec::new(rt.alloc());
    assert!(rt; replace_one(&mut dst));
    assert!(rt; dst.as_slice() == b"1 two one".as_slice());
    assert!(rt; is_refused(&mut dst));
}

/// Adds the haystack with a `2` in the place of each pair with a group 1. `false` where that failed.
fn replace_pairs(pairs: &Pairs, caps: &mut PairCaptures, dst: &mut Vec<u8>) -> bool {
    let done = pairs.replace_with_captures(
        PAIRS,
        caps,
        dst,
        |c: &PairCaptures, out: &mut Vec<u8>| {
            let text: &[u8] = if c.get(1).is_some() { b"2" } else { b"-" };
            out.extend_from_slice(text)?;
            Ok(true)
        },
    );
    done.is_ok()
}

#[test]
fn pairs_give_way_by_their_groups(rt: HostRuntime) -> Result<(), Fail> {
    let pairs = Pairs { first: b'-' };
    let mut caps = pairs.new_captures()?;
    assert!(rt; pairs.captures(PAIRS, &mut caps) == Ok(true));
    assert!(rt; caps.get(1) == Some(Match::new(1, 2)));
    let mut dst = Vec::new(rt.alloc());
    assert!(rt; replace_pairs(&pairs, &mut caps, &mut dst));
    assert!(rt; dst.as_slice() == b"22.".as_slice());
    Ok(())
}

/// Adds the haystack from a place on, with nothing in the place of each match with captures. `false` where that failed.
fn replace_captured(one: &Plain<'_>, caps: &mut NoCaptures, dst: &mut Vec<u8>) -> bool {
    let done = one.replace_with_captures_at(TEXT, 4, caps, dst, |_caps, _out| Ok(true));
    done.is_ok()
}

#[test]
fn without_captures_the_haystack_stands(rt: HostRuntime) -> Result<(), Fail> {
    let one = Plain { text: b"one" };
    let mut caps = one.new_captures()?;
    let mut dst = Vec::new(rt.alloc());
    assert!(rt; replace_captured(&one, &mut caps, &mut dst));
    assert!(rt; dst.as_slice() == b"two one".as_slice());
    Ok(())
}

/// Adds the haystack with a `+` in the place of each pair, and tells how many these are. `None` where that failed.
fn count_pairs(pairs: &Pairs, caps: &mut PairCaptures, dst: &mut Vec<u8>) -> Option<u64> {
    replaced_and_counted(pairs, PAIRS, caps, b"+", dst).ok()
}

#[test]
fn a_lent_closure_counts_the_pairs(rt: HostRuntime) -> Result<(), Fail> {
    let pairs = Pairs { first: b'-' };
    let mut caps = pairs.new_captures()?;
    assert!(rt; pairs.captures(PAIRS, &mut caps) == Ok(true));
    assert!(rt; caps.get(1) == Some(Match::new(1, 2)));
    let mut dst = b"> ".to_vec(rt.alloc())?;
    assert!(rt; count_pairs(&pairs, &mut caps, &mut dst) == Some(2));
    assert!(rt; dst.as_slice() == b"> ++.".as_slice());
    Ok(())
}
