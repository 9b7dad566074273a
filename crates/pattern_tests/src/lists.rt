//! What the lists of a pattern's tree hold after some calls.

use hir_tree::{ByteRanges, Bytes, CharRanges, SharedBytes};
use sd_base::NoMemory;
use std::process::Abort;
use std::test::Fail;

#[test]
fn bytes_stand_in_their_order(rt: HostRuntime) -> Result<(), Fail> {
    let mut bytes = Bytes::new(rt.alloc());
    assert_eq!(rt; bytes.len(), 0);
    bytes.push(b'b')?;
    bytes.push(b'a')?;
    assert_eq!(rt; bytes.len(), 2);
    assert_eq!(rt; bytes.get(0), b'b');
    assert_eq!(rt; bytes.get(1), b'a');
    Ok(())
}

fn check_bytes(rt: &impl Abort, set: &ByteRanges, ranges: &[(u8, u8)]) {
    assert_eq!(rt; set.len(), ranges.len());
    for (i, range) in ranges.iter().enumerate() {
        assert!(rt; i < set.len());
        assert_eq!(rt; set.get(i), *range);
    }
}

/// Adds ranges to a set of bytes.
fn add_bytes(rt: &impl Abort, set: &mut ByteRanges, ranges: &[(u8, u8)]) -> Result<(), NoMemory> {
    for (start, end) in ranges {
        assert!(rt; *start <= *end);
        set.add(*start, *end)?;
    }
    Ok(())
}

/// Ranges that are added to a set one step after the other, and the ranges that it then has.
const BYTES: &[(&[(u8, u8)], &[(u8, u8)])] = &[
    (&[], &[]),
    (&[(2, 2), (255, 255), (0, 0)], &[(0, 0), (2, 2), (255, 255)]),
    (&[(1, 1)], &[(0, 2), (255, 255)]),
    (&[(100, 120), (105, 110)], &[(0, 2), (100, 120), (255, 255)]),
    (&[(121, 253)], &[(0, 2), (100, 253), (255, 255)]),
    (&[(0, 255)], &[(0, 255)]),
];

#[test]
fn ranges_of_bytes_are_united(rt: HostRuntime) -> Result<(), Fail> {
    let mut set = ByteRanges::new(rt.alloc());
    for (added, ranges) in BYTES {
        add_bytes(&rt, &mut set, added)?;
        check_bytes(&rt, &set, ranges);
    }
    Ok(())
}

fn check_chars(rt: &impl Abort, set: &CharRanges, ranges: &[(char, char)]) {
    assert_eq!(rt; set.len(), ranges.len());
    for (i, range) in ranges.iter().enumerate() {
        assert!(rt; i < set.len());
        assert_eq!(rt; set.get(i), *range);
    }
}

/// Adds ranges to a set of characters.
fn add_chars(
    rt: &impl Abort,
    set: &mut CharRanges,
    ranges: &[(char, char)],
) -> Result<(), NoMemory> {
    for (start, end) in ranges {
        assert!(rt; *start <= *end);
        set.add(*start, *end)?;
    }
    Ok(())
}

/// Ranges that are added to a set one step after the other, and the ranges that it then has.
const CHARS: &[(&[(char, char)], &[(char, char)])] = &[
    (&[('x', 'z'), ('a', 'c')], &[('a', 'c'), ('x', 'z')]),
    (&[('d', 'e')], &[('a', 'e'), ('x', 'z')]),
    (&[('é', 'ü'), ('c', 'w')], &[('a', 'z'), ('é', 'ü')]),
    (&[('\u{0}', '\u{10FFFF}')], &[('\u{0}', '\u{10FFFF}')]),
];

#[test]
fn ranges_of_characters_are_united(rt: HostRuntime) -> Result<(), Fail> {
    let mut set = CharRanges::new(rt.alloc());
    for (added, ranges) in CHARS {
        add_chars(&rt, &mut set, added)?;
        check_chars(&rt, &set, ranges);
    }
    Ok(())
}

/// Characters that are added to an empty set, and the ranges that it then has.
const GAP: &[(&[(char, char)], &[(char, char)])] = &[
    (
        &[('\u{E000}', '\u{E000}'), ('\u{D7FF}', '\u{D7FF}')],
        &[('\u{D7FF}', '\u{E000}')],
    ),
    (
        &[('\u{E001}', '\u{E001}'), ('\u{D7FF}', '\u{D7FF}')],
        &[('\u{D7FF}', '\u{D7FF}'), ('\u{E001}', '\u{E001}')],
    ),
];

#[test]
fn the_characters_round_the_gap_are_neighbours(rt: HostRuntime) -> Result<(), Fail> {
    for (added, ranges) in GAP {
        let mut set = CharRanges::new(rt.alloc());
        add_chars(&rt, &mut set, added)?;
        check_chars(&rt, &set, ranges);
    }
    Ok(())
}

#[test]
fn members_of_a_set_of_bytes(rt: HostRuntime) -> Result<(), Fail> {
    let mut set = ByteRanges::new(rt.alloc());
    add_bytes(&rt, &mut set, &[(b'a', b'f'), (b'0', b'9')])?;
    assert!(rt; b"059acf".iter().all(|byte| set.contains(*byte)));
    assert!(rt; !b"/:`g\xff".iter().any(|byte| set.contains(*byte)));
    let copy = set.try_clone(rt.alloc())?;
    check_bytes(&rt, &copy, &[(b'0', b'9'), (b'a', b'f')]);
    let shared = copy.shared(rt.alloc())?;
    assert!(rt; shared.len() == 2 && shared.get(1) == (b'a', b'f') && shared.contains(b'5'));
    let one = SharedBytes::of_byte(rt.alloc(), b'x')?;
    assert!(rt; one.len() == 1 && one.get(0) == (b'x', b'x') && !one.contains(b'y'));
    Ok(())
}

#[test]
fn members_of_a_set_of_characters(rt: HostRuntime) -> Result<(), Fail> {
    let mut set = CharRanges::new(rt.alloc());
    add_chars(
        &rt,
        &mut set,
        &[('à', 'é'), ('x', 'z'), ('\u{D7FF}', '\u{E000}')],
    )?;
    assert!(rt; "xzàé\u{D7FF}\u{E000}".chars().all(|c| set.contains(c)));
    assert!(rt; !"w{ßê\u{E001}".chars().any(|c| set.contains(c)));
    let copy = set.try_clone(rt.alloc())?;
    check_chars(
        &rt,
        &copy,
        &[('x', 'z'), ('à', 'é'), ('\u{D7FF}', '\u{E000}')],
    );
    Ok(())
}
