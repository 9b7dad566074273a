//! What the trees of some patterns count up to.

use crate::patterns::two;
use hir_tree::{ByteRanges, Bytes, CharRanges, Group, Hir, Hirs, Look, Repeat, group_count, spots};
use sd_base::{NoMemory, Text};
use std::alloc::Global;
use std::test::Fail;

fn literal(alloc: Global, bytes: &[u8]) -> Result<Hir, NoMemory> {
    let mut list = Bytes::new(alloc);
    for byte in bytes {
        list.push(*byte)?;
    }
    Ok(Hir::Literal(list))
}

fn repeat(alloc: Global, min: u32, max: Option<u32>, sub: Hir) -> Result<Hir, NoMemory> {
    let sub = Box::new(alloc, sub)?;
    let greedy = true;
    Ok(Hir::Repetition(Repeat {
        min,
        max,
        greedy,
        sub,
    }))
}

fn group(alloc: Global, index: u32, name: Option<Text>, sub: Hir) -> Result<Hir, NoMemory> {
    let sub = Box::new(alloc, sub)?;
    Ok(Hir::Capture(Group { index, name, sub }))
}

/// How many spots and groups a tree has. It is let go here, so that tests are quickly proved.
fn counts(hir: Hir) -> (u128, u32) {
    let counts = (spots(&hir), group_count(&hir));
    drop(hir);
    counts
}

#[test]
fn parts_count_as_in_the_table(rt: HostRuntime) -> Result<(), Fail> {
    let alloc = rt.alloc();
    assert_eq!(rt; counts(Hir::Empty), (1, 0));
    assert_eq!(rt; counts(Hir::Look(Look::Start)), (1, 0));
    assert_eq!(rt; counts(Hir::ClassBytes(ByteRanges::new(alloc))), (1, 0));
    assert_eq!(rt; counts(Hir::ClassChars(CharRanges::new(alloc))), (4, 0));
    assert_eq!(rt; counts(literal(alloc, b"abc")?), (3, 0));
    assert_eq!(rt; counts(Hir::Concat(Hirs::new(alloc))), (1, 0));
    assert_eq!(rt; counts(Hir::Alternation(Hirs::new(alloc))), (1, 0));
    Ok(())
}

/// The counts of a text that is repeated.
fn repeated(
    alloc: Global,
    min: u32,
    max: Option<u32>,
    text: &str,
) -> Result<(u128, u32), NoMemory> {
    let sub = literal(alloc, text.as_bytes())?;
    Ok(counts(repeat(alloc, min, max, sub)?))
}

#[test]
fn repetitions_count_as_in_the_table(rt: HostRuntime) -> Result<(), Fail> {
    for (min, max, text, count) in [
        (0, Some(0), "abc", 1),
        (0, Some(1), "abc", 4),
        (1, None, "abc", 4),
        (0, None, "abc", 5),
        (4, None, "abc", 13),
        (2, Some(3), "a", 4),
        (3, Some(3), "abc", 9),
    ] {
        assert_eq!(rt; repeated(rt.alloc(), min, max, text)?, (count, 0));
    }
    Ok(())
}

/// `(?:x*)*y`
fn nested_stars(alloc: Global) -> Result<Hir, NoMemory> {
    let inner = repeat(alloc, 0, None, literal(alloc, b"x")?)?;
    let outer = repeat(alloc, 0, None, inner)?;
    let last = literal(alloc, b"y")?;
    Ok(Hir::Concat(two(alloc, outer, last)?))
}

#[test]
fn nested_stars_take_six_spots(rt: HostRuntime) -> Result<(), Fail> {
    assert_eq!(rt; counts(nested_stars(rt.alloc())?), (6, 0));
    Ok(())
}

/// `(a)`
fn first_group(alloc: Global) -> Result<Hir, NoMemory> {
    group(alloc, 1, None, literal(alloc, b"a")?)
}

/// `(?P<n>bc)`
fn named_group(alloc: Global) -> Result<Hir, NoMemory> {
    let name = Text::new(alloc, "n")?;
    group(alloc, 2, Some(name), literal(alloc, b"bc")?)
}

/// `(a)|(?P<n>bc)`
fn two_groups(alloc: Global) -> Result<Hir, NoMemory> {
    let first = first_group(alloc)?;
    let second = named_group(alloc)?;
    Ok(Hir::Alternation(two(alloc, first, second)?))
}

#[test]
fn groups_that_are_never_matched_are_counted(rt: HostRuntime) -> Result<(), Fail> {
    let alloc = rt.alloc();
    assert_eq!(rt; counts(two_groups(alloc)?), (9, 2));
    let never = repeat(alloc, 0, Some(0), two_groups(alloc)?)?;
    assert_eq!(rt; counts(never), (1, 2));
    Ok(())
}

/// Two bytes, repeated five times over.
fn tower(alloc: Global) -> Result<Hir, NoMemory> {
    let mut hir = literal(alloc, b"ab")?;
    for _ in 0..5 {
        hir = repeat(alloc, u32::MAX, None, hir)?;
    }
    Ok(hir)
}

#[test]
fn spots_end_at_the_greatest_number(rt: HostRuntime) -> Result<(), Fail> {
    assert_eq!(rt; counts(tower(rt.alloc())?), (u128::MAX, 0));
    Ok(())
}
