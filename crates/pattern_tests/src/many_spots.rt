//! Patterns that are written out to many spots.

use crate::patterns::one_byte;
use crate::searches::{Way, search, searcher_of, slots_for};
use hir_core::{Hir, Repeat, Searcher};
use sd_base::NoMemory;
use std::alloc::Global;
use std::test::Fail;

/// A part, at most so many times.
fn up_to(alloc: Global, count: u32, greedy: bool, part: Hir) -> Result<Hir, NoMemory> {
    Ok(Hir::Repetition(Repeat {
        min: 0,
        max: Some(count),
        greedy,
        sub: Box::new(alloc, part)?,
    }))
}

/// `x`, at most so many times, and that at most so many times, and so on.
fn nested(alloc: Global, counts: &[u32], greedy: bool) -> Result<Hir, NoMemory> {
    let mut hir = Hir::Literal(one_byte(alloc, b'x')?);
    for count in counts {
        hir = up_to(alloc, *count, greedy, hir)?;
    }
    Ok(hir)
}

/// The match from the start of a text.
fn found(
    alloc: Global,
    searcher: &Searcher,
    text: &[u8],
) -> Result<Option<(usize, usize)>, NoMemory> {
    let mut slots = slots_for(alloc, searcher)?;
    let is_found = search(searcher, Way::InOnePass, text, 0, &mut slots);
    let span = slots.get(0);
    drop(slots);
    Ok(if is_found? {
        span.map(|span| (span.start(), span.end()))
    } else {
        None
    })
}

/// The match of a nested pattern from the start of a text.
fn found_by_nested(
    alloc: Global,
    counts: &[u32],
    greedy: bool,
    text: &[u8],
) -> Result<Option<(usize, usize)>, NoMemory> {
    let hir = nested(alloc, counts, greedy)?;
    let searcher = searcher_of(alloc, hir)?;
    let found = found(alloc, &searcher, text);
    drop(searcher);
    found
}

// `x{0,500000}`, greedy and lazy, `(?:x{0,1000}){0,1000}` and `(?:(?:x{0,100}){0,100}){0,50}`
#[test]
fn patterns_of_many_spots_are_built_searched_and_dropped(rt: HostRuntime) -> Result<(), Fail> {
    for (counts, greedy, text, end) in [
        ([500_000].as_slice(), true, "xyx", 1),
        (&[500_000], false, "xxx", 0),
        (&[1000, 1000], true, "xxx", 3),
        (&[100, 100, 50], true, "xxx", 3),
    ] {
        let found = found_by_nested(rt.alloc(), counts, greedy, text.as_bytes())?;
        assert_eq!(rt; found, Some((0, end)));
    }
    Ok(())
}
