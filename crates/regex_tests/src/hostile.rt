//! Patterns that lead many ways over the same bytes, on a long text in which they have no match, as no filter tells.

ghost use Rattle.std.specs.Prelude.{◌≡◌, ◌+◌, length, IfOk};
ghost use Rattle.hir_core.specs.Spots.{groups_of};

use crate::trees::tree;
use hir_core::{Searcher, Slots, group_count, spots};
use sd_base::{NoMemory, Steps, Tally};
use std::alloc::Global;
use std::process::Abort;
use std::test::Fail;

/// `xyz` again and again.
fn long_text(alloc: Global) -> Result<Vec<u8>, NoMemory> {
    let mut text = Vec::new(alloc);
    for place in 0..200_000usize {
        text.push(b"xyz"[place % 3])?;
    }
    Ok(text)
}

/// Unset slots for the groups of a pattern.
fn slots_for(alloc: Global, searcher: &Searcher) -> Result<Slots, NoMemory>
    ensures { IfOk result (λ slots. length slots ≡ groups_of searcher.now + 1) }
{
    Slots::new(alloc, group_count(searcher.hir()))
}

/// Whether a search finds a match, and how many steps it notes. The slots are let go here.
fn noted_steps(alloc: Global, searcher: &Searcher, text: &[u8]) -> Result<(bool, u64), NoMemory> {
    let mut slots = slots_for(alloc, searcher)?;
    let mut steps = Steps::new(Tally::default());
    let is_found = searcher.search_at_steps(text, 0, &mut slots, &mut steps);
    drop(slots);
    Ok((is_found?, steps.into_ledger().ticks))
}

/// The searcher of a pattern.
fn searcher_of(alloc: Global, pattern: &str) -> Result<Searcher, Fail> {
    let hir = tree(alloc, pattern)?;
    let searcher = Searcher::new(alloc, &hir);
    drop(hir);
    Ok(searcher?)
}

/// No match of a pattern is found in the long text, by no more steps than there are places, times the spots of the pattern, but by one for
/// each byte at least: no filter passes over it.
fn check(rt: &(impl Abort + AllocGlobal), pattern: &str) -> Result<(), Fail> {
    let text = long_text(rt.alloc())?;
    let searcher = searcher_of(rt.alloc(), pattern)?;
    let noted = noted_steps(rt.alloc(), &searcher, &text);
    let most = spots(searcher.hir()).saturating_mul(200_001);
    drop(searcher);
    let (is_found, ticks) = noted?;
    let ticks = u128::from(ticks);
    assert!(rt;
        !is_found && 200_000 <= ticks && ticks <= most,
        "{pattern}: {ticks} of {most}"
    );
    Ok(())
}

#[test]
fn a_star_in_a_star(rt: HostRuntime) -> Result<(), Fail> {
    check(&rt, r"(?:\w*)*\bz")
}

#[test]
fn a_plus_of_two_in_a_group(rt: HostRuntime) -> Result<(), Fail> {
    check(&rt, r"(\w+\w+)+\bz")
}

#[test]
fn one_character_or_two(rt: HostRuntime) -> Result<(), Fail> {
    check(&rt, r"(?:\w|\w\w)*\bz")
}

#[test]
fn ten_groups_that_are_repeated(rt: HostRuntime) -> Result<(), Fail> {
    check(&rt, r"((((((((((\w*)*)*)*)*)*)*)*)*)*)*\bz")
}

#[test]
fn more_spots_that_take_characters_than_a_filter_has(rt: HostRuntime) -> Result<(), Fail> {
    check(&rt, r"(?:\w{0,20}){0,4}\bz")
}

#[test]
fn more_spots_than_a_block_has(rt: HostRuntime) -> Result<(), Fail> {
    check(&rt, r"(?:\w|\w\w|a(?:\b|\B){90})*\bz")
}

// Each of the twenty alternatives is one visit, and so is the end of each of the ten groups, though twenty ways come to them; then the `z`,
// and behind it the look, which fails.
#[test]
fn groups_that_end_together(rt: HostRuntime) -> Result<(), Fail> {
    let searcher = searcher_of(
        rt.alloc(),
        r"(((((((((((?:|||||||||||||||||||)))))))))))z\by",
    )?;
    let noted = noted_steps(rt.alloc(), &searcher, b"zy");
    drop(searcher);
    assert_eq!(rt; noted?, (false, 20 + 10 + 1 + 1));
    Ok(())
}
