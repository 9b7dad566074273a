//! Walks of random trees under all options, with and without failing calls: the bound on open lists changes nothing.

ghost use Rattle.std.specs.Iterator.{IsFinite};

use crate::asking::{Question, asked, check_lists, failures_in, given};
use crate::trees::{Random, RandomQuestion, random_question, random_tree};
use mem_io::MemDisk;
use sd_io::Disk;
use std::alloc::Global;
use std::ops::Range;
use std::process::Abort;
use std::test::Fail;
use walkdir::Walk;

/// Takes some items of a walk, and closes it: after an even number for good, else its lists alone.
fn close_after<W: Walk + Drop>(walk: W, items: u64)
    requires can { W.can_next walk }
    requires ends { IsFinite (W.remaining walk) }
{
    let mut walk = walk;
    for _taken in 0..items {
        let _item = walk.next();
    }
    if items % 2 == 0 {
        walk.close();
    } else {
        walk.close_lists();
    }
}

/// Takes some items with so many lists open at most, and closes the walk.
fn closed(
    alloc: Global,
    disk: &mut MemDisk,
    question: &Question<'_>,
    max_open: usize,
    items: u64,
) -> Result<(), Fail> {
    let walk = asked(alloc, question.root, question.settings)?.max_open(max_open);
    if question.sorts {
        close_after(walk.sort_by_file_name().into_iter(disk), items);
    } else {
        close_after(walk.into_iter(disk), items);
    }
    Ok(())
}

/// Whether a line tells a failure of the disk.
fn is_failure(line: &str) -> bool {
    line.ends_with("input or output failed")
}

/// Whether the lines of a text but those of failures stand among those of another in their order.
fn stand_among(text: &str, other: &str) -> bool {
    let mut rest = other.lines();
    for line in text.lines() {
        if !is_failure(line) && !rest.any(|later| later == line) {
            return false;
        }
    }
    true
}

/// How many lists a disk has open: so many fewer than ever are opened before there are more than ever.
fn lists_open(disk: &mut MemDisk) -> Result<u64, Fail> {
    let most = disk.lists_most();
    for opened in 0..=most {
        let _list = disk.open_dir("/")?;
        if disk.lists_most() > most {
            return Ok(most - opened);
        }
    }
    Err("more lists are open than ever were".into())
}

/// The tree of a seed, and what is asked of it.
fn world(alloc: Global, seed: u64) -> Result<(MemDisk, RandomQuestion), Fail> {
    let mut random = Random::new(seed);
    let disk = random_tree(alloc, &mut random)?;
    Ok((disk, random_question(&mut random)))
}

/// With so many lists open at most, the same is given as is given whole, no call fails, and the bound is kept.
fn check_bound(
    rt: &(impl Abort + AllocGlobal),
    disk: &mut MemDisk,
    question: &Question<'_>,
    max_open: usize,
    whole: &str,
) -> Result<(), Fail> {
    let given = given(rt.alloc(), disk, question, max_open)?;
    assert!(rt; given.as_str() == whole, "{max_open} open");
    assert_eq!(rt; failures_in(whole), 0, "{max_open} open");
    check_lists(rt, disk, max_open as u64);
    Ok(())
}

/// The same of each bound.
fn check_all_bounds(
    rt: &(impl Abort + AllocGlobal),
    disk: &mut MemDisk,
    question: &Question<'_>,
) -> Result<(), Fail> {
    let whole = given(rt.alloc(), disk, question, 1)?;
    for max_open in [1, 2, 3, 10] {
        check_bound(rt, disk, question, max_open, whole.as_str())?;
    }
    Ok(())
}

/// No list of a disk is open.
fn check_closed(rt: &(impl Abort + AllocGlobal), disk: &mut MemDisk) -> Result<(), Fail> {
    let open = lists_open(disk)?;
    assert_eq!(rt; open, 0);
    Ok(())
}

/// Where no call fails, the same is given whatever the bound on open lists, which is kept, and no list stays open.
fn check_bounds(rt: &(impl Abort + AllocGlobal), seed: u64) -> Result<(), Fail> {
    let (mut disk, question) = world(rt.alloc(), seed)?;
    check_all_bounds(rt, &mut disk, &question.as_asked())?;
    check_closed(rt, &mut disk)
}

/// Makes so many calls, whatever they answer.
fn make_calls(disk: &mut MemDisk, calls: u64) {
    for _ in 0..calls {
        let _answer = disk.stat("/", false);
    }
}

/// Where one of the calls of a walk fails, one failure is told, and the rest is some of what is given where none fails.
fn check_failure(
    rt: &(impl Abort + AllocGlobal),
    disk: &mut MemDisk,
    question: &Question<'_>,
    max_open: usize,
    whole: &str,
    call: u64,
) -> Result<(), Fail> {
    let faults = disk.faults();
    disk.fail_at(disk.calls().saturating_add(call))?;
    let given = given(rt.alloc(), disk, question, max_open)?;
    let counted = disk.faults().saturating_sub(faults);
    assert!(rt;
        failures_in(given.as_str()) == counted && stand_among(given.as_str(), whole),
        "{max_open} open, call {call}"
    );
    Ok(())
}

/// Closes a walk of which one call fails, after half as many items as calls before that.
fn close_failing(
    alloc: Global,
    disk: &mut MemDisk,
    question: &Question<'_>,
    max_open: usize,
    call: u64,
) -> Result<(), Fail> {
    disk.fail_at(disk.calls().saturating_add(call))?;
    closed(alloc, disk, question, max_open, call / 2)?;
    make_calls(disk, call);
    Ok(())
}

/// Where each call of a walk fails in turn, so many failures are told, and the rest is some of what is given where none fails.
fn check_each_failure(
    rt: &(impl Abort + AllocGlobal),
    disk: &mut MemDisk,
    question: &Question<'_>,
    max_open: usize,
) -> Result<(), Fail> {
    let whole = given(rt.alloc(), disk, question, max_open)?;
    for call in 1..=disk.calls() {
        check_failure(rt, disk, question, max_open, whole.as_str(), call)?;
        close_failing(rt.alloc(), disk, question, max_open, call)?;
    }
    Ok(())
}

/// With each call of a walk failing in turn, the bound on open lists is kept, and no list stays open.
fn check_failures(rt: &(impl Abort + AllocGlobal), seed: u64, max_open: usize) -> Result<(), Fail> {
    let (mut disk, question) = world(rt.alloc(), seed)?;
    check_each_failure(rt, &mut disk, &question.as_asked(), max_open)?;
    check_lists(rt, &disk, max_open as u64);
    check_closed(rt, &mut disk)
}

/// The same of each of these trees, for each bound.
fn check_all_failures(rt: &(impl Abort + AllocGlobal), seeds: Range<u64>) -> Result<(), Fail> {
    for seed in seeds {
        for max_open in [1, 2, 3, 10] {
            check_failures(rt, seed, max_open)?;
        }
    }
    Ok(())
}

#[test]
fn the_bound_on_open_lists_changes_nothing(rt: HostRuntime) -> Result<(), Fail> {
    for seed in 0..200 {
        check_bounds(&rt, seed)?;
    }
    Ok(())
}

#[test]
fn each_call_may_fail_on_the_first_trees(rt: HostRuntime) -> Result<(), Fail> {
    check_all_failures(&rt, 0..25)
}

#[test]
fn each_call_may_fail_on_the_second_trees(rt: HostRuntime) -> Result<(), Fail> {
    check_all_failures(&rt, 25..50)
}

#[test]
fn each_call_may_fail_on_the_third_trees(rt: HostRuntime) -> Result<(), Fail> {
    check_all_failures(&rt, 50..75)
}

#[test]
fn each_call_may_fail_on_the_fourth_trees(rt: HostRuntime) -> Result<(), Fail> {
    check_all_failures(&rt, 75..100)
}

#[test]
fn each_call_may_fail_on_the_fifth_trees(rt: HostRuntime) -> Result<(), Fail> {
    check_all_failures(&rt, 100..125)
}

#[test]
fn each_call_may_fail_on_the_sixth_trees(rt: HostRuntime) -> Result<(), Fail> {
    check_all_failures(&rt, 125..150)
}

#[test]
fn each_call_may_fail_on_the_seventh_trees(rt: HostRuntime) -> Result<(), Fail> {
    check_all_failures(&rt, 150..175)
}

#[test]
fn each_call_may_fail_on_the_eighth_trees(rt: HostRuntime) -> Result<(), Fail> {
    check_all_failures(&rt, 175..200)
}
