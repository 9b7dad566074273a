//! Worked walks of small trees: how a row of a table is checked.

use crate::asking::{Question, Setting, check_lines, check_lists, given};
use crate::disks::{Nodes, filled};
use mem_io::MemDisk;
use std::process::Abort;
use std::test::Fail;

/// A name, what stands on the disk, a root with its options, and what it gives, a line an item.
pub(crate) type Case = (
    &'static str,
    Nodes,
    &'static str,
    &'static [Setting],
    &'static [&'static str],
);

/// The bounds on open lists that walks are tried with, and how many lists they allow.
const BOUNDS: &[(usize, u64)] = &[(0, 1), (1, 1), (2, 2), (3, 3), (10, 10)];

/// Whatever the bound on open lists, a question gives these lines, and keeps the bound.
fn check_bounds(
    rt: &(impl Abort + AllocGlobal),
    disk: &mut MemDisk,
    question: &Question<'_>,
    case: &Case,
) -> Result<(), Fail> {
    for (bound, lists) in BOUNDS {
        let given = given(rt.alloc(), disk, question, *bound)?;
        check_lines(rt, case.0, given.as_str(), case.4);
        check_lists(rt, disk, *lists);
    }
    Ok(())
}

/// A row gives its lines, on a disk of its own.
fn check(rt: &(impl Abort + AllocGlobal), case: &Case, sorts: bool) -> Result<(), Fail> {
    let mut disk = filled(rt.alloc(), case.1)?;
    let question = Question {
        root: case.2,
        settings: case.3,
        sorts,
    };
    check_bounds(rt, &mut disk, &question, case)
}

/// Each row of a table gives its lines, sorted by file name or in the disk's order.
pub(crate) fn check_all(
    rt: &(impl Abort + AllocGlobal),
    cases: &[Case],
    sorts: bool,
) -> Result<(), Fail> {
    for case in cases {
        check(rt, case, sorts)?;
    }
    Ok(())
}
