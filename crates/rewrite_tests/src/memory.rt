//! One file, where memory is wanting.

use crate::files::{Left, are_left, small_disk};
use crate::replacers::Text;
use crate::scarce::{ScarceDisk, Wanting};
use file_rewrite::{JobFault, replace_file};
use std::alloc::Global;
use std::process::Abort;
use std::test::Fail;

/// Rewrites the file, and gives the fault.
fn fault_of(alloc: Global, disk: &mut ScarceDisk) -> Option<JobFault> {
    let text = Text {
        alloc,
        text: b"new",
    };
    replace_file(alloc, disk, &text, "/t/a.txt").err()
}

/// A step that wants memory, each of the three.
const STEPS: [Wanting; 3] = [
    Wanting {
        write: true,
        ..Wanting::NONE
    },
    Wanting {
        sync: true,
        ..Wanting::NONE
    },
    Wanting {
        rename: true,
        ..Wanting::NONE
    },
];

const OLD: Left = &[("/t/a.txt", Some((b"one two one", 0o640)))];

const NEW: Left = &[("/t/a.txt", Some((b"new", 0o640)))];

/// A rewriting ends with this fault or none, these files, and a temporary file of this mode or none. No second one is made.
fn check_rewriting(
    rt: &(impl Abort + AllocGlobal),
    scarce: &mut ScarceDisk,
    fault: Option<JobFault>,
    left: Left,
    mode: Option<u32>,
) -> Result<(), Fail> {
    assert!(rt; fault_of(rt.alloc(), scarce) == fault);
    assert!(rt; scarce.disk.mode_at("/t/.sd-0000.tmp") == mode);
    assert!(rt; scarce.disk.mode_at("/t/.sd-0001.tmp").is_none());
    let are_left = are_left(rt.alloc(), &scarce.disk, left)?;
    assert!(rt; are_left);
    Ok(())
}

/// A step that wants memory is refused, and the next rewriting is done.
fn check_step(
    rt: &(impl Abort + AllocGlobal),
    wanting: Wanting,
    mode: Option<u32>,
) -> Result<(), Fail> {
    let mut scarce = ScarceDisk {
        disk: small_disk(rt.alloc())?,
        wanting,
    };
    check_rewriting(rt, &mut scarce, Some(JobFault::NoMemory), OLD, mode)?;
    check_rewriting(rt, &mut scarce, None, NEW, mode)
}

#[test]
fn a_step_that_wants_memory_leaves_no_temporary_file_unless_its_removal_does_too(
    rt: HostRuntime,
) -> Result<(), Fail> {
    for step in STEPS {
        check_step(&rt, step, None)?;
        let wanting = Wanting {
            remove: true,
            ..step
        };
        check_step(&rt, wanting, Some(0o640))?;
    }
    Ok(())
}
