//! Disks that fail while a plan is applied, and what a crash leaves.

use crate::applying::{EMPTIES_BOTH, applied};
use crate::disks::{fill, holds};
use mem_io::MemDisk;
use std::alloc::Global;
use std::test::Fail;

const FAILED: &str = "input or output failed";

const SOME_FAILED: &str = "failed processing files:\n\tFailedJobs(\n\t/t/";

/// The files of the plan, with their modes.
const FILES: &[(&str, u32)] = &[("/t/x", 0o640), ("/t/y", 0o600)];

/// Whether each file is wholly old or wholly new, with its mode.
fn are_old_or_new(alloc: Global, disk: &MemDisk) -> Result<bool, Fail> {
    for (path, mode) in FILES {
        let is_whole = holds(alloc, disk, path, b"abc")? || holds(alloc, disk, path, b"")?;
        if !is_whole || disk.mode_at(path) != Some(*mode) {
            return Ok(false);
        }
    }
    Ok(true)
}

/// Whether both files are old.
fn are_old(alloc: Global, disk: &MemDisk) -> Result<bool, Fail> {
    Ok(holds(alloc, disk, "/t/x", b"abc")? && holds(alloc, disk, "/t/y", b"abc")?)
}

/// Applies the plan on an empty disk that it fills, and gives how many calls that makes.
fn calls_on(alloc: Global, disk: &mut MemDisk) -> Result<u64, Fail> {
    fill(disk, b"abc", b"abc")?;
    let _told = applied(alloc, disk, EMPTIES_BOTH, b"")?;
    Ok(disk.calls())
}

/// How many calls the plan's carrying out makes.
fn calls_of_both(alloc: Global) -> Result<u64, Fail> {
    let mut disk = MemDisk::new(alloc);
    calls_on(alloc, &mut disk)
}

/// How many calls check both lines.
const CHECKS: u64 = 2;

/// Whether one failing call may end so: while the lines are checked nothing is written; later one file fails.
fn may_end(alloc: Global, disk: &MemDisk, call: u64, told: &str) -> Result<bool, Fail> {
    if call <= CHECKS {
        return Ok(told == FAILED && are_old(alloc, disk)?);
    }
    Ok(told.starts_with(SOME_FAILED) && are_old_or_new(alloc, disk)?)
}

/// Whether the fault of a call is told on an empty disk that it fills.
fn is_told_on(alloc: Global, disk: &mut MemDisk, call: u64) -> Result<bool, Fail> {
    fill(disk, b"abc", b"abc")?;
    disk.fail_at(call)?;
    let told = applied(alloc, disk, EMPTIES_BOTH, b"")?;
    Ok(disk.faults() == 1 && may_end(alloc, disk, call, told.as_str())?)
}

/// The same on a new disk.
fn is_told(alloc: Global, call: u64) -> Result<bool, Fail> {
    let mut disk = MemDisk::new(alloc);
    is_told_on(alloc, &mut disk, call)
}

#[test]
fn each_failing_call_is_told(rt: HostRuntime) -> Result<(), Fail> {
    let alloc = rt.alloc();
    let calls = calls_of_both(alloc)?;
    assert!(rt; calls >= 14, "a check and six steps for each file");
    for call in 1..=calls {
        let is_told = is_told(alloc, call)?;
        assert!(rt; is_told, "call {call}");
    }
    Ok(())
}

/// Applies the plan on an empty disk that it fills, which stops at a call.
fn stop(alloc: Global, disk: &mut MemDisk, call: u64) -> Result<(), Fail> {
    fill(disk, b"abc", b"abc")?;
    disk.stop_at(call);
    let _told = applied(alloc, disk, EMPTIES_BOTH, b"")?;
    Ok(())
}

/// Whether an image of a disk has each file old or new.
fn is_image_whole(alloc: Global, disk: &MemDisk, choice: u64) -> Result<bool, Fail> {
    let image = disk.crash(alloc, choice)?;
    are_old_or_new(alloc, &image)
}

/// Whether the first images of a disk that stops at a call have each file old or new.
fn are_images_whole(alloc: Global, call: u64) -> Result<bool, Fail> {
    let mut disk = MemDisk::new(alloc);
    stop(alloc, &mut disk, call)?;
    for choice in 0..16 {
        if !is_image_whole(alloc, &disk, choice)? {
            return Ok(false);
        }
    }
    Ok(true)
}

#[test]
fn a_crash_leaves_each_file_old_or_new(rt: HostRuntime) -> Result<(), Fail> {
    let alloc = rt.alloc();
    for call in 1..=calls_of_both(alloc)? {
        let are_whole = are_images_whole(alloc, call)?;
        assert!(rt; are_whole, "call {call}");
    }
    Ok(())
}
