//! Disks and sinks that fail.

use crate::disks::{NEW_A, NEW_B, OLD_A, OLD_B, both_hold, fill, has_modes, holds};
use crate::in_turn::{is_fault_of, rewritten};
use crate::shown::{ends_with, is_right_on, sink};
use mem_io::{MemDisk, MemSink};
use std::alloc::Global;
use std::test::Fail;

const BOTH: &[&str] = &["/t/a.txt", "/t/b.md"];

const A_FAILED: &str = "/t/a.txt: input or output failed";

const A_UNMOVED: &str = "/t/a.txt: failed to move file: input or output failed";

const B_FAILED: &str = "/t/b.md: input or output failed";

const B_UNMOVED: &str = "/t/b.md: failed to move file: input or output failed";

/// The jobs that one failing call of the disk may bring, and what the files hold then: the one of the call is old before its move
/// and old or new from then on, and the other is new.
const ENDS: &[(&str, &[u8], &[u8])] = &[
    (A_FAILED, OLD_A, NEW_B),
    (A_UNMOVED, OLD_A, NEW_B),
    (A_UNMOVED, NEW_A, NEW_B),
    (B_FAILED, NEW_A, OLD_B),
    (B_UNMOVED, NEW_A, OLD_B),
    (B_UNMOVED, NEW_A, NEW_B),
];

/// Whether one failing call may end so.
fn may_end(alloc: Global, disk: &MemDisk, fault: &str) -> Result<bool, Fail> {
    for (job, a, b) in ENDS {
        if is_fault_of(alloc, fault, &[*job])? && both_hold(alloc, disk, a, b)? {
            return Ok(true);
        }
    }
    Ok(false)
}

/// Rewrites both files on an empty disk that it fills, and gives how many calls that makes.
fn calls_on(alloc: Global, disk: &mut MemDisk) -> Result<u64, Fail> {
    fill(disk)?;
    let _fault = rewritten(alloc, disk, NEW_B, BOTH)?;
    Ok(disk.calls())
}

/// How many calls the rewriting of both files makes.
fn calls_of_both(alloc: Global) -> Result<u64, Fail> {
    let mut disk = MemDisk::new(alloc);
    calls_on(alloc, &mut disk)
}

/// Rewrites both files on a disk of which the call with this number fails, and gives the text of the fault.
fn fault_at(alloc: Global, disk: &mut MemDisk, call: u64) -> Result<String, Fail> {
    fill(disk)?;
    disk.fail_at(call)?;
    rewritten(alloc, disk, NEW_B, BOTH)
}

/// Whether that fails one file, which is as its fault says.
fn fails_one_on(alloc: Global, disk: &mut MemDisk, call: u64) -> Result<bool, Fail> {
    let fault = fault_at(alloc, disk, call)?;
    let is_one = disk.faults() == 1 && has_modes(disk);
    Ok(is_one && may_end(alloc, disk, fault.as_str())?)
}

/// The same on a new disk.
fn fails_one(alloc: Global, call: u64) -> Result<bool, Fail> {
    let mut disk = MemDisk::new(alloc);
    fails_one_on(alloc, &mut disk, call)
}

#[test]
fn one_fault_fails_one_file(rt: HostRuntime) -> Result<(), Fail> {
    let alloc = rt.alloc();
    let calls = calls_of_both(alloc)?;
    assert!(rt; calls >= 12, "six steps for each file");
    for call in 1..=calls {
        let is_right = fails_one(alloc, call)?;
        assert!(rt; is_right, "call {call}");
    }
    Ok(())
}

/// Rewrites both files on a disk that stops at a call, and gives whether a fault is told.
fn is_stop_told(alloc: Global, disk: &mut MemDisk, call: u64) -> Result<bool, Fail> {
    fill(disk)?;
    disk.stop_at(call);
    let fault = rewritten(alloc, disk, NEW_B, BOTH)?;
    Ok(!fault.is_empty())
}

/// Each file, and what it holds before and after its rewriting.
const OLD_AND_NEW: &[(&str, &[u8], &[u8])] = &[
    ("/t/a.txt", OLD_A, NEW_A),
    ("/t/b.md", OLD_B, NEW_B),
];

/// Whether each file is old or new.
fn are_old_or_new(alloc: Global, disk: &MemDisk) -> Result<bool, Fail> {
    for (path, old, new) in OLD_AND_NEW {
        if !holds(alloc, disk, path, old)? && !holds(alloc, disk, path, new)? {
            return Ok(false);
        }
    }
    Ok(true)
}

/// Whether a stop at a call is told, and leaves each file old or new.
fn stops_on(alloc: Global, disk: &mut MemDisk, call: u64) -> Result<bool, Fail> {
    Ok(is_stop_told(alloc, disk, call)? && are_old_or_new(alloc, disk)?)
}

/// The same on a new disk.
fn stops(alloc: Global, call: u64) -> Result<bool, Fail> {
    let mut disk = MemDisk::new(alloc);
    stops_on(alloc, &mut disk, call)
}

#[test]
fn a_disk_that_stops_leaves_each_file_old_or_new(rt: HostRuntime) -> Result<(), Fail> {
    let alloc = rt.alloc();
    for call in 1..=calls_of_both(alloc)? {
        let is_right = stops(alloc, call)?;
        assert!(rt; is_right, "call {call}");
    }
    Ok(())
}

const SHOWN: &[u8] = b"----- FILE /t/a.txt -----\n1 two 1\n----- FILE /t/b.md -----\n1\n";

/// What is told of a preview that fails.
const FAILED: &str = "input or output failed";

/// Shows both files into a sink that fails, and gives whether that is told and what was written is a start of all.
fn fails_in(alloc: Global, disk: &mut MemDisk, out: &mut MemSink) -> Result<bool, Fail> {
    let is_told = ends_with(alloc, disk, out, BOTH, FAILED)?;
    Ok(is_told && SHOWN.starts_with(out.bytes()) && out.faults() == 1)
}

/// The same on an empty disk that it fills, in a sink with room for so many bytes.
fn fails_for_room_on(alloc: Global, disk: &mut MemDisk, room: usize) -> Result<bool, Fail> {
    fill(disk)?;
    let mut out = sink(alloc, room)?;
    fails_in(alloc, disk, &mut out)
}

/// The same on a new disk.
fn fails_for_room(alloc: Global, room: usize) -> Result<bool, Fail> {
    let mut disk = MemDisk::new(alloc);
    fails_for_room_on(alloc, &mut disk, room)
}

#[test]
fn a_sink_that_fails_ends_a_preview(rt: HostRuntime) -> Result<(), Fail> {
    let alloc = rt.alloc();
    for room in 0..SHOWN.len() {
        let is_right = fails_for_room(alloc, room)?;
        assert!(rt; is_right, "room for {room}");
    }
    Ok(())
}

/// The text of the first of both files.
const FIRST: &str = "----- FILE /t/a.txt -----\n1 two 1\n";

/// Whether a preview of both files ends after this text where a call fails.
fn ends_after_on(
    alloc: Global,
    disk: &mut MemDisk,
    call: u64,
    text: &'static str,
) -> Result<bool, Fail> {
    fill(disk)?;
    disk.fail_at(call)?;
    is_right_on(alloc, disk, &(BOTH, text, FAILED))
}

/// The same on a new disk.
fn ends_after(alloc: Global, call: u64, text: &'static str) -> Result<bool, Fail> {
    let mut disk = MemDisk::new(alloc);
    ends_after_on(alloc, &mut disk, call, text)
}

#[test]
fn a_disk_that_fails_ends_a_preview(rt: HostRuntime) -> Result<(), Fail> {
    let alloc = rt.alloc();
    for (call, text) in [(1, ""), (2, FIRST)] {
        let is_right = ends_after(alloc, call, text)?;
        assert!(rt; is_right, "call {call}");
    }
    Ok(())
}
