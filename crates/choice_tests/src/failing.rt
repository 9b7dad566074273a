//! Disks that fail.

use crate::asking::{chooses, chosen};
use crate::disks::{Node, Nodes, fill};
use mem_io::MemDisk;
use std::alloc::Global;
use std::test::Fail;

/// A folder with a file, a folder with a file of its own, and a link: four entries below `/t`.
const FOUR_ENTRIES: Nodes = &[
    ("/t", Node::Folder),
    ("/t/a.txt", Node::File(b"one", 0o640)),
    ("/t/s", Node::Folder),
    ("/t/s/b.txt", Node::File(b"one", 0o640)),
    ("/t/up", Node::Link("/")),
];

const CHOSEN: &str = "/t/a.txt\n/t/s/b.txt\n";

const TOO_MANY: &str = "! too many entries\n";

/// Whether this is the text of a failure of the disk at a place where one can be told: below a folder without a path, else with
/// that of the root, of a folder, or of a file that fits.
fn is_failure(text: &str) -> bool {
    matches!(
        text,
        "! input or output failed\n"
            | "! IO error for operation on /t: input or output failed\n"
            | "! IO error for operation on /t/s: input or output failed\n"
            | "! IO error for operation on /t/a.txt: input or output failed\n"
            | "! IO error for operation on /t/s/b.txt: input or output failed\n"
    )
}

/// Chooses all files below `/t`, with a cap, and gives what is told.
fn all(alloc: Global, disk: &mut MemDisk, cap: u64) -> Result<String, Fail> {
    chosen(alloc, disk, "/t", &["**"], cap)
}

/// Adds the entries to an empty disk, and gives how many calls a choice of all files below `/t` makes.
fn calls_on(alloc: Global, disk: &mut MemDisk) -> Result<u64, Fail> {
    fill(disk, FOUR_ENTRIES)?;
    let _chosen = all(alloc, disk, 1000)?;
    Ok(disk.calls())
}

/// How many calls a choice of all files below `/t` makes.
fn calls_of_a_choice(alloc: Global) -> Result<u64, Fail> {
    let mut disk = MemDisk::new(alloc);
    calls_on(alloc, &mut disk)
}

/// Adds the entries to an empty disk of which the call with this number fails.
fn fill_failing(disk: &mut MemDisk, call: u64) -> Result<(), Fail> {
    fill(disk, FOUR_ENTRIES)?;
    disk.fail_at(call)?;
    Ok(())
}

/// Whether a choice of all files tells a failure.
fn tells_failure(alloc: Global, disk: &mut MemDisk) -> Result<bool, Fail> {
    let given = all(alloc, disk, 1000)?;
    Ok(is_failure(given.as_str()))
}

/// Whether a choice on a disk of which a call fails tells that, and the next one chooses all.
fn fails_once_on(alloc: Global, disk: &mut MemDisk, call: u64) -> Result<bool, Fail> {
    fill_failing(disk, call)?;
    let is_told = tells_failure(alloc, disk)? && disk.faults() == 1;
    Ok(is_told && chooses(alloc, disk, "/t", &["**"], 1000, CHOSEN)?)
}

/// The same on a new disk.
fn fails_once(alloc: Global, call: u64) -> Result<bool, Fail> {
    let mut disk = MemDisk::new(alloc);
    fails_once_on(alloc, &mut disk, call)
}

#[test]
fn each_failing_call_is_told(rt: HostRuntime) -> Result<(), Fail> {
    let alloc = rt.alloc();
    let calls = calls_of_a_choice(alloc)?;
    assert!(rt; calls >= 10, "two lists with four entries, and two lengths");
    for call in 1..=calls {
        let is_right = fails_once(alloc, call)?;
        assert!(rt; is_right, "call {call}");
    }
    Ok(())
}

/// Whether a choice with a cap that is too small tells the failure of a call where there was one, else the cap.
fn tells_first_on(alloc: Global, disk: &mut MemDisk, call: u64) -> Result<bool, Fail> {
    fill_failing(disk, call)?;
    let given = all(alloc, disk, 4)?;
    if disk.faults() == 0 {
        Ok(given.as_str() == TOO_MANY)
    } else {
        Ok(is_failure(given.as_str()))
    }
}

/// The same on a new disk.
fn tells_first(alloc: Global, call: u64) -> Result<bool, Fail> {
    let mut disk = MemDisk::new(alloc);
    tells_first_on(alloc, &mut disk, call)
}

#[test]
fn a_fault_or_the_cap_is_told_by_what_comes_first(rt: HostRuntime) -> Result<(), Fail> {
    let alloc = rt.alloc();
    for call in 1..=calls_of_a_choice(alloc)? {
        let is_right = tells_first(alloc, call)?;
        assert!(rt; is_right, "call {call}");
    }
    Ok(())
}
