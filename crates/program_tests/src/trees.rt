//! Commands on trees, on disks that fail.

use crate::commands::{one_to_digit, swept};
use crate::disks::{Held, NEW, Node, OLD, filled, first_broken, first_otherwise, holds, is_held};
use mem_io::MemDisk;
use std::alloc::Global;
use std::test::Fail;

/// Three files in two folders.
const THREE_FILES: &[(&str, Node<'static>)] = &[
    ("/t", Node::Folder),
    ("/t/a", Node::Folder),
    ("/t/b", Node::Folder),
    ("/t/a/x", Node::File(OLD)),
    ("/t/a/y", Node::File(OLD)),
    ("/t/b/z", Node::File(OLD)),
];

/// The paths of the three files, in the order of names.
const PATHS: &[&str] = &["/t/a/x", "/t/a/y", "/t/b/z"];

/// Puts `1` in place of each `one` in all files below `/t`, and gives what is told.
fn told(alloc: Global, disk: &mut MemDisk) -> Result<String, Fail> {
    swept(alloc, disk, "/t", &["**"], &one_to_digit(alloc))
}

/// Whether each file but that at a path holds these bytes.
fn others_hold(alloc: Global, disk: &MemDisk, path: &str, bytes: &[u8]) -> Result<bool, Fail> {
    for other in PATHS {
        if *other != path && !holds(alloc, disk, other, bytes)? {
            return Ok(false);
        }
    }
    Ok(true)
}

/// The one file that is told to have failed, and why.
fn failed_file<'a>(text: &'a str) -> Option<(&'a str, &'a str)> {
    let jobs = text.strip_prefix("failed processing files:\n\tFailedJobs(\n\t")?;
    jobs.strip_suffix("\n)")?.split_once(": ")
}

const FAILED: &str = "input or output failed";

const UNMOVED: &str = "failed to move file: input or output failed";

/// What a file may hold that failed so: old bytes before its move, and old or new ones from then on.
fn held_after(fault: &str) -> Option<Held> {
    match fault {
        FAILED => Some(Held::This(OLD)),
        UNMOVED => Some(Held::Either(OLD, NEW)),
        _ => None,
    }
}

/// Whether the file at a path is as it may be that failed so, and all others are new.
fn is_one_failed(alloc: Global, disk: &MemDisk, path: &str, fault: &str) -> Result<bool, Fail> {
    match held_after(fault) {
        None => Ok(false),
        Some(held) => Ok(is_held(alloc, disk, path, held)? && others_hold(alloc, disk, path, NEW)?),
    }
}

/// Whether it is told that one file failed, which is as its fault says, and all others are new.
fn has_one_failed(alloc: Global, disk: &MemDisk, text: &str) -> Result<bool, Fail> {
    match failed_file(text) {
        None => Ok(false),
        Some((path, fault)) => is_one_failed(alloc, disk, path, fault),
    }
}

/// Whether a failure of the listing is told, and all files are old.
fn is_unlisted(alloc: Global, disk: &MemDisk, text: &str) -> Result<bool, Fail> {
    let is_told = text == FAILED
        || text.starts_with("IO error for operation on /t") && text.ends_with(FAILED);
    Ok(is_told && others_hold(alloc, disk, "", OLD)?)
}

/// How many calls the command makes on a disk.
fn calls_on(alloc: Global, disk: &mut MemDisk) -> Result<u64, Fail> {
    let text = told(alloc, disk)?;
    match text.as_str() {
        "chosen 3, changed 3, replaced 6" => Ok(disk.calls()),
        _ => Err("not all files are rewritten".into()),
    }
}

/// The same on the three files.
fn calls_of(alloc: Global) -> Result<u64, Fail> {
    let mut disk = filled(alloc, THREE_FILES)?;
    calls_on(alloc, &mut disk)
}

/// What comes of a command on three files while the disk fails.
#[derive(Clone, Copy, PartialEq, Eq)]
enum Outcome {
    /// It is told that nothing was written, and all files are old.
    Unwritten,
    /// Another failure is told, and what the test looks at is as it says.
    AsTold,
    /// What is told or what stands there is wrong.
    Otherwise,
}

/// The mode of one file, and that nothing has a reserved name.
const OTHERS: &[(&str, Held)] = &[
    ("/t/a/x", Held::Either(OLD, NEW)),
    ("/t/a/.sd-0000.tmp", Held::Nothing),
    ("/t/b/.sd-0000.tmp", Held::Nothing),
];

/// What came of a command that told this, where one call failed.
fn outcome_of_fault(alloc: Global, disk: &MemDisk, text: &str) -> Result<Outcome, Fail> {
    if disk.faults() != 1 || first_otherwise(alloc, disk, OTHERS)?.is_some() {
        return Ok(Outcome::Otherwise);
    }
    if is_unlisted(alloc, disk, text)? {
        return Ok(Outcome::Unwritten);
    }
    match has_one_failed(alloc, disk, text)? {
        true => Ok(Outcome::AsTold),
        false => Ok(Outcome::Otherwise),
    }
}

/// What comes of a command of which the call with this number fails.
fn fail_one_call(alloc: Global, disk: &mut MemDisk, call: u64) -> Result<Outcome, Fail> {
    disk.fail_at(call)?;
    let text = told(alloc, disk)?;
    outcome_of_fault(alloc, disk, text.as_str())
}

/// The same on the three files.
fn with_one_fault(alloc: Global, call: u64) -> Result<Outcome, Fail> {
    let mut disk = filled(alloc, THREE_FILES)?;
    fail_one_call(alloc, &mut disk, call)
}

#[test]
fn one_fault_fails_one_file(rt: HostRuntime) -> Result<(), Fail> {
    let calls = calls_of(rt.alloc())?;
    let mut unlisted = 0_u64;
    for call in 1..=calls {
        let outcome = with_one_fault(rt.alloc(), call)?;
        assert!(rt; outcome != Outcome::Otherwise, "call {call}");
        unlisted = unlisted.saturating_add(u64::from(outcome == Outcome::Unwritten));
    }
    // three lists with five entries, and three lengths; then six steps for each file
    assert!(rt;
        unlisted >= 11 && calls.saturating_sub(unlisted) >= 18,
        "{unlisted} of {calls}"
    );
    Ok(())
}

/// What is told where each of the three files fails before anything is written.
const ALL_FAILED: &str =
    "failed processing files:\n\tFailedJobs(\n\t/t/a/x: input or output failed\n\t/t/a/y: input or output failed\n\t/t/b/z: input or output failed\n)";

/// What came of a command that told this, where all calls from one on failed.
fn outcome_of_stop(alloc: Global, disk: &MemDisk, text: &str) -> Result<Outcome, Fail> {
    if text != ALL_FAILED {
        return match text.contains("failed") {
            true => Ok(Outcome::AsTold),
            false => Ok(Outcome::Otherwise),
        };
    }
    match others_hold(alloc, disk, "", OLD)? {
        true => Ok(Outcome::Unwritten),
        false => Ok(Outcome::Otherwise),
    }
}

/// Runs the command on a disk that stops at a call, and gives what is told.
fn stopped(alloc: Global, disk: &mut MemDisk, call: u64) -> Result<String, Fail> {
    disk.stop_at(call);
    told(alloc, disk)
}

/// What comes of a command on a disk that stops at this call.
fn stop(alloc: Global, disk: &mut MemDisk, call: u64) -> Result<Outcome, Fail> {
    let text = stopped(alloc, disk, call)?;
    outcome_of_stop(alloc, disk, text.as_str())
}

/// The same on the three files.
fn with_a_stop(alloc: Global, call: u64) -> Result<Outcome, Fail> {
    let mut disk = filled(alloc, THREE_FILES)?;
    stop(alloc, &mut disk, call)
}

#[test]
fn a_disk_that_stops_fails_all_files_that_are_left(rt: HostRuntime) -> Result<(), Fail> {
    let calls = calls_of(rt.alloc())?;
    let mut all_failed = 0_u64;
    for call in 1..=calls {
        let outcome = with_a_stop(rt.alloc(), call)?;
        assert!(rt; outcome != Outcome::Otherwise, "call {call}");
        all_failed = all_failed.saturating_add(u64::from(outcome == Outcome::Unwritten));
    }
    assert!(rt; all_failed > 0);
    Ok(())
}

/// Each file is old or new.
const WHOLE: &[(&str, Held)] = &[
    ("/t/a/x", Held::Either(OLD, NEW)),
    ("/t/a/y", Held::Either(OLD, NEW)),
    ("/t/b/z", Held::Either(OLD, NEW)),
];

/// The first choice of a crash after which a file is neither old nor new, with its path, where the disk stopped at a call.
fn broken_on(
    alloc: Global,
    disk: &mut MemDisk,
    call: u64,
) -> Result<Option<(u64, &'static str)>, Fail> {
    let _told = stopped(alloc, disk, call)?;
    first_broken(alloc, disk, WHOLE)
}

/// The same on the three files.
fn broken(alloc: Global, call: u64) -> Result<Option<(u64, &'static str)>, Fail> {
    let mut disk = filled(alloc, THREE_FILES)?;
    broken_on(alloc, &mut disk, call)
}

#[test]
fn a_crash_leaves_each_file_old_or_new(rt: HostRuntime) -> Result<(), Fail> {
    let calls = calls_of(rt.alloc())?;
    for call in 1..=calls {
        let broken = broken(rt.alloc(), call)?;
        assert_eq!(rt; broken, None, "call {call}");
    }
    Ok(())
}
