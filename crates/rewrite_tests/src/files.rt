//! One file.

use crate::replacers::{Nothing, Text};
use file_rewrite::{JobFault, Rewrite, replace_file};
use mem_io::{BuildFault, MemDisk};
use sd_io::DiskFault;
use std::alloc::Global;
use std::process::Abort;
use std::test::Fail;

/// Adds a file, an empty file, a folder and a link to the file.
fn fill(disk: &mut MemDisk) -> Result<(), BuildFault> {
    disk.add_dir("/t")?;
    disk.add_file("/t/a.txt", b"one two one", 0o640)?;
    disk.add_file("/t/empty", b"", 0o600)?;
    disk.add_link("/l", "t/a.txt")
}

/// A disk with a file, an empty file, a folder and a link to the file.
pub fn small_disk(alloc: Global) -> Result<MemDisk, Fail> {
    let mut disk = MemDisk::new(alloc);
    fill(&mut disk)?;
    Ok(disk)
}

/// Paths, each with the bytes and the mode of the file there, or none.
pub type Left = &'static [(&'static str, Option<(&'static [u8], u32)>)];

/// Whether a file with these bytes and this mode stands at a path, or none does.
fn is_left(
    alloc: Global,
    disk: &MemDisk,
    path: &str,
    file: Option<(&'static [u8], u32)>,
) -> Result<bool, Fail> {
    match (disk.read_all(alloc, path)?, file) {
        (None, None) => Ok(true),
        (Some(held), Some((bytes, mode))) => {
            Ok(held.as_slice() == bytes && disk.mode_at(path) == Some(mode))
        }
        _ => Ok(false),
    }
}

/// Whether all of these files are left.
pub fn are_left(alloc: Global, disk: &MemDisk, files: Left) -> Result<bool, Fail> {
    for (path, file) in files {
        if !is_left(alloc, disk, path, *file)? {
            return Ok(false);
        }
    }
    Ok(true)
}

/// Rewrites the file at a path, to this text or to what it is.
fn answer_of(
    alloc: Global,
    disk: &mut MemDisk,
    path: &str,
    becomes: Option<&'static [u8]>,
) -> Result<Rewrite, JobFault> {
    match becomes {
        Some(text) => replace_file(alloc, disk, &Text { alloc, text }, path),
        None => replace_file(alloc, disk, &Nothing, path),
    }
}

/// What is told of that: whether the file changed, and how many spans of it were replaced, or the fault.
fn told(
    alloc: Global,
    disk: &mut MemDisk,
    path: &str,
    becomes: Option<&'static [u8]>,
) -> Result<String, Fail> {
    match answer_of(alloc, disk, path, becomes) {
        Ok(Rewrite { changed, replaced }) => Ok(format!(in alloc; "{changed} {replaced}")?),
        Err(fault) => Ok(format!(in alloc; "{fault}")?),
    }
}

/// A name, a path, what its bytes become (they stay where it is none), what is told, how many calls of the disk there are, and what is
/// left.
type Case = (
    &'static str,
    &'static str,
    Option<&'static [u8]>,
    &'static str,
    u64,
    Left,
);

/// The file as it was, with no temporary file beside it.
const OLD: Left = &[
    ("/t/a.txt", Some((b"one two one", 0o640))),
    ("/t/.sd-0000.tmp", None),
];

const NEW: Left = &[
    ("/t/a.txt", Some((b"new", 0o640))),
    ("/t/.sd-0000.tmp", None),
    ("/l", None),
];

const NO_PATH: &str = "file doesn't have parent path";

const ABSENT: &str = "no such file or directory";

const CASES: &[Case] = &[
    (
        "a file gets its new bytes",
        "/t/a.txt",
        Some(b"1 two 1"),
        "true 1",
        CALLS,
        &[
            ("/t/a.txt", Some((b"1 two 1", 0o640))),
            ("/t/.sd-0000.tmp", None),
        ],
    ),
    (
        "links are followed",
        "/l",
        Some(b"new"),
        "true 1",
        CALLS,
        NEW,
    ),
    // what does not change is resolved and read, and not written
    (
        "the same bytes are not written",
        "/t/a.txt",
        Some(b"one two one"),
        "false 1",
        2,
        OLD,
    ),
    (
        "where nothing is replaced nothing is written",
        "/t/a.txt",
        None,
        "false 0",
        2,
        OLD,
    ),
    (
        "an empty file is not written",
        "/t/empty",
        Some(b"one two one"),
        "false 0",
        2,
        &[("/t/empty", Some((b"", 0o600)))],
    ),
    ("an empty path is refused", "", Some(b"x"), NO_PATH, 0, OLD),
    ("the top is refused", "//", Some(b"x"), NO_PATH, 0, OLD),
    ("a folder is refused", "/t", Some(b"x"), ABSENT, 2, OLD),
    ("nothing is refused", "/t/none", Some(b"x"), ABSENT, 1, OLD),
];

/// A case ends as it says on this disk.
fn check_on(rt: &(impl Abort + AllocGlobal), disk: &mut MemDisk, case: &Case) -> Result<(), Fail> {
    let told = told(rt.alloc(), disk, case.1, case.2)?;
    assert_eq!(rt; told.as_str(), case.3, "{}", case.0);
    assert_eq!(rt; (disk.calls(), disk.faults()), (case.4, 0), "{}", case.0);
    let are_left = are_left(rt.alloc(), disk, case.5)?;
    assert!(rt; are_left, "{}", case.0);
    Ok(())
}

#[test]
fn a_file_is_rewritten_or_refused(rt: HostRuntime) -> Result<(), Fail> {
    for case in CASES {
        let mut disk = small_disk(rt.alloc())?;
        check_on(&rt, &mut disk, case)?;
    }
    Ok(())
}

/// The counted calls on the way: `resolve`, `read_file`, `create_like`, `write_file`, `sync`, `rename`, `sync_dir`.
const CALLS: u64 = 7;

/// What is told where a call fails: of the step, and from the move on of that.
fn told_of(call: u64) -> &'static str {
    if call >= 6 {
        "failed to move file: input or output failed"
    } else {
        "input or output failed"
    }
}

/// A call that fails is told by its step, and leaves the file old, or old or new from the move on.
fn check_failing(
    rt: &(impl Abort + AllocGlobal),
    disk: &mut MemDisk,
    call: u64,
) -> Result<(), Fail> {
    let told = told(rt.alloc(), disk, "/t/a.txt", Some(b"new"))?;
    assert_eq!(rt; told.as_str(), told_of(call));
    assert_eq!(rt; disk.faults(), 1);
    let is_old = are_left(rt.alloc(), disk, OLD)?;
    let is_new = are_left(rt.alloc(), disk, NEW)?;
    assert!(rt; is_old || (call >= 6 && is_new), "call {call}");
    Ok(())
}

#[test]
fn each_fault_is_told_by_its_step(rt: HostRuntime) -> Result<(), Fail> {
    for call in 1..=CALLS {
        let mut disk = small_disk(rt.alloc())?;
        disk.fail_at(call)?;
        check_failing(&rt, &mut disk, call)?;
    }
    Ok(())
}

/// Faults with their texts.
const FAULTS: &[(JobFault, &str)] = &[
    (
        JobFault::TempfilePersist(DiskFault::Failed),
        "failed to move file: input or output failed",
    ),
    (JobFault::File(DiskFault::Absent), ABSENT),
    (JobFault::InvalidPath, NO_PATH),
    (JobFault::TempName, "no free temporary name"),
];

#[test]
fn faults_have_texts(rt: HostRuntime) -> Result<(), Fail> {
    for (fault, text) in FAULTS {
        let given = format!(in rt.alloc(); "{fault}")?;
        assert_eq!(rt; given.as_str(), *text);
    }
    Ok(())
}
