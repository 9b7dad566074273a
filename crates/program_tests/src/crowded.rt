//! A folder whose reserved names are all taken.

use crate::disks::{DIGIT, Held, Node, ONE, add_file, fill, first_otherwise};
use crate::running::run_given;
use mem_io::MemDisk;
use std::alloc::Global;
use std::process::Abort;
use std::test::Fail;

/// Two folders with a file each.
const FOLDERS: &[(&str, Node<'static>)] = &[
    ("/t", Node::Folder),
    ("/t/a", Node::Folder),
    ("/t/b", Node::Folder),
    ("/t/a/x", Node::File(ONE)),
    ("/t/b/y", Node::File(ONE)),
];

/// Adds the file with a reserved name.
fn add_reserved(alloc: Global, disk: &mut MemDisk, number: u16) -> Result<(), Fail> {
    let path = format!(in alloc; "/t/a/.sd-{number:04x}.tmp")?;
    Ok(add_file(disk, path.as_str(), b"")?)
}

/// Adds `/t/a` with `x` and all reserved names, and `/t/b` with `y`.
fn crowd(alloc: Global, disk: &mut MemDisk) -> Result<(), Fail> {
    fill(disk, FOLDERS)?;
    for number in 0..=u16::MAX {
        add_reserved(alloc, disk, number)?;
    }
    Ok(())
}

/// A command, and the error that it shows.
type Refused = (&'static [&'static str], &'static [u8]);

/// The words show their error on a disk, and print nothing.
fn check_error(
    rt: &(impl Abort + AllocGlobal),
    disk: &mut MemDisk,
    refused: Refused,
) -> Result<(), Fail> {
    let (words, err) = refused;
    let ran = run_given(rt.alloc(), disk, words, b"", 0)?;
    assert!(rt; ran.err.as_slice() == err);
    assert!(rt; ran.outcome.status == 1);
    Ok(())
}

/// The file whose folder has no free reserved name fails, and the other is rewritten.
const ROOT: Refused = (
    &["--root", "/t", "--", "one", "1", "*/x", "*/y"],
    b"error: failed processing files:\n\tFailedJobs(\n\t/t/a/x: no free temporary name\n)\n",
);

/// What is left of both files, and of the first and the last file with a reserved name.
const LEFT: &[(&str, Held)] = &[
    ("/t/a/x", Held::This(ONE)),
    ("/t/b/y", Held::This(DIGIT)),
    ("/t/a/.sd-0000.tmp", Held::This(b"")),
    ("/t/a/.sd-ffff.tmp", Held::This(b"")),
];

/// The same file fails where it is named.
const NAMED: Refused = (
    &["--", "one", "1", "/t/a/none", "/t/a/x", "/t/a"],
    b"error: failed processing files:\n\tFailedJobs(\n\t/t/a/none: no such file or directory\n\
        \t/t/a/x: no free temporary name\n\t/t/a: no such file or directory\n)\n",
);

/// The files are so.
fn check_files(
    rt: &(impl Abort + AllocGlobal),
    disk: &MemDisk,
    files: &[(&'static str, Held)],
) -> Result<(), Fail> {
    let path = first_otherwise(rt.alloc(), disk, files)?;
    assert_eq!(rt; path, None);
    Ok(())
}

/// Fills a disk, and does both. No call of it fails.
fn check_crowded(rt: &(impl Abort + AllocGlobal), disk: &mut MemDisk) -> Result<(), Fail> {
    crowd(rt.alloc(), disk)?;
    check_error(rt, disk, ROOT)?;
    check_files(rt, disk, LEFT)?;
    check_error(rt, disk, NAMED)?;
    check_files(rt, disk, LEFT)?;
    assert_eq!(rt; disk.faults(), 0);
    Ok(())
}

#[test]
fn a_folder_without_a_free_reserved_name_is_a_failed_job(rt: HostRuntime) -> Result<(), Fail> {
    let mut disk = MemDisk::new(rt.alloc());
    check_crowded(&rt, &mut disk)
}
