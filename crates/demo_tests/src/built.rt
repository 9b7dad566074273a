//! The tree of a demo.

use demo_tree::demo_disk;
use mem_io::MemDisk;
use sd_io::{Disk, Kind};
use std::alloc::Global;
use std::process::Abort;
use std::test::Fail;

/// Paths of regular files, each with its text.
type Files = &'static [(&'static str, &'static str)];

/// Paths, each with the kind of what stands there.
type Kinds = &'static [(&'static str, Option<Kind>)];

/// How many files a demo has, some of them, and what stands at some paths.
type Case = (u64, Files, Kinds);

const CASES: &[Case] = &[
    (
        3,
        &[
            ("/demo/d00/f00000000.txt", ""),
            ("/demo/d01/f00000001.txt", "one two 1 one\n"),
            ("/demo/d02/f00000002.md", "one two 2 one\none two 2 one\n"),
        ],
        &[
            ("/demo/d02", Some(Kind::Directory)),
            ("/demo/d03", None),
            ("/demo/d03/f00000003.txt", None),
        ],
    ),
    (
        0,
        &[],
        &[("/demo", Some(Kind::Directory)), ("/demo/d00", None)],
    ),
    (
        100000,
        &[
            (
                "/demo/d15/f00099999.txt",
                "one two 99999 one\none two 99999 one\none two 99999 one\none two 99999 one\n",
            ),
            (
                "/demo/d14/f00099998.md",
                "one two 99998 one\none two 99998 one\none two 99998 one\n",
            ),
        ],
        &[("/demo/d00/f00100000.md", None)],
    ),
];

/// Whether a regular file of the mode 0644 holds this text.
fn holds(alloc: Global, disk: &MemDisk, path: &str, text: &str) -> Result<bool, Fail> {
    match disk.read_all(alloc, path)? {
        None => Ok(false),
        Some(bytes) => Ok(bytes.as_slice() == text.as_bytes() && disk.mode_at(path) == Some(0o644)),
    }
}

/// The files of a demo hold their texts.
fn check_files(rt: &(impl Abort + AllocGlobal), disk: &MemDisk, files: Files) -> Result<(), Fail> {
    for (path, text) in files {
        let holds = holds(rt.alloc(), disk, path, text)?;
        assert!(rt; holds, "{path}");
    }
    Ok(())
}

/// The kind of what stands at a path.
fn kind_at(disk: &mut MemDisk, path: &str) -> Option<Kind> {
    match disk.stat(path, false) {
        Ok(meta) => Some(meta.kind),
        Err(_) => None,
    }
}

/// These kinds stand in a demo.
fn check_kinds(rt: &(impl Abort + AllocGlobal), disk: &mut MemDisk, kinds: Kinds) {
    for (path, kind) in kinds {
        assert!(rt; kind_at(disk, path) == *kind, "{path}");
    }
}

/// A demo is built as the row says, with no call of its disk.
fn check_on(rt: &(impl Abort + AllocGlobal), disk: &mut MemDisk, case: &Case) -> Result<(), Fail> {
    assert!(rt; disk.calls() == 0);
    check_kinds(rt, disk, case.2);
    check_files(rt, disk, case.1)
}

/// The demo of so many files.
fn demo(alloc: Global, files: u64) -> Result<MemDisk, Fail> {
    if files > 100000 {
        return Err("more files than a demo has".into());
    }
    Ok(demo_disk(alloc, files)?)
}

#[test]
fn demos_are_built_with_their_files(rt: HostRuntime) -> Result<(), Fail> {
    for case in CASES {
        let mut disk = demo(rt.alloc(), case.0)?;
        check_on(&rt, &mut disk, case)?;
    }
    Ok(())
}
