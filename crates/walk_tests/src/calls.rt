//! Calls beside the items of a walk: collecting them up to a cap, devices, and metadata by the walk.

use crate::asking::{MANY_OPEN, Question, asked, collected};
use crate::disks::{FOO, Node, Nodes, filled};
use mem_io::MemDisk;
use std::alloc::Global;
use std::process::Abort;
use std::test::Fail;
use walkdir::{ErrorKind, device_num};

/// `foo` in the disk's order.
const PLAIN: Question = Question {
    root: "foo",
    settings: &[],
    sorts: false,
};

/// Caps, and what collecting a walk of `foo` by each comes to.
const CAPS: &[(u64, Result<usize, ErrorKind>)] = &[
    (5, Ok(5)),
    (u64::MAX, Ok(5)),
    (4, Err(ErrorKind::TooMany)),
    (1, Err(ErrorKind::TooMany)),
];

/// How many entries a walk of `foo` has by a cap, or the kind of its error.
fn collected_of_foo(
    alloc: Global,
    max_open: usize,
    cap: u64,
) -> Result<Result<usize, ErrorKind>, Fail> {
    if cap == 0 {
        return Err("no cap".into());
    }
    let mut disk = filled(alloc, FOO)?;
    collected(alloc, &mut disk, &PLAIN, max_open, cap)
}

/// Collecting a walk of `foo` by each cap comes to what is wanted.
fn check_caps(rt: &(impl Abort + AllocGlobal), max_open: usize) -> Result<(), Fail> {
    for (cap, wanted) in CAPS {
        let given = collected_of_foo(rt.alloc(), max_open, *cap)?;
        assert!(rt; given == *wanted, "{max_open} open, {cap} at most");
    }
    Ok(())
}

#[test]
fn walks_are_collected_up_to_a_cap(rt: HostRuntime) -> Result<(), Fail> {
    for max_open in [1, 2, MANY_OPEN] {
        check_caps(&rt, max_open)?;
    }
    Ok(())
}

/// `foo`, of which `abc` is on another device.
const FOREIGN: Nodes = &[
    ("foo", Node::Folder),
    ("foo/abc", Node::Folder),
    ("foo/abc", Node::Device(2)),
];

/// Paths, and the numbers of the devices of what stands there.
const DEVICES: &[(&str, Option<u64>)] = &[("foo/abc", Some(2)), ("foo", Some(1)), ("none", None)];

/// The number of the device of what stands at a path.
fn device_at(alloc: Global, path: &str) -> Result<Option<u64>, Fail> {
    let mut disk = filled(alloc, FOREIGN)?;
    Ok(device_num(&mut disk, path).ok())
}

#[test]
fn devices_have_numbers(rt: HostRuntime) -> Result<(), Fail> {
    for (path, wanted) in DEVICES {
        let given = device_at(rt.alloc(), path)?;
        assert!(rt; given == *wanted, "{path}");
    }
    Ok(())
}

/// The length of a file that is walked, as the walk tells it of its entry.
fn length_on(alloc: Global, disk: &mut MemDisk, root: &str) -> Result<Option<u64>, Fail> {
    let mut walk = asked(alloc, root, &[])?.into_iter(disk);
    let Some(Ok(entry)) = walk.next() else {
        return Ok(None);
    };
    Ok(walk.metadata(&entry).ok().map(|meta| meta.len))
}

/// The same on the disk of `foo`.
fn length_told(alloc: Global, root: &str) -> Result<Option<u64>, Fail> {
    let mut disk = filled(alloc, FOO)?;
    length_on(alloc, &mut disk, root)
}

#[test]
fn a_walk_asks_for_the_metadata_of_its_entries(rt: HostRuntime) -> Result<(), Fail> {
    let length = length_told(rt.alloc(), "foo/def")?;
    assert_eq!(rt; length, Some(3));
    Ok(())
}
