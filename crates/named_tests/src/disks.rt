//! Small disks, and what stands on them.

use mem_io::{BuildFault, MemDisk};
use sd_base::{NoMemory, Text};
use std::alloc::Global;
use std::test::Fail;

/// What `/t/a.txt` holds at first, and with `1` in place of each `one`.
pub(crate) const OLD_A: &[u8] = b"one two one";

pub(crate) const NEW_A: &[u8] = b"1 two 1";

/// What `/t/b.md` holds at first, and so.
pub(crate) const OLD_B: &[u8] = b"one";

pub(crate) const NEW_B: &[u8] = b"1";

/// Two files that hold `one`, one that doesn't, and an empty one, each with its bytes and its mode.
const FILES: &[(&str, &[u8], u32)] = &[
    ("/t/a.txt", OLD_A, 0o640),
    ("/t/b.md", OLD_B, 0o600),
    ("/t/two", b"two", 0o640),
    ("/t/empty", b"", 0o640),
];

/// Adds a file to a disk.
fn add_file(disk: &mut MemDisk, path: &str, bytes: &[u8], mode: u32) -> Result<(), BuildFault> {
    disk.add_file(path, bytes, mode)
}

/// Adds the folder of all files to a disk.
fn add_folder(disk: &mut MemDisk) -> Result<(), BuildFault> {
    disk.add_dir("/t")
}

/// Adds a link to the first of the files to a disk.
fn add_link(disk: &mut MemDisk) -> Result<(), BuildFault> {
    disk.add_link("/l", "t/a.txt")
}

/// Adds a folder `/t` with the files to an empty disk, and a link to the first of them.
pub(crate) fn fill(disk: &mut MemDisk) -> Result<(), Fail> {
    add_folder(disk)?;
    for (path, bytes, mode) in FILES {
        add_file(disk, path, bytes, *mode)?;
    }
    add_link(disk)?;
    Ok(())
}

/// Whether the file at a path holds these bytes. No link is followed.
pub(crate) fn holds(alloc: Global, disk: &MemDisk, path: &str, bytes: &[u8]) -> Result<bool, Fail> {
    match disk.read_all(alloc, path)? {
        None => Ok(false),
        Some(held) => Ok(held.as_slice() == bytes),
    }
}

/// Whether the first two files hold these bytes.
pub(crate) fn both_hold(alloc: Global, disk: &MemDisk, a: &[u8], b: &[u8]) -> Result<bool, Fail> {
    Ok(holds(alloc, disk, "/t/a.txt", a)? && holds(alloc, disk, "/t/b.md", b)?)
}

/// Whether the first two files hold these bytes, and the others what they held at first.
pub(crate) fn all_hold(alloc: Global, disk: &MemDisk, a: &[u8], b: &[u8]) -> Result<bool, Fail> {
    Ok(
        both_hold(alloc, disk, a, b)?
            && holds(alloc, disk, "/t/two", b"two")?
            && holds(alloc, disk, "/t/empty", b"")?,
    )
}

/// Whether the first two files have the modes that they were built with, and no temporary file stands beside them.
pub(crate) fn has_modes(disk: &MemDisk) -> bool {
    disk.mode_at("/t/a.txt") == Some(0o640)
        && disk.mode_at("/t/b.md") == Some(0o600)
        && disk.mode_at("/t/.sd-0000.tmp").is_none()
}

/// Whether the files hold what they held at first, and no temporary file stands beside them.
pub(crate) fn is_as_built(alloc: Global, disk: &MemDisk) -> Result<bool, Fail> {
    Ok(disk.mode_at("/t/.sd-0000.tmp").is_none() && all_hold(alloc, disk, OLD_A, OLD_B)?)
}

/// Adds a path to those that have an owner.
fn push_text(alloc: Global, texts: &mut Vec<Text>, path: &str) -> Result<(), NoMemory> {
    let text = Text::new(alloc, path)?;
    texts.push(text)?;
    Ok(())
}

/// Adds these paths to those that have an owner.
fn push_texts(alloc: Global, texts: &mut Vec<Text>, paths: &[&str]) -> Result<(), NoMemory> {
    for path in paths {
        push_text(alloc, texts, path)?;
    }
    Ok(())
}

/// These paths, each with an owner.
pub(crate) fn owned(alloc: Global, paths: &[&str]) -> Result<Vec<Text>, NoMemory> {
    let mut texts = Vec::new(alloc);
    push_texts(alloc, &mut texts, paths)?;
    Ok(texts)
}
