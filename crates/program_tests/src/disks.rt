//! Small trees, and what stands there, also after a crash.

use mem_io::{BuildFault, MemDisk};
use std::alloc::Global;
use std::test::Fail;

/// What files hold at first, and with `1` in place of each `one`.
pub(crate) const OLD: &[u8] = b"one two one";

pub(crate) const NEW: &[u8] = b"1 two 1";

/// The same of a short file.
pub(crate) const ONE: &[u8] = b"one";

pub(crate) const DIGIT: &[u8] = b"1";

/// What stands at a path: a folder, or a file with its bytes and the mode 0640.
#[derive(Clone, Copy)]
pub(crate) enum Node<'a> {
    Folder,
    File(&'a [u8]),
}

/// A folder with two files.
pub(crate) const TWO_FILES: &[(&str, Node<'static>)] = &[
    ("/t", Node::Folder),
    ("/t/a.txt", Node::File(OLD)),
    ("/t/b.md", Node::File(ONE)),
];

/// Adds a folder to a disk.
fn add_folder(disk: &mut MemDisk, path: &str) -> Result<(), BuildFault> {
    disk.add_dir(path)
}

/// Adds a file to a disk.
pub(crate) fn add_file(disk: &mut MemDisk, path: &str, bytes: &[u8]) -> Result<(), BuildFault> {
    disk.add_file(path, bytes, 0o640)
}

/// Adds a node to a disk.
fn add(disk: &mut MemDisk, path: &str, node: &Node<'_>) -> Result<(), BuildFault> {
    match node {
        Node::Folder => add_folder(disk, path),
        Node::File(bytes) => add_file(disk, path, bytes),
    }
}

/// Adds nodes to a disk, one after the other.
pub(crate) fn fill(disk: &mut MemDisk, nodes: &[(&str, Node<'_>)]) -> Result<(), Fail> {
    for (path, node) in nodes {
        add(disk, path, node)?;
    }
    Ok(())
}

/// A disk with these nodes.
pub(crate) fn filled(alloc: Global, nodes: &[(&str, Node<'_>)]) -> Result<MemDisk, Fail> {
    let mut disk = MemDisk::new(alloc);
    fill(&mut disk, nodes)?;
    Ok(disk)
}

/// Whether a file with these bytes and the mode 0640 stands at a path. No link is followed.
pub(crate) fn holds(alloc: Global, disk: &MemDisk, path: &str, bytes: &[u8]) -> Result<bool, Fail> {
    match disk.read_all(alloc, path)? {
        None => Ok(false),
        Some(held) => Ok(held.as_slice() == bytes && disk.mode_at(path) == Some(0o640)),
    }
}

/// What may stand at a path.
#[derive(Clone, Copy)]
pub(crate) enum Held {
    /// No file.
    Nothing,
    /// A file with these bytes.
    This(&'static [u8]),
    /// A file with the first or the second of these bytes.
    Either(&'static [u8], &'static [u8]),
}

/// Whether a file is as it may be.
pub(crate) fn is_held(alloc: Global, disk: &MemDisk, path: &str, held: Held) -> Result<bool, Fail> {
    match held {
        Held::Nothing => Ok(disk.mode_at(path).is_none()),
        Held::This(bytes) => holds(alloc, disk, path, bytes),
        Held::Either(old, new) => {
            Ok(holds(alloc, disk, path, old)? || holds(alloc, disk, path, new)?)
        }
    }
}

/// The first of these paths at which something else stands.
pub(crate) fn first_otherwise(
    alloc: Global,
    disk: &MemDisk,
    files: &[(&'static str, Held)],
) -> Result<Option<&'static str>, Fail> {
    for (path, held) in files {
        if !is_held(alloc, disk, path, *held)? {
            return Ok(Some(*path));
        }
    }
    Ok(None)
}

/// The first choices of an image.
pub(crate) const CHOICES: u64 = 16;

/// The first of these paths at which something else stands in the image that a crash leaves by a choice.
fn otherwise_in_image(
    alloc: Global,
    disk: &MemDisk,
    choice: u64,
    files: &[(&'static str, Held)],
) -> Result<Option<&'static str>, Fail> {
    let image = disk.crash(alloc, choice)?;
    first_otherwise(alloc, &image, files)
}

/// The first choice of a crash that leaves something else at one of these paths, with that path.
pub(crate) fn first_broken(
    alloc: Global,
    disk: &MemDisk,
    files: &[(&'static str, Held)],
) -> Result<Option<(u64, &'static str)>, Fail> {
    for choice in 0..CHOICES {
        if let Some(path) = otherwise_in_image(alloc, disk, choice, files)? {
            return Ok(Some((choice, path)));
        }
    }
    Ok(None)
}
