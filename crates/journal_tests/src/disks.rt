//! What stands on the disks.

use mem_io::{BuildFault, MemDisk};
use std::alloc::Global;
use std::test::Fail;

/// What stands at a path: a folder, a file with its bytes, a link with its target, or something else.
pub(crate) enum Node {
    Folder,
    File(&'static [u8]),
    Link(&'static str),
    Other,
}

/// Paths, each with what stands there, folders first.
pub(crate) type Nodes = &'static [(&'static str, Node)];

/// Two files, both "one".
const TWO_FILES: Nodes = &[
    ("/t", Node::Folder),
    ("/t/a", Node::Folder),
    ("/t/a/x", Node::File(b"one")),
    ("/t/y", Node::File(b"one")),
];

/// The mode of each file.
const MODE: u32 = 0o640;

/// Adds a folder to a disk.
fn add_folder(disk: &mut MemDisk, path: &str) -> Result<(), BuildFault> {
    disk.add_dir(path)
}

/// Adds a file to a disk.
fn add_file(disk: &mut MemDisk, path: &str, bytes: &[u8]) -> Result<(), BuildFault> {
    disk.add_file(path, bytes, MODE)
}

/// Adds a link to a disk.
fn add_link(disk: &mut MemDisk, path: &str, target: &str) -> Result<(), BuildFault> {
    disk.add_link(path, target)
}

/// Adds something else to a disk.
fn add_other(disk: &mut MemDisk, path: &str) -> Result<(), BuildFault> {
    disk.add_other(path)
}

/// Adds a node to a disk.
fn add(disk: &mut MemDisk, path: &str, node: &Node) -> Result<(), BuildFault> {
    match node {
        Node::Folder => add_folder(disk, path),
        Node::File(bytes) => add_file(disk, path, bytes),
        Node::Link(target) => add_link(disk, path, target),
        Node::Other => add_other(disk, path),
    }
}

/// Adds nodes to a disk, one after the other.
fn fill(disk: &mut MemDisk, nodes: Nodes) -> Result<(), BuildFault> {
    for (path, node) in nodes {
        add(disk, path, node)?;
    }
    Ok(())
}

/// Adds both files to a disk, and then these nodes.
fn fill_more(disk: &mut MemDisk, nodes: Nodes) -> Result<(), BuildFault> {
    fill(disk, TWO_FILES)?;
    fill(disk, nodes)
}

/// A disk with both files, and these nodes.
pub(crate) fn filled(alloc: Global, nodes: Nodes) -> Result<MemDisk, Fail> {
    let mut disk = MemDisk::new(alloc);
    fill_more(&mut disk, nodes)?;
    Ok(disk)
}

/// Paths, each with the bytes of the file there, or none.
pub(crate) type Left = &'static [(&'static str, Option<&'static [u8]>)];

/// Whether a file with these bytes stands at a path, or none does.
fn is_left(
    alloc: Global,
    disk: &MemDisk,
    path: &str,
    bytes: Option<&'static [u8]>,
) -> Result<bool, Fail> {
    match (disk.read_all(alloc, path)?, bytes) {
        (None, None) => Ok(true),
        (Some(held), Some(bytes)) => Ok(
            held.as_slice() == bytes && disk.mode_at(path) == Some(MODE),
        ),
        _ => Ok(false),
    }
}

/// Whether all of these files are left, each with its mode.
pub(crate) fn are_left(alloc: Global, disk: &MemDisk, files: Left) -> Result<bool, Fail> {
    for (path, bytes) in files {
        if !is_left(alloc, disk, path, *bytes)? {
            return Ok(false);
        }
    }
    Ok(true)
}
