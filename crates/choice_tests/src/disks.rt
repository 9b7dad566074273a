//! What stands on the disks.

use mem_io::{BuildFault, MemDisk};
use std::test::Fail;

/// What stands at a path: a folder, a file with its bytes and its mode, or a link with its target.
pub(crate) enum Node {
    Folder,
    File(&'static [u8], u32),
    Link(&'static str),
}

/// Paths, each with what stands there, folders first.
pub(crate) type Nodes = &'static [(&'static str, Node)];

/// Adds a folder to a disk.
fn add_folder(disk: &mut MemDisk, path: &str) -> Result<(), BuildFault> {
    disk.add_dir(path)
}

/// Adds a file to a disk.
fn add_file(disk: &mut MemDisk, path: &str, bytes: &[u8], mode: u32) -> Result<(), BuildFault> {
    disk.add_file(path, bytes, mode)
}

/// Adds a link to a disk.
fn add_link(disk: &mut MemDisk, path: &str, target: &str) -> Result<(), BuildFault> {
    disk.add_link(path, target)
}

/// Adds a node to a disk.
fn add(disk: &mut MemDisk, path: &str, node: &Node) -> Result<(), BuildFault> {
    match node {
        Node::Folder => add_folder(disk, path),
        Node::File(bytes, mode) => add_file(disk, path, bytes, *mode),
        Node::Link(target) => add_link(disk, path, target),
    }
}

/// Adds nodes to a disk, one after the other.
pub(crate) fn fill(disk: &mut MemDisk, nodes: Nodes) -> Result<(), Fail> {
    for (path, node) in nodes {
        add(disk, path, node)?;
    }
    Ok(())
}
