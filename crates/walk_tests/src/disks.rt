//! What stands on the disks.

use mem_io::{BuildFault, MemDisk};
use std::alloc::Global;
use std::test::Fail;

/// What stands at a path: a folder, a file with its bytes, a link with its target, or something else; or the device of what stands there
/// already, and below.
pub(crate) enum Node {
    Folder,
    File(&'static [u8]),
    Link(&'static str),
    Other,
    Device(u64),
}

/// Paths, each with what stands there, folders first.
pub(crate) type Nodes = &'static [(&'static str, Node)];

/// A folder `foo` with `abc`, which holds two empty files, and `def`.
pub(crate) const FOO: Nodes = &[
    ("foo", Node::Folder),
    ("foo/def", Node::File(b"def")),
    ("foo/abc", Node::Folder),
    ("foo/abc/tuv", Node::File(b"")),
    ("foo/abc/qrs", Node::File(b"")),
];

/// Adds a folder to a disk.
fn add_folder(disk: &mut MemDisk, path: &str) -> Result<(), BuildFault> {
    disk.add_dir(path)
}

/// Adds a file to a disk.
fn add_file(disk: &mut MemDisk, path: &str, bytes: &[u8]) -> Result<(), BuildFault> {
    disk.add_file(path, bytes, 0o640)
}

/// Adds a link to a disk.
fn add_link(disk: &mut MemDisk, path: &str, target: &str) -> Result<(), BuildFault> {
    disk.add_link(path, target)
}

/// Adds something else to a disk.
fn add_other(disk: &mut MemDisk, path: &str) -> Result<(), BuildFault> {
    disk.add_other(path)
}

/// Gives what stands at a path another device.
fn set_device(disk: &mut MemDisk, path: &str, device: u64) -> Result<(), BuildFault> {
    disk.set_dev(path, device)
}

/// Adds a node to a disk.
fn add(disk: &mut MemDisk, path: &str, node: &Node) -> Result<(), BuildFault> {
    match node {
        Node::Folder => add_folder(disk, path),
        Node::File(bytes) => add_file(disk, path, bytes),
        Node::Link(target) => add_link(disk, path, target),
        Node::Other => add_other(disk, path),
        Node::Device(device) => set_device(disk, path, *device),
    }
}

/// Adds nodes to a disk, one after the other.
fn fill(disk: &mut MemDisk, nodes: Nodes) -> Result<(), BuildFault> {
    for (path, node) in nodes {
        add(disk, path, node)?;
    }
    Ok(())
}

/// A disk with these nodes.
pub(crate) fn filled(alloc: Global, nodes: Nodes) -> Result<MemDisk, Fail> {
    let mut disk = MemDisk::new(alloc);
    fill(&mut disk, nodes)?;
    Ok(disk)
}

/// Lets these counted calls of a disk fail.
fn fail_at(disk: &mut MemDisk, calls: &[u64]) -> Result<(), Fail> {
    for call in calls {
        disk.fail_at(*call)?;
    }
    Ok(())
}

/// A disk with these nodes, of which these counted calls fail.
pub(crate) fn failing(alloc: Global, nodes: Nodes, calls: &[u64]) -> Result<MemDisk, Fail> {
    let mut disk = filled(alloc, nodes)?;
    fail_at(&mut disk, calls)?;
    Ok(disk)
}
