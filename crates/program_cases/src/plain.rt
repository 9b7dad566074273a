//! Calls of a disk without what is promised of them, so that those who call them are quickly proved.

ghost use Rattle.std.specs.Prelude.{OnOk};
ghost use Rattle.sd_io.specs.Lists.{IsOpen};

use mem_io::{BuildFault, MemDisk};
use sd_io::{Disk, DiskFault, Ident, Kind, ListId, Meta, NoMemory, RawEntry, Text};
use std::alloc::Global;

/// What stands at a path.
pub fn stat<D: Disk>(disk: &mut D, path: &str, follow: bool) -> Result<Meta, DiskFault> {
    disk.stat(path, follow)
}

/// The node that a path leads to.
pub fn ident<D: Disk>(disk: &mut D, path: &str) -> Result<Ident, DiskFault> {
    disk.ident(path)
}

/// Whether two paths lead to one node.
pub fn are_same<D: Disk>(disk: &mut D, left: &str, right: &str) -> Result<bool, DiskFault> {
    let node = ident(disk, left)?;
    Ok(ident(disk, right)? == node)
}

/// The path that a path leads to.
pub fn resolve<D: Disk>(alloc: Global, disk: &mut D, path: &str) -> Result<Text, DiskFault> {
    disk.resolve(alloc, path)
}

/// The bytes of the file that a path leads to.
pub fn read_file<D: Disk>(alloc: Global, disk: &mut D, path: &str) -> Result<Vec<u8>, DiskFault> {
    disk.read_file(alloc, path)
}

/// Makes a file with the mode of another.
pub fn create_like<D: Disk>(disk: &mut D, path: &str, like: &str) -> Result<(), DiskFault> {
    disk.create_like(path, like)
}

/// Gives a file other bytes.
pub fn write_file<D: Disk>(disk: &mut D, path: &str, bytes: &[u8]) -> Result<(), DiskFault> {
    disk.write_file(path, bytes)
}

/// Puts the bytes of a file on the medium.
pub fn sync<D: Disk>(disk: &mut D, path: &str) -> Result<(), DiskFault> {
    disk.sync(path)
}

/// Renames a file.
pub fn rename<D: Disk>(disk: &mut D, from: &str, to: &str) -> Result<(), DiskFault> {
    disk.rename(from, to)
}

/// Removes a file.
pub fn remove<D: Disk>(disk: &mut D, path: &str) -> Result<(), DiskFault> {
    disk.remove(path)
}

/// Puts the names in a folder on the medium.
pub fn sync_dir<D: Disk>(disk: &mut D, path: &str) -> Result<(), DiskFault> {
    disk.sync_dir(path)
}

/// Opens a list of a folder, which stays open.
pub fn open<D: Disk>(disk: &mut D, path: &str) -> Result<(), DiskFault> {
    let _list = disk.open_dir(path)?;
    Ok(())
}

/// Opens a list of a folder, and gives what it answers first.
pub fn first_entry<D: Disk>(
    alloc: Global,
    disk: &mut D,
    path: &str,
) -> Result<Option<RawEntry>, DiskFault> {
    let list = disk.open_dir(path)?;
    disk.next_entry(alloc, list)
}

/// The name of a kind.
pub fn kind_name(kind: Kind) -> &'static str {
    match kind {
        Kind::Directory => "Directory",
        Kind::Link => "Link",
        Kind::File => "File",
        Kind::Other => "Other",
    }
}

/// Adds an entry to others, behind a space: its name and its kind.
fn push_entry(names: &mut String, entry: &RawEntry) -> Result<(), DiskFault> {
    let (name, kind) = (entry.name.as_str(), kind_name(entry.kind));
    write!(names, " {name} {kind}").map_err(|_| DiskFault::NoMemory)
}

/// The same with the next entry of a list. Tells whether there was one.
fn push_next<D: Disk>(
    alloc: Global,
    disk: &mut D,
    list: ListId,
    names: &mut String,
) -> Result<bool, DiskFault>
    requires { IsOpen (D.state disk.old) list.number }
    ensures { OnOk result (IsOpen (D.state disk.new) list.number) }
{
    match disk.next_entry(alloc, list)? {
        None => Ok(false),
        Some(entry) => {
            push_entry(names, &entry)?;
            Ok(true)
        }
    }
}

/// Adds the first three entries of a list to others, and whether there are more.
fn push_names<D: Disk>(
    alloc: Global,
    disk: &mut D,
    list: ListId,
    names: &mut String,
) -> Result<bool, DiskFault>
    requires { IsOpen (D.state disk.old) list.number }
{
    let mut rest = String::new(alloc);
    Ok(
        push_next(alloc, disk, list, names)?
            && push_next(alloc, disk, list, names)?
            && push_next(alloc, disk, list, names)?
            && push_next(alloc, disk, list, &mut rest)?,
    )
}

/// The names and kinds of the first three entries of a folder, each behind a space, and whether there are more. The list is closed then.
pub fn names<D: Disk>(alloc: Global, disk: &mut D, path: &str) -> Result<String, DiskFault> {
    let list = disk.open_dir(path)?;
    let mut names = String::new(alloc);
    if push_names(alloc, disk, list, &mut names)? {
        names
            .push_str(" and more")
            .map_err(|_| DiskFault::NoMemory)?;
    }
    disk.close_dir(list);
    Ok(names)
}

/// Sets the device of what stands at a path and below.
pub fn set_dev(disk: &mut MemDisk, path: &str, dev: u64) -> Result<(), BuildFault> {
    disk.set_dev(path, dev)
}

/// Lets a call fail.
pub fn fail_at(disk: &mut MemDisk, call: u64) -> Result<(), NoMemory> {
    disk.fail_at(call)
}
