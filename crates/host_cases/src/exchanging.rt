//! The calls by which a file gets new bytes, on one disk.

use crate::Answer;
use crate::answers::bytes;
use crate::telling::listed;
use case_reader::Case;
use sd_io::{Disk, DiskFault};
use std::alloc::Global;

/// A folder, the name of a file in it, bytes: what the file holds then. The folder is listed before, so that the disk knows what it told.
pub fn exchange<D: Disk>(alloc: Global, disk: &mut D, case: &Case<'_>) -> Answer {
    let folder = case.line().text(alloc, 0)?;
    let name = case.line().text(alloc, 1)?;
    let new_bytes = case.line().bytes(alloc, 2)?;
    let path = format!(in alloc; "{folder}/{name}")?;
    bytes(alloc, exchanged(alloc, disk, &folder, &path, &new_bytes))
}

/// Lists a folder, gives a file in it other bytes, and reads it.
fn exchanged<D: Disk>(
    alloc: Global,
    disk: &mut D,
    folder: &str,
    path: &str,
    new_bytes: &[u8],
) -> Result<Vec<u8>, DiskFault> {
    let _entries = listed(alloc, disk, folder)?;
    let own = disk.resolve(alloc, path)?;
    let temporary = format!(in alloc; "{}.new", own.as_str())?;
    disk.create_like(&temporary, own.as_str())?;
    disk.write_file(&temporary, new_bytes)?;
    disk.sync(&temporary)?;
    disk.rename(&temporary, own.as_str())?;
    disk.sync_dir(folder)?;
    disk.read_file(alloc, own.as_str())
}
