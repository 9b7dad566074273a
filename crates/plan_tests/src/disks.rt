//! Small disks, and what stands on them.

use mem_io::MemDisk;
use std::alloc::Global;
use std::test::Fail;

/// Adds to an empty disk a folder `/t` with the files `x` and `y`, which hold these bytes, an empty file, and a link to the first.
pub(crate) fn fill(disk: &mut MemDisk, x: &[u8], y: &[u8]) -> Result<(), Fail> {
    disk.add_dir("/t")?;
    disk.add_file("/t/x", x, 0o640)?;
    disk.add_file("/t/y", y, 0o600)?;
    disk.add_file("/t/empty", b"", 0o600)?;
    disk.add_link("/l", "t/x")?;
    Ok(())
}

/// Whether the file at a path holds these bytes. No link is followed.
pub(crate) fn holds(alloc: Global, disk: &MemDisk, path: &str, bytes: &[u8]) -> Result<bool, Fail> {
    match disk.read_all(alloc, path)? {
        None => Ok(false),
        Some(held) => Ok(held.as_slice() == bytes),
    }
}

/// Whether the files `x` and `y` hold these bytes and have their modes.
pub(crate) fn both_hold(alloc: Global, disk: &MemDisk, x: &[u8], y: &[u8]) -> Result<bool, Fail> {
    let have_modes = disk.mode_at("/t/x") == Some(0o640) && disk.mode_at("/t/y") == Some(0o600);
    Ok(have_modes && holds(alloc, disk, "/t/x", x)? && holds(alloc, disk, "/t/y", y)?)
}
