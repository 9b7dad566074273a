//! Calls that change something.

use crate::Answer;
use crate::answers::done;
use case_reader::Case;
use sd_io::Disk;
use std::alloc::Global;

/// A path, another: a file is created at the first with the mode of the second.
pub fn create<D: Disk>(alloc: Global, disk: &mut D, case: &Case<'_>) -> Answer {
    let path = case.line().text(alloc, 0)?;
    let like = case.line().text(alloc, 1)?;
    done(alloc, disk.create_like(&path, &like))
}

/// A path, bytes: the file there gets them.
pub fn write<D: Disk>(alloc: Global, disk: &mut D, case: &Case<'_>) -> Answer {
    let path = case.line().text(alloc, 0)?;
    let bytes = case.line().bytes(alloc, 1)?;
    done(alloc, disk.write_file(&path, &bytes))
}

/// A path: the file there is put on the medium.
pub fn sync<D: Disk>(alloc: Global, disk: &mut D, case: &Case<'_>) -> Answer {
    let path = case.line().text(alloc, 0)?;
    done(alloc, disk.sync(&path))
}

/// A path, another: the file at the first comes to the second.
pub fn rename<D: Disk>(alloc: Global, disk: &mut D, case: &Case<'_>) -> Answer {
    let from = case.line().text(alloc, 0)?;
    let to = case.line().text(alloc, 1)?;
    done(alloc, disk.rename(&from, &to))
}

/// A path: the file there is removed.
pub fn remove<D: Disk>(alloc: Global, disk: &mut D, case: &Case<'_>) -> Answer {
    let path = case.line().text(alloc, 0)?;
    done(alloc, disk.remove(&path))
}

/// A path: the names in the folder there are put on the medium.
pub fn sync_dir<D: Disk>(alloc: Global, disk: &mut D, case: &Case<'_>) -> Answer {
    let path = case.line().text(alloc, 0)?;
    done(alloc, disk.sync_dir(&path))
}
