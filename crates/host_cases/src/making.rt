//! What the host does itself, without the disk.

use crate::answers::said;
use crate::{Answer, Made};
use anyhow::Error;
use case_reader::{Case, CaseFault};
use std::alloc::Global;
use std::fs;
use std::fs::Permissions;
use std::os::unix::fs::{MetadataExt, PermissionsExt, symlink};
use std::rt::Files;

/// The bits of a mode that say who may do what.
const PERMISSIONS: u32 = 0o7777;

/// What the host does, or tells.
pub fn make<R: Files>(rt: &R, alloc: Global, case: &Case<'_>, made: Made) -> Answer {
    match made {
        Made::File => make_file(rt, alloc, case),
        Made::Folder => make_folder(rt, alloc, case),
        Made::Link => make_link(rt, alloc, case),
        Made::SetMode => set_mode(rt, alloc, case),
        Made::Mode => mode(rt, alloc, case),
    }
}

/// A path, bytes: a file with these is made there.
fn make_file<R: Files>(rt: &R, alloc: Global, case: &Case<'_>) -> Answer {
    let path = case.line().text(alloc, 0)?;
    let bytes = case.line().bytes(alloc, 1)?;
    fs::write(rt, path.as_str(), bytes.as_slice())?;
    said(alloc, "done")
}

/// A path: a folder is made there.
fn make_folder<R: Files>(rt: &R, alloc: Global, case: &Case<'_>) -> Answer {
    let path = case.line().text(alloc, 0)?;
    fs::create_dir(rt, path.as_str())?;
    said(alloc, "done")
}

/// A path, a target: a link with the target is made there.
fn make_link<R: Files>(rt: &R, alloc: Global, case: &Case<'_>) -> Answer {
    let path = case.line().text(alloc, 0)?;
    let target = case.line().text(alloc, 1)?;
    symlink(rt, target.as_str(), path.as_str())?;
    said(alloc, "done")
}

/// A mode, to base eight.
fn mode_of(alloc: Global, case: &Case<'_>, field: usize) -> Result<u32, Error> {
    let digits = case.line().text(alloc, field)?;
    Ok(u32::from_str_radix(&digits, 8).map_err(|_| CaseFault::Number)?)
}

/// A path, a mode: what stands there gets it.
fn set_mode<R: Files>(rt: &R, alloc: Global, case: &Case<'_>) -> Answer {
    let path = case.line().text(alloc, 0)?;
    let mode = mode_of(alloc, case, 1)?;
    fs::set_permissions(rt, path.as_str(), Permissions::from_mode(mode))?;
    said(alloc, "done")
}

/// A path: the mode of what stands there, to base eight.
fn mode<R: Files>(rt: &R, alloc: Global, case: &Case<'_>) -> Answer {
    let path = case.line().text(alloc, 0)?;
    let mode = fs::symlink_metadata(rt, path.as_str())?.mode() & PERMISSIONS;
    Ok(Some(format!(in alloc; "{mode:o}")?.into_bytes()))
}
