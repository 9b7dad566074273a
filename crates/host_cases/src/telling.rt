//! Calls that tell of what stands there.

use crate::Answer;
use crate::answers::{bytes, refused, said};
use case_reader::Case;
use sd_base::NoMemory;
use sd_io::{Disk, DiskFault, RawEntry};
use std::alloc::Global;

/// A path: the kind and the length of what stands there, a link in the place of the last name followed or not.
pub fn stat<D: Disk>(alloc: Global, disk: &mut D, case: &Case<'_>, follow: bool) -> Answer {
    let path = case.line().text(alloc, 0)?;
    match disk.stat(&path, follow) {
        Ok(meta) => Ok(Some(format!(in alloc; "{:?} {}", meta.kind, meta.len)?.into_bytes())),
        Err(fault) => refused(alloc, fault),
    }
}

/// Two paths: whether they lead to one node.
pub fn same_node<D: Disk>(alloc: Global, disk: &mut D, case: &Case<'_>) -> Answer {
    let path = case.line().text(alloc, 0)?;
    let other = case.line().text(alloc, 1)?;
    match disk.ident(&path) {
        Err(fault) => refused(alloc, fault),
        Ok(first) => match disk.ident(&other) {
            Err(fault) => refused(alloc, fault),
            Ok(second) => said(alloc, if first == second { "yes" } else { "no" }),
        },
    }
}

/// A path: the same without links, from the folder on that the program runs in.
pub fn resolve<D: Disk>(alloc: Global, disk: &mut D, case: &Case<'_>) -> Answer {
    let path = case.line().text(alloc, 0)?;
    match disk.resolve(alloc, &path) {
        Err(fault) => refused(alloc, fault),
        Ok(resolved) => match disk.resolve(alloc, ".") {
            Err(fault) => refused(alloc, fault),
            Ok(here) => match resolved.as_str().strip_prefix(here.as_str()) {
                None => said(alloc, "elsewhere"),
                Some(names) => said(alloc, names),
            },
        },
    }
}

/// A path: what the file there holds.
pub fn read<D: Disk>(alloc: Global, disk: &mut D, case: &Case<'_>) -> Answer {
    let path = case.line().text(alloc, 0)?;
    bytes(alloc, disk.read_file(alloc, &path))
}

/// A path: the entries of the folder there, each as its kind and its name, in the order of these texts; an entry that isn't told as
/// `Failed`.
pub fn list<D: Disk>(alloc: Global, disk: &mut D, case: &Case<'_>) -> Answer {
    let path = case.line().text(alloc, 0)?;
    match listed(alloc, disk, &path) {
        Err(fault) => refused(alloc, fault),
        Ok(mut entries) => {
            entries.sort()?;
            let mut out = String::new(alloc);
            for entry in &entries {
                write!(out, "{entry} ")?;
            }
            said(alloc, out.trim_end())
        }
    }
}

/// The texts of a folder's entries.
#[tactic(auto, using(crate::proofs::telling::OpenLemmas::open_given, crate::proofs::telling::OpenLemmas::open_passed))]
pub fn listed<D: Disk>(alloc: Global, disk: &mut D, path: &str) -> Result<Vec<String>, DiskFault> {
    let list = disk.open_dir(path)?;
    let mut entries = Vec::new(alloc);
    for _ in 0..u64::MAX {
        match disk.next_entry(alloc, list) {
            Ok(Some(entry)) => entries.push(entry_text(alloc, &entry)?)?,
            Err(DiskFault::Failed) => entries.push(String::from_str(alloc, "Failed")?)?,
            Ok(None) | Err(_) => break,
        }
    }
    disk.close_dir(list);
    Ok(entries)
}

/// The kind and the name of an entry.
fn entry_text(alloc: Global, entry: &RawEntry) -> Result<String, NoMemory> {
    Ok(format!(in alloc; "{:?}:{}", entry.kind, entry.name.as_str())?)
}
