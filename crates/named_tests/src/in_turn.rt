//! Named files, rewritten in turn.

use crate::disks::{NEW_B, OLD_A, OLD_B, all_hold, fill, has_modes, owned};
use crate::swapping::Swap;
use many_files::{FilesFault, Report, rewrite_each};
use mem_io::MemDisk;
use sd_base::Text;
use std::alloc::Global;
use std::test::Fail;

/// A text in place of each `one`.
pub(crate) fn for_one(alloc: Global, with: &[u8]) -> Swap<'_> {
    Swap {
        alloc,
        find: b"one",
        with,
    }
}

/// Rewrites the named files.
fn answer_of(
    alloc: Global,
    disk: &mut MemDisk,
    paths: Vec<Text>,
    swap: &Swap<'_>,
) -> Result<Report, FilesFault> {
    rewrite_each(alloc, disk, paths, swap)
}

/// The text of the fault; none where there is no fault.
fn text_of(alloc: Global, answer: &Result<Report, FilesFault>) -> Result<String, Fail> {
    match answer {
        Ok(_) => Ok(String::new(alloc)),
        Err(fault) => Ok(format!(in alloc; "{fault}")?),
    }
}

/// Rewrites the named files, with a text in place of each `one`, and gives the text of the fault; none where each was rewritten.
pub(crate) fn rewritten(
    alloc: Global,
    disk: &mut MemDisk,
    with: &[u8],
    paths: &[&str],
) -> Result<String, Fail> {
    let swap = for_one(alloc, with);
    let paths = owned(alloc, paths)?;
    let answer = answer_of(alloc, disk, paths, &swap);
    text_of(alloc, &answer)
}

/// Adds the text of the fault that tells these jobs.
fn push_fault(text: &mut String, jobs: &[&str]) -> Result<(), Fail> {
    text.push_str("failed processing files:\n\tFailedJobs(\n")?;
    for job in jobs {
        text.push('\t')?;
        text.push_str(job)?;
        text.push('\n')?;
    }
    text.push(')')?;
    Ok(())
}

/// The text of the fault that tells these jobs; none where there is no job.
fn fault_of(alloc: Global, jobs: &[&str]) -> Result<String, Fail> {
    let mut text = String::new(alloc);
    if !jobs.is_empty() {
        push_fault(&mut text, jobs)?;
    }
    Ok(text)
}

/// Whether this is the text of the fault that tells these jobs, or it is empty and there is no job.
pub(crate) fn is_fault_of(alloc: Global, text: &str, jobs: &[&str]) -> Result<bool, Fail> {
    let wanted = fault_of(alloc, jobs)?;
    Ok(text == wanted.as_str())
}

/// Rewrites no files on an empty disk that it fills, and gives whether that leaves all as it was.
fn keeps_all_on(alloc: Global, disk: &mut MemDisk) -> Result<bool, Fail> {
    fill(disk)?;
    let fault = rewritten(alloc, disk, NEW_B, &[])?;
    let is_clean = disk.faults() == 0 && has_modes(disk);
    Ok(fault.is_empty() && is_clean && all_hold(alloc, disk, OLD_A, OLD_B)?)
}

/// The same on a new disk.
fn keeps_all(alloc: Global) -> Result<bool, Fail> {
    let mut disk = MemDisk::new(alloc);
    keeps_all_on(alloc, &mut disk)
}

#[test]
fn where_no_file_is_named_none_is_rewritten(rt: HostRuntime) -> Result<(), Fail> {
    let is_right = keeps_all(rt.alloc())?;
    assert!(rt; is_right);
    Ok(())
}
