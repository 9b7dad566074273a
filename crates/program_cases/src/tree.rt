//! The tree that a command works on.

use crate::asked::number_of;
use anyhow::Error;
use case_reader::{Case, CaseFault, Line};
use mem_io::{BuildFault, MemDisk};
use std::alloc::Global;

/// A disk with the tree of a section.
pub fn disk_of(alloc: Global, case: &Case<'_>) -> Result<MemDisk, Error> {
    let mut disk = MemDisk::new(alloc);
    fill(alloc, case, &mut disk)?;
    Ok(disk)
}

/// Adds the nodes of a section to a disk.
fn fill(alloc: Global, case: &Case<'_>, disk: &mut MemDisk) -> Result<(), Error> {
    for number in 0..usize::MAX {
        match case.section_part(number) {
            None => return Ok(()),
            Some(line) => add_part(alloc, disk, line)?,
        }
    }
    Ok(())
}

/// Adds what a part of a section says to a disk.
fn add_part(alloc: Global, disk: &mut MemDisk, line: Line<'_>) -> Result<(), Error> {
    match line.written(0)? {
        "deep" => add_deep(alloc, disk, line),
        "times" => add_times(alloc, disk, line),
        _ => add_node(alloc, disk, line),
    }
}

/// Adds the node of a line to a disk.
fn add_node(alloc: Global, disk: &mut MemDisk, line: Line<'_>) -> Result<(), Error> {
    let path = line.text(alloc, 1)?;
    add(alloc, disk, line, &path, 0)
}

/// Adds a node to a disk at a path. A line says what it is, from a field on.
pub fn add(
    alloc: Global,
    disk: &mut MemDisk,
    line: Line<'_>,
    path: &str,
    first: usize,
) -> Result<(), Error> {
    let second = first.saturating_add(2);
    match line.written(first)? {
        "dir" => Ok(add_dir(disk, path)?),
        "file" => add_file(alloc, disk, line, path, second),
        "link" => add_link(alloc, disk, line, path, second),
        "other" => Ok(add_other(disk, path)?),
        _ => Err(CaseFault::Word)?,
    }
}

/// Adds a folder to a disk.
fn add_dir(disk: &mut MemDisk, path: &str) -> Result<(), BuildFault> {
    disk.add_dir(path)
}

/// Adds a node that is no folder, no link and no regular file to a disk.
fn add_other(disk: &mut MemDisk, path: &str) -> Result<(), BuildFault> {
    disk.add_other(path)
}

/// Adds a file to a disk. A field says its mode, and the next one its bytes.
fn add_file(
    alloc: Global,
    disk: &mut MemDisk,
    line: Line<'_>,
    path: &str,
    field: usize,
) -> Result<(), Error> {
    let mode = mode_of(line, field)?;
    let bytes = line.bytes(alloc, field.saturating_add(1))?;
    Ok(disk.add_file(path, &bytes, mode)?)
}

/// Adds a link to a disk. A field says its target.
fn add_link(
    alloc: Global,
    disk: &mut MemDisk,
    line: Line<'_>,
    path: &str,
    field: usize,
) -> Result<(), Error> {
    let target = line.text(alloc, field)?;
    Ok(disk.add_link(path, &target)?)
}

/// Adds folders to a disk, each in the one before it.
fn add_deep(alloc: Global, disk: &mut MemDisk, line: Line<'_>) -> Result<(), Error> {
    let name = line.text(alloc, 2)?;
    let mut path = String::new(alloc);
    for _ in 0..line.number(1)? {
        path.push('/')?;
        path.push_str(&name)?;
        add_dir(disk, &path)?;
    }
    Ok(())
}

/// Adds a node many times to a disk, with the number of each in its path.
fn add_times(alloc: Global, disk: &mut MemDisk, line: Line<'_>) -> Result<(), Error> {
    let path = line.text(alloc, 3)?;
    let (before, behind) = path.split_once('#').ok_or(CaseFault::Word)?;
    for number in 0..line.number(1)? {
        add_numbered(alloc, disk, line, before, behind, number)?;
    }
    Ok(())
}

/// Adds the node of a number to a disk.
fn add_numbered(
    alloc: Global,
    disk: &mut MemDisk,
    line: Line<'_>,
    before: &str,
    behind: &str,
    number: u32,
) -> Result<(), Error> {
    let path = format!(in alloc; "{before}{number:04x}{behind}")?;
    add(alloc, disk, line, &path, 2)
}

/// The mode that a field is, to base eight.
pub fn mode_of(line: Line<'_>, field: usize) -> Result<u32, CaseFault> {
    u32::from_str_radix(line.written(field)?, 8).map_err(|_| CaseFault::Number)
}

/// Lets the calls fail that a case names; where it names the last one, that is the call of this number.
pub fn let_fail(case: &Case<'_>, disk: &mut MemDisk, last: u64) -> Result<(), Error> {
    if let Some(call) = failing_call(case, last)? {
        disk.fail_at(call)?;
    }
    if let Some(call) = number_of(case, "stop")? {
        disk.stop_at(call);
    }
    Ok(())
}

/// The call that a case lets fail.
fn failing_call(case: &Case<'_>, last: u64) -> Result<Option<u64>, CaseFault> {
    match fails_last(case) {
        true => Ok(Some(last)),
        false => number_of(case, "fail"),
    }
}

/// Whether a case lets the last call fail.
pub fn fails_last(case: &Case<'_>) -> bool {
    match case.part_named("fail") {
        None => case.setting("fail") == Some("last"),
        Some(line) => line.written(1) == Ok("last"),
    }
}
