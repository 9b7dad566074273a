//! What is left of the tree.

use crate::tree::mode_of;
use anyhow::Error;
use case_reader::{Case, CaseFault, Line};
use mem_io::MemDisk;
use sd_io::{Disk, DiskFault};
use std::alloc::Global;

/// What is left otherwise than it is to be: the path, or nothing.
pub fn left_otherwise(
    alloc: Global,
    case: &Case<'_>,
    disk: &MemDisk,
) -> Result<Option<String>, Error> {
    match named_otherwise(alloc, case, disk)? {
        None => others_otherwise(alloc, case, disk),
        path => Ok(path),
    }
}

/// The first path that a case names, and that is left otherwise.
fn named_otherwise(
    alloc: Global,
    case: &Case<'_>,
    disk: &MemDisk,
) -> Result<Option<String>, Error> {
    for number in 0..usize::MAX {
        let Some(line) = case.part(number) else {
            break;
        };
        if !is_left(alloc, disk, line)? {
            return Ok(Some(line.text(alloc, 1)?));
        }
    }
    Ok(None)
}

/// The first path of a file that a case doesn't name, and that isn't as it was.
pub fn others_otherwise(
    alloc: Global,
    case: &Case<'_>,
    disk: &MemDisk,
) -> Result<Option<String>, Error> {
    for number in 0..usize::MAX {
        let Some(line) = case.section_part(number) else {
            break;
        };
        if !is_named(case, line)? && !is_left(alloc, disk, line)? {
            return Ok(Some(line.text(alloc, 1)?));
        }
    }
    Ok(None)
}

/// Whether a case says itself what is left at the path of a node.
fn is_named(case: &Case<'_>, node: Line<'_>) -> Result<bool, CaseFault> {
    for number in 0..usize::MAX {
        let Some(line) = case.part(number) else {
            break;
        };
        if names_left(line)? && line.written(1)? == node.written(1)? {
            return Ok(true);
        }
    }
    Ok(false)
}

/// Whether a part of a case says what is left at a path.
fn names_left(line: Line<'_>) -> Result<bool, CaseFault> {
    Ok(matches!(line.written(0)?, "file" | "gone" | "new"))
}

/// Whether a file, or its absence, is as a line has it. Other lines say nothing of that.
pub fn is_left(alloc: Global, disk: &MemDisk, line: Line<'_>) -> Result<bool, Error> {
    match line.written(0)? {
        "file" => is_file(alloc, disk, line),
        "gone" => Ok(disk.mode_at(&line.text(alloc, 1)?).is_none()),
        _ => Ok(true),
    }
}

/// Whether a file is as a line has it.
fn is_file(alloc: Global, disk: &MemDisk, line: Line<'_>) -> Result<bool, Error> {
    let path = line.text(alloc, 1)?;
    let has_mode = disk.mode_at(&path) == Some(mode_of(line, 2)?);
    Ok(has_mode && holds(alloc, disk, &path, &line.bytes(alloc, 3)?)?)
}

/// Whether the file at a path holds these bytes.
pub fn holds(alloc: Global, disk: &MemDisk, path: &str, bytes: &[u8]) -> Result<bool, Error> {
    match disk.read_all(alloc, path)? {
        None => Ok(false),
        Some(held) => Ok(held.as_slice() == bytes),
    }
}

/// Whether the files that a case gives an order are rewritten one after the other: a rewritten file is a new node, with a greater
/// number than all nodes before it.
pub fn is_in_order(alloc: Global, case: &Case<'_>, disk: &mut MemDisk) -> Result<bool, Error> {
    match case.part_named("order") {
        None => Ok(true),
        Some(line) => are_in_order(alloc, line, disk),
    }
}

/// Whether the nodes at the paths of a line have numbers that rise.
fn are_in_order(alloc: Global, line: Line<'_>, disk: &mut MemDisk) -> Result<bool, Error> {
    let mut last = 0;
    for field in 1..line.len() {
        let number = number_at(disk, &line.text(alloc, field)?)?;
        if number <= last {
            return Ok(false);
        }
        last = number;
    }
    Ok(true)
}

/// The number of the node that a path leads to.
fn number_at(disk: &mut MemDisk, path: &str) -> Result<u64, DiskFault> {
    Ok(disk.ident(path)?.ino)
}
