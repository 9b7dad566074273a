//! What named files would become, shown.

use crate::disks::{fill, is_as_built, owned};
use crate::in_turn::for_one;
use crate::swapping::Swap;
use mem_io::{MemDisk, MemSink};
use named_files::{PreviewFault, preview_named};
use sd_base::{NoMemory, Text};
use std::alloc::Global;
use std::test::Fail;

/// Shows the named files.
fn answer_of(
    alloc: Global,
    disk: &mut MemDisk,
    out: &mut MemSink,
    paths: Vec<Text>,
    swap: &Swap<'_>,
) -> Result<(), PreviewFault> {
    preview_named(alloc, disk, out, paths, swap)
}

/// The text of the fault; none where there is no fault.
fn text_of(alloc: Global, answer: &Result<(), PreviewFault>) -> Result<String, Fail> {
    match answer {
        Ok(()) => Ok(String::new(alloc)),
        Err(fault) => Ok(format!(in alloc; "{fault}")?),
    }
}

/// Shows the named files with `1` in place of each `one`, and gives the text of the fault; none where each was shown.
fn shown(
    alloc: Global,
    disk: &mut MemDisk,
    out: &mut MemSink,
    paths: &[&str],
) -> Result<String, Fail> {
    let swap = for_one(alloc, b"1");
    let paths = owned(alloc, paths)?;
    let answer = answer_of(alloc, disk, out, paths, &swap);
    text_of(alloc, &answer)
}

/// Shows the named files, and gives whether that ends with this fault.
fn tells(
    alloc: Global,
    disk: &mut MemDisk,
    out: &mut MemSink,
    paths: &[&str],
    fault: &str,
) -> Result<bool, Fail> {
    let given = shown(alloc, disk, out, paths)?;
    Ok(given.as_str() == fault)
}

/// The same, and whether that changes nothing.
pub(crate) fn ends_with(
    alloc: Global,
    disk: &mut MemDisk,
    out: &mut MemSink,
    paths: &[&str],
    fault: &str,
) -> Result<bool, Fail> {
    Ok(tells(alloc, disk, out, paths, fault)? && is_as_built(alloc, disk)?)
}

/// A sink with room for so many bytes.
pub(crate) fn sink(alloc: Global, room: usize) -> Result<MemSink, NoMemory> {
    MemSink::new(alloc, room)
}

/// Files that are named, what is written of them, and the fault.
pub(crate) type Row = (&'static [&'static str], &'static str, &'static str);

/// Shows the files of a row into a sink, and gives whether all is as the row says.
fn is_right_in(
    alloc: Global,
    disk: &mut MemDisk,
    out: &mut MemSink,
    row: &Row,
) -> Result<bool, Fail> {
    let (paths, text, fault) = *row;
    let is_told = ends_with(alloc, disk, out, paths, fault)?;
    Ok(is_told && out.bytes() == text.as_bytes())
}

/// The same in a new sink.
pub(crate) fn is_right_on(alloc: Global, disk: &mut MemDisk, row: &Row) -> Result<bool, Fail> {
    let mut out = sink(alloc, 1000)?;
    is_right_in(alloc, disk, &mut out, row)
}

/// Does so on an empty disk that it fills, and gives whether no call fails either.
fn is_right_filled(alloc: Global, disk: &mut MemDisk, row: &Row) -> Result<bool, Fail> {
    fill(disk)?;
    let is_right = is_right_on(alloc, disk, row)?;
    Ok(is_right && disk.faults() == 0)
}

/// The same on a new disk.
fn is_right(alloc: Global, row: &Row) -> Result<bool, Fail> {
    let mut disk = MemDisk::new(alloc);
    is_right_filled(alloc, &mut disk, row)
}

#[test]
fn where_no_file_is_named_none_is_shown(rt: HostRuntime) -> Result<(), Fail> {
    let is_right = is_right(rt.alloc(), &(&[], "", ""))?;
    assert!(rt; is_right);
    Ok(())
}
