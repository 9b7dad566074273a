//! What a run shows and leaves, against what is wanted.

use crate::asked::{field_of, number_of};
use crate::ending::Ending;
use crate::left::{is_in_order, left_otherwise};
use crate::running::{Ran, many_of, run_case, run_field, wanted_of};
use crate::tree::{disk_of, fails_last};
use anyhow::Error;
use case_reader::{Case, CaseFault, Line};
use mem_io::MemDisk;
use std::alloc::Global;

/// What is wanted as the answer to a case: that all is as its parts say, what is printed, or the error that is shown.
#[derive(Clone, Copy, PartialEq, Eq)]
pub enum Wanted {
    All,
    Out,
    Err,
}

/// What a case wants, or what a run of it shows or leaves otherwise: its name and what is found.
pub fn answer(alloc: Global, case: &Case<'_>, wanted: Wanted) -> Result<Option<Vec<u8>>, Error> {
    let mut disk = disk_of(alloc, case)?;
    answer_on(alloc, case, wanted, &mut disk)
}

/// The same on a disk.
fn answer_on(
    alloc: Global,
    case: &Case<'_>,
    wanted: Wanted,
    disk: &mut MemDisk,
) -> Result<Option<Vec<u8>>, Error> {
    let ran = run_case(alloc, case, disk)?;
    match otherwise(alloc, case, wanted, &ran, disk)? {
        None => answer_of(alloc, wanted, ran),
        found => Ok(found),
    }
}

/// What a case wants of a run where all else is as it is to be.
fn answer_of(alloc: Global, wanted: Wanted, ran: Ran) -> Result<Option<Vec<u8>>, Error> {
    match wanted {
        Wanted::All => Ok(Some("yes".as_bytes().to_vec(alloc)?)),
        Wanted::Out => Ok(Some(ran.out)),
        Wanted::Err => Ok(Some(ran.err)),
    }
}

/// What a run shows or leaves otherwise than is wanted.
fn otherwise(
    alloc: Global,
    case: &Case<'_>,
    wanted: Wanted,
    ran: &Ran,
    disk: &mut MemDisk,
) -> Result<Option<Vec<u8>>, Error> {
    if let Some(found) = shown_otherwise(alloc, case, wanted, ran)? {
        return Ok(Some(found));
    }
    if let Some(found) = called_otherwise(alloc, case, disk)? {
        return Ok(Some(found));
    }
    if let Some(found) = then_otherwise(alloc, case, disk)? {
        return Ok(Some(found));
    }
    left_difference(alloc, case, disk)
}

/// A name and bytes, as a difference.
pub fn told(alloc: Global, name: &str, found: &[u8]) -> Result<Option<Vec<u8>>, Error> {
    let mut bytes = name.as_bytes().to_vec(alloc)?;
    bytes.push(b' ')?;
    bytes.extend_from_slice(found)?;
    Ok(Some(bytes))
}

/// A name and a number, as a difference.
fn told_number(alloc: Global, name: &str, found: u64) -> Result<Option<Vec<u8>>, Error> {
    let text = format!(in alloc; "{found}")?;
    told(alloc, name, text.as_bytes())
}

/// What is printed, where the case wants other bytes.
fn differs(
    alloc: Global,
    case: &Case<'_>,
    name: &str,
    found: &[u8],
) -> Result<Option<Vec<u8>>, Error> {
    if wanted_of(alloc, case, name)?.as_slice() == found {
        return Ok(None);
    }
    told(alloc, name, found)
}

/// What a run shows otherwise than is wanted.
fn shown_otherwise(
    alloc: Global,
    case: &Case<'_>,
    wanted: Wanted,
    ran: &Ran,
) -> Result<Option<Vec<u8>>, Error> {
    if wanted != Wanted::Out
        && let Some(found) = out_otherwise(alloc, case, ran)?
    {
        return Ok(Some(found));
    }
    if wanted != Wanted::Err
        && let Some(found) = differs(alloc, case, "err", &ran.err)?
    {
        return Ok(Some(found));
    }
    if ran.has_read {
        return told(alloc, "input", b"is read");
    }
    match ended_otherwise(alloc, case, &ran.ending)? {
        None => writes_otherwise(alloc, case, ran.unwritten),
        found => Ok(found),
    }
}

/// What is printed, where the case wants other bytes, or its input.
fn out_otherwise(alloc: Global, case: &Case<'_>, ran: &Ran) -> Result<Option<Vec<u8>>, Error> {
    match many_of(alloc, case)? {
        None => differs(alloc, case, "out", &ran.out),
        Some(bytes) if bytes == ran.out => Ok(None),
        Some(_) => told(alloc, "out", b"is another"),
    }
}

/// How a run ended otherwise than is wanted.
fn ended_otherwise(
    alloc: Global,
    case: &Case<'_>,
    ending: &Ending,
) -> Result<Option<Vec<u8>>, Error> {
    let status = u64::from(ending.status);
    if status != number_of(case, "status")?.unwrap_or(0) {
        return told_number(alloc, "status", status);
    }
    if ending.cause != field_of(case, "cause")?.unwrap_or("Done") {
        return told(alloc, "cause", ending.cause.as_bytes());
    }
    match case.part_named("carries") {
        Some(line) => carries_otherwise(alloc, line, &ending.carried),
        None => Ok(None),
    }
}

/// What an error carries otherwise than a line has it.
fn carries_otherwise(
    alloc: Global,
    line: Line<'_>,
    carried: &str,
) -> Result<Option<Vec<u8>>, Error> {
    if line.bytes(alloc, 1)?.as_slice() == carried.as_bytes() {
        return Ok(None);
    }
    told(alloc, "carries", carried.as_bytes())
}

/// How many writes failed, where the case wants another number of them.
fn writes_otherwise(
    alloc: Global,
    case: &Case<'_>,
    unwritten: u64,
) -> Result<Option<Vec<u8>>, Error> {
    match number_of(case, "unwritten")? {
        Some(wanted) if wanted != unwritten => told_number(alloc, "unwritten", unwritten),
        _ => Ok(None),
    }
}

/// What is left otherwise than is wanted.
pub fn left_difference(
    alloc: Global,
    case: &Case<'_>,
    disk: &mut MemDisk,
) -> Result<Option<Vec<u8>>, Error> {
    if let Some(path) = left_otherwise(alloc, case, disk)? {
        return told(alloc, "left", path.as_bytes());
    }
    match is_in_order(alloc, case, disk)? {
        true => Ok(None),
        false => told(alloc, "order", b"is another"),
    }
}

/// How a disk was called otherwise than is wanted.
fn called_otherwise(
    alloc: Global,
    case: &Case<'_>,
    disk: &MemDisk,
) -> Result<Option<Vec<u8>>, Error> {
    if disk.calls() > number_of(case, "calls")?.unwrap_or(u64::MAX) {
        return told_number(alloc, "calls", disk.calls());
    }
    if disk.lists_most() > number_of(case, "lists")?.unwrap_or(10) {
        return told_number(alloc, "lists", disk.lists_most());
    }
    match faults_of(case)? {
        Some(wanted) if wanted != disk.faults() => told_number(alloc, "faults", disk.faults()),
        _ => Ok(None),
    }
}

/// How many calls are to fail, where that is known.
fn faults_of(case: &Case<'_>) -> Result<Option<u64>, CaseFault> {
    if number_of(case, "stop")?.is_some() {
        return Ok(None);
    }
    let is_one = fails_last(case) || field_of(case, "fail")?.is_some();
    Ok(Some(u64::from(is_one)))
}

/// What is printed by the words that are run after that, where it isn't what is wanted of them.
fn then_otherwise(
    alloc: Global,
    case: &Case<'_>,
    disk: &mut MemDisk,
) -> Result<Option<Vec<u8>>, Error> {
    for number in 0..usize::MAX {
        let Some(line) = case.part(number) else {
            break;
        };
        if line.written(0)? == "then"
            && let Some(found) = printed_otherwise(alloc, case, line, disk)?
        {
            return Ok(Some(found));
        }
    }
    Ok(None)
}

/// What the words of a line print otherwise than it says.
fn printed_otherwise(
    alloc: Global,
    case: &Case<'_>,
    line: Line<'_>,
    disk: &mut MemDisk,
) -> Result<Option<Vec<u8>>, Error> {
    let ran = run_field(alloc, case, line, 1, disk)?;
    let wanted = line.bytes(alloc, 2)?;
    if ran.ending.status == 0 && ran.err.is_empty() && ran.out == wanted {
        return Ok(None);
    }
    told(alloc, "then", &ran.out)
}
