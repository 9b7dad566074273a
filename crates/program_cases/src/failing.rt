//! Commands of which each call fails in turn.

use crate::asked::{bytes_of, field_of, number_of};
use crate::left::{holds, is_left, others_otherwise};
use crate::running::{Ran, calls_of, run_words, wanted_of};
use crate::tree::{disk_of, mode_of};
use anyhow::Error;
use case_reader::{Case, CaseFault, Line};
use mem_io::MemDisk;
use std::alloc::Global;

/// What is not as a case has it, where each of its calls fails in turn; or nothing.
pub fn difference(alloc: Global, case: &Case<'_>) -> Result<Option<Vec<u8>>, Error> {
    let calls = calls_of(alloc, case)?;
    if calls < number_of(case, "least")?.unwrap_or(1) {
        return Ok(Some(format!(in alloc; "{calls} calls")?.into_bytes()));
    }
    for call in 1..=calls {
        if let Some(what) = otherwise_at(alloc, case, call)? {
            return Ok(Some(format!(in alloc; "call {call}: {what}")?.into_bytes()));
        }
    }
    Ok(None)
}

/// What is not as a case has it where a call fails.
fn otherwise_at(alloc: Global, case: &Case<'_>, call: u64) -> Result<Option<&'static str>, Error> {
    let mut disk = disk_of(alloc, case)?;
    disk.fail_at(call)?;
    otherwise_on(alloc, case, &mut disk)
}

/// What a run tells: something else than a case has it, or as that has it, and how many jobs failed.
#[derive(Clone, Copy)]
enum Told {
    Otherwise(&'static str),
    AsWanted { jobs: usize },
}

/// The same on a disk.
fn otherwise_on(
    alloc: Global,
    case: &Case<'_>,
    disk: &mut MemDisk,
) -> Result<Option<&'static str>, Error> {
    let told = told_on(alloc, case, disk)?;
    if disk.faults() != 1 {
        return Ok(Some("faults"));
    }
    match told {
        Told::Otherwise(what) => Ok(Some(what)),
        Told::AsWanted { jobs } => left_otherwise(alloc, case, disk, jobs),
    }
}

/// Runs the words of a case on a disk, and gives what that tells.
fn told_on(alloc: Global, case: &Case<'_>, disk: &mut MemDisk) -> Result<Told, Error> {
    let ran = run_words(alloc, case, disk)?;
    told_by(alloc, case, &ran)
}

/// What a run tells.
fn told_by(alloc: Global, case: &Case<'_>, ran: &Ran) -> Result<Told, Error> {
    let jobs = ran.ending.jobs;
    match told_otherwise(alloc, case, ran)? {
        None => Ok(Told::AsWanted { jobs }),
        Some(what) => Ok(Told::Otherwise(what)),
    }
}

/// What a run tells otherwise than a case has it.
fn told_otherwise(
    alloc: Global,
    case: &Case<'_>,
    ran: &Ran,
) -> Result<Option<&'static str>, Error> {
    if !is_beginning(alloc, case, &ran.out)? {
        return Ok(Some("out"));
    }
    match bytes_of(alloc, case, "err")? {
        Some(wanted) if wanted != ran.err => Ok(Some("err")),
        _ => Ok(ended_otherwise(case, ran)?),
    }
}

/// Whether what is printed is a beginning of what a case has.
fn is_beginning(alloc: Global, case: &Case<'_>, out: &[u8]) -> Result<bool, CaseFault> {
    let shown = wanted_of(alloc, case, "out")?;
    Ok(shown.starts_with(out))
}

/// How a run ended otherwise than a case has it.
fn ended_otherwise(case: &Case<'_>, ran: &Ran) -> Result<Option<&'static str>, CaseFault> {
    if ran.ending.status != 1 {
        return Ok(Some("status"));
    }
    if (ran.ending.cause == "FailedProcessing") != (ran.ending.jobs == 1) {
        return Ok(Some("jobs"));
    }
    match is_cause(field_of(case, "causes")?, ran.ending.cause) {
        true => Ok(None),
        false => Ok(Some("cause")),
    }
}

/// Whether a cause is one of those in a field, which are parted by spaces.
fn is_cause(causes: Option<&str>, cause: &str) -> bool {
    match causes {
        None => false,
        Some(causes) => causes.split(' ').any(|name| name == cause),
    }
}

/// What is left otherwise than a case has it, where so many jobs failed.
fn left_otherwise(
    alloc: Global,
    case: &Case<'_>,
    disk: &MemDisk,
    jobs: usize,
) -> Result<Option<&'static str>, Error> {
    if others_otherwise(alloc, case, disk)?.is_some() {
        return Ok(Some("another file"));
    }
    match rewritten(alloc, case, disk)? {
        None => Ok(Some("a file")),
        Some(count) => Ok(count_otherwise(case, count, jobs)?),
    }
}

/// Whether too few files are new, or one is though no job failed.
fn count_otherwise(
    case: &Case<'_>,
    count: u64,
    jobs: usize,
) -> Result<Option<&'static str>, CaseFault> {
    let least = number_of(case, "rewritten")?.unwrap_or(0);
    match (jobs, count) {
        (0, 0) => Ok(None),
        (0, _) => Ok(Some("rewritten too early")),
        _ if count < least => Ok(Some("rewritten")),
        _ => Ok(None),
    }
}

/// How many of the files that a case names are new, where each other one is old; or nothing, where one is neither or has another mode.
fn rewritten(alloc: Global, case: &Case<'_>, disk: &MemDisk) -> Result<Option<u64>, Error> {
    let mut count = 0_u64;
    for number in 0..usize::MAX {
        let Some(line) = case.part(number) else {
            break;
        };
        match state_of(alloc, case, disk, line)? {
            State::New => count = count.saturating_add(1),
            State::Old => {}
            State::Otherwise => return Ok(None),
        }
    }
    Ok(Some(count))
}

/// How a file is left that a case names.
#[derive(Clone, Copy)]
enum State {
    New,
    Old,
    Otherwise,
}

/// How the file of a line is left. Where a line names none, it is as if that were old.
fn state_of(
    alloc: Global,
    case: &Case<'_>,
    disk: &MemDisk,
    line: Line<'_>,
) -> Result<State, Error> {
    if line.written(0)? == "new" {
        return state_of_new(alloc, case, disk, line);
    }
    match is_left(alloc, disk, line)? {
        true => Ok(State::Old),
        false => Ok(State::Otherwise),
    }
}

/// How a file is left that may be new.
fn state_of_new(
    alloc: Global,
    case: &Case<'_>,
    disk: &MemDisk,
    line: Line<'_>,
) -> Result<State, Error> {
    let Some(old) = node_of(case, line.written(1)?) else {
        return Err(CaseFault::Missing)?;
    };
    if is_left(alloc, disk, old)? {
        return Ok(State::Old);
    }
    let path = line.text(alloc, 1)?;
    let has_mode = disk.mode_at(&path) == Some(mode_of(old, 2)?);
    match has_mode && holds(alloc, disk, &path, &line.bytes(alloc, 2)?)? {
        true => Ok(State::New),
        false => Ok(State::Otherwise),
    }
}

/// The line of a section that has a path.
fn node_of<'t>(case: &Case<'t>, path: &str) -> Option<Line<'t>> {
    for number in 0..usize::MAX {
        let line = case.section_part(number)?;
        if line.written(1) == Ok(path) {
            return Some(line);
        }
    }
    None
}
