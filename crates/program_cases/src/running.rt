//! A run of the program.

use crate::asked::{bytes_of, number_of, words_of};
use crate::ending::{Ending, ending_of};
use crate::tree::{disk_of, fails_last, let_fail};
use anyhow::Error;
use case_reader::{Case, CaseFault, Line};
use mem_io::{MemDisk, MemSink, MemSource};
use sd_base::Words;
use sd_core::run;
use std::alloc::Global;

/// How a run ended, what it printed, how many writes to its output failed, and whether it read an input where it has none.
#[derive(Drop)]
pub struct Ran {
    pub ending: Ending,
    pub out: Vec<u8>,
    pub err: Vec<u8>,
    pub unwritten: u64,
    pub has_read: bool,
}

/// Runs the words of a case on a disk, of which the calls fail that it names.
pub fn run_case(alloc: Global, case: &Case<'_>, disk: &mut MemDisk) -> Result<Ran, Error> {
    let last = last_call(alloc, case)?;
    let_fail(case, disk, last)?;
    run_words(alloc, case, disk)
}

/// The number of the last call that the words of a case make, where that is to fail.
fn last_call(alloc: Global, case: &Case<'_>) -> Result<u64, Error> {
    match fails_last(case) {
        true => calls_of(alloc, case),
        false => Ok(0),
    }
}

/// How many calls the words of a case make, where none fails.
pub fn calls_of(alloc: Global, case: &Case<'_>) -> Result<u64, Error> {
    let mut disk = disk_of(alloc, case)?;
    drop(run_words(alloc, case, &mut disk)?);
    Ok(disk.calls())
}

/// Runs the words of a case on a disk.
pub fn run_words(alloc: Global, case: &Case<'_>, disk: &mut MemDisk) -> Result<Ran, Error> {
    run_field(alloc, case, case.line(), 0, disk)
}

/// Runs the words of a field on a disk, with the input and the outputs of a case.
pub fn run_field(
    alloc: Global,
    case: &Case<'_>,
    line: Line<'_>,
    field: usize,
    disk: &mut MemDisk,
) -> Result<Ran, Error> {
    let words = words_of(alloc, line, field)?;
    run_listed(alloc, case, disk, &words)
}

/// Runs words, with the input made.
fn run_listed(
    alloc: Global,
    case: &Case<'_>,
    disk: &mut MemDisk,
    words: &Words,
) -> Result<Ran, Error> {
    let mut input = input_of(alloc, case)?;
    let mut ran = run_on_input(alloc, case, disk, words, &mut input)?;
    ran.has_read = input.faults() > 0 && !has_input(case);
    Ok(ran)
}

/// Runs words, with the output made.
fn run_on_input(
    alloc: Global,
    case: &Case<'_>,
    disk: &mut MemDisk,
    words: &Words,
    input: &mut MemSource,
) -> Result<Ran, Error> {
    let mut out = sink_of(alloc, case, "room")?;
    let mut ran = run_to_output(alloc, case, disk, words, input, &mut out)?;
    ran.unwritten = out.faults();
    Ok(ran)
}

/// Runs words, with the output of errors made.
fn run_to_output(
    alloc: Global,
    case: &Case<'_>,
    disk: &mut MemDisk,
    words: &Words,
    input: &mut MemSource,
    out: &mut MemSink,
) -> Result<Ran, Error> {
    let mut err = sink_of(alloc, case, "err_room")?;
    let ending = run_to_end(alloc, words, disk, input, out, &mut err)?;
    ran_of(alloc, ending, out, &err)
}

/// A run that ended so, with what it printed.
fn ran_of(alloc: Global, ending: Ending, out: &MemSink, err: &MemSink) -> Result<Ran, Error> {
    Ok(Ran {
        ending,
        out: out.bytes().to_vec(alloc)?,
        err: err.bytes().to_vec(alloc)?,
        unwritten: 0,
        has_read: false,
    })
}

/// Runs words. What they end with is let go here.
fn run_to_end(
    alloc: Global,
    words: &Words,
    disk: &mut MemDisk,
    input: &mut MemSource,
    out: &mut MemSink,
    err: &mut MemSink,
) -> Result<Ending, Error> {
    let ended = run(alloc, words, disk, input, out, err);
    ending_of(alloc, &ended)
}

/// Whether a case has an input.
fn has_input(case: &Case<'_>) -> bool {
    case.inputs() == 2 || case.part_named("input").is_some() || case.part_named("many").is_some()
}

/// The input of a case. Where it has none, the first read fails.
fn input_of(alloc: Global, case: &Case<'_>) -> Result<MemSource, Error> {
    if let Some(bytes) = many_of(alloc, case)? {
        return source_of(alloc, &bytes, 4096, None);
    }
    if case.inputs() == 2 {
        return source_of(alloc, &case.line().bytes(alloc, 1)?, 7, None);
    }
    match case.part_named("input") {
        None => source_of(alloc, b"", 1, Some(1)),
        Some(line) => source_of_line(alloc, line),
    }
}

/// The input that a part of a case says.
fn source_of_line(alloc: Global, line: Line<'_>) -> Result<MemSource, Error> {
    let bytes = line.bytes(alloc, 1)?;
    let piece = number_in(line, 2)?.unwrap_or(7);
    let failing = number_in(line, 3)?;
    source_of(alloc, &bytes, piece as usize, failing)
}

/// The number in a field of a line that may have so many.
fn number_in(line: Line<'_>, field: usize) -> Result<Option<u64>, CaseFault> {
    match line.len() > field {
        true => Ok(Some(u64::from(line.number(field)?))),
        false => Ok(None),
    }
}

/// An input of bytes that come in pieces, of which a read may fail.
fn source_of(
    alloc: Global,
    bytes: &[u8],
    piece: usize,
    failing: Option<u64>,
) -> Result<MemSource, Error> {
    let mut source = MemSource::new(alloc, bytes, piece.max(1))?;
    if let Some(call) = failing {
        source.fail_at(call);
    }
    Ok(source)
}

/// The input of a case that is a text many times.
pub fn many_of(alloc: Global, case: &Case<'_>) -> Result<Option<Vec<u8>>, CaseFault> {
    let Some(line) = case.part_named("many") else {
        return Ok(None);
    };
    let text = line.bytes(alloc, 2)?;
    let mut bytes = Vec::new(alloc);
    for _ in 0..line.number(1)? {
        bytes.extend_from_slice(&text)?;
    }
    Ok(Some(bytes))
}

/// An output of a case, with room for as many bytes as it says.
fn sink_of(alloc: Global, case: &Case<'_>, name: &str) -> Result<MemSink, Error> {
    let room = number_of(case, name)?.unwrap_or(1000);
    Ok(MemSink::new(alloc, room as usize)?)
}

/// The bytes that a case wants of an output.
pub fn wanted_of(alloc: Global, case: &Case<'_>, name: &str) -> Result<Vec<u8>, CaseFault> {
    match bytes_of(alloc, case, name)? {
        None => Ok(Vec::new(alloc)),
        Some(bytes) => Ok(bytes),
    }
}
