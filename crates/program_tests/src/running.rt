//! Runs of the program on any disk, and what they show.

use mem_io::{MemSink, MemSource};
use sd_base::{NoMemory, Words};
use sd_core::{Ended, Error, Why, run};
use sd_io::Disk;
use sd_replace::{Replacer, ReplacerFault};
use std::alloc::Global;
use std::test::Fail;

/// How a run ended: its status, and how many jobs failed, where that ended it.
#[derive(Clone, Copy)]
pub(crate) struct Outcome {
    pub(crate) status: u8,
    pub(crate) failed_jobs: usize,
}

/// How a run ended, and what it printed.
#[derive(Drop)]
pub(crate) struct Ran {
    pub(crate) outcome: Outcome,
    pub(crate) out: Vec<u8>,
    pub(crate) err: Vec<u8>,
}

/// The streams of a run.
#[derive(Drop)]
pub(crate) struct Streams {
    pub(crate) input: MemSource,
    pub(crate) out: MemSink,
    pub(crate) err: MemSink,
}

/// The words of a command.
pub(crate) fn listed(alloc: Global, words: &[&str]) -> Result<Words, Fail> {
    let mut list = Words::new(alloc);
    for word in words {
        list.push(word)?;
    }
    Ok(list)
}

/// An input of these bytes. Where there are none, the first read fails, so that a read shows.
fn source_of(alloc: Global, bytes: &[u8]) -> Result<MemSource, NoMemory> {
    let mut input = MemSource::new(alloc, bytes, bytes.len().max(1))?;
    if bytes.is_empty() {
        input.fail_at(1);
    }
    Ok(input)
}

/// Streams with this input, and so many bytes of room for what is printed.
pub(crate) fn streams_of(alloc: Global, input: &[u8], room: usize) -> Result<Streams, NoMemory> {
    let input = source_of(alloc, input)?;
    let out = MemSink::new(alloc, room)?;
    let err = MemSink::new(alloc, 1000)?;
    Ok(Streams { input, out, err })
}

/// How many jobs failed, where that ended the run.
fn failed_jobs(why: &Why) -> usize {
    match why {
        Why::Fault(Error::FailedProcessing(jobs)) => jobs.len(),
        _ => 0,
    }
}

fn outcome_of(ended: &Ended) -> Outcome {
    Outcome {
        status: ended.status,
        failed_jobs: failed_jobs(&ended.why),
    }
}

/// Whether these bytes, and no others, are written to a sink.
pub(crate) fn has_written(sink: &MemSink, bytes: &[u8]) -> bool {
    sink.bytes() == bytes
}

/// Runs words, and tells how that ended. What it ends with is let go here, so that tests are quickly proved.
fn run_to_end<D: Disk>(
    alloc: Global,
    words: &Words,
    disk: &mut D,
    input: &mut MemSource,
    out: &mut MemSink,
    err: &mut MemSink,
) -> Outcome {
    let ended = run(alloc, words, disk, input, out, err);
    let outcome = outcome_of(&ended);
    drop(ended);
    outcome
}

/// The same on streams.
fn run_on<D: Disk>(alloc: Global, words: &Words, disk: &mut D, streams: &mut Streams) -> Outcome {
    run_to_end(
        alloc,
        words,
        disk,
        &mut streams.input,
        &mut streams.out,
        &mut streams.err,
    )
}

/// A run that ended so, with what it printed.
fn ran_of(alloc: Global, outcome: Outcome, streams: &Streams) -> Result<Ran, Fail> {
    let out = streams.out.bytes().to_vec(alloc)?;
    let err = streams.err.bytes().to_vec(alloc)?;
    Ok(Ran { outcome, out, err })
}

/// Runs words with the streams made.
fn run_listed<D: Disk>(
    alloc: Global,
    disk: &mut D,
    words: &Words,
    input: &[u8],
    room: usize,
) -> Result<Ran, Fail> {
    let mut streams = streams_of(alloc, input, room)?;
    let outcome = run_on(alloc, words, disk, &mut streams);
    ran_of(alloc, outcome, &streams)
}

/// Runs words on an input, which is none where it has no bytes. What is printed has so many bytes of room.
pub(crate) fn run_given<D: Disk>(
    alloc: Global,
    disk: &mut D,
    words: &[&str],
    input: &[u8],
    room: usize,
) -> Result<Ran, Fail> {
    let list = listed(alloc, words)?;
    run_listed(alloc, disk, &list, input, room)
}

/// Runs words without input, with room for all that is printed.
pub(crate) fn run_words<D: Disk>(alloc: Global, disk: &mut D, words: &[&str]) -> Result<Ran, Fail> {
    run_given(alloc, disk, words, b"", 1000)
}

/// A replacer that puts `1` in place of each `one`.
pub(crate) fn one_by_1(alloc: Global) -> Result<Replacer, ReplacerFault> {
    Replacer::new(alloc, "one", "1", false, None, 0)
}
