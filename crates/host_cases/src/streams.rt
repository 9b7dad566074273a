//! Streams.

use crate::Answer;
use crate::answers::said;
use case_reader::Case;
use host_io::{HostSink, HostSource};
use sd_io::{Failed, Sink, Source};
use std::alloc::Global;
use std::fs;
use std::io::Read;
use std::rt::Files;

/// How many bytes are read at once at most.
const MOST: usize = 16;

/// A path, a number of bytes: what stands there, read by so many bytes at most at once.
pub fn source<R: Files>(rt: &R, alloc: Global, case: &Case<'_>) -> Answer {
    let path = case.line().text(alloc, 0)?;
    let most = case.line().number(1)? as usize;
    let mut source = HostSource::new(fs::open(rt, path.as_str())?);
    let read = read_all(alloc, &mut source, most.min(MOST));
    drop(source);
    match read {
        Some(bytes) => Ok(Some(bytes)),
        None => said(alloc, "Failed"),
    }
}

/// All bytes of a stream, or nothing where it fails.
fn read_all<S: Source>(alloc: Global, source: &mut S, most: usize) -> Option<Vec<u8>> {
    let mut bytes = Vec::new(alloc);
    let mut room = [0; MOST];
    for _ in 0..u64::MAX {
        let count = source.read(room.get_mut(..most)?).ok()?;
        if count == 0 {
            break;
        }
        bytes.extend_from_slice(room.get(..count)?).ok()?;
    }
    Some(bytes)
}

/// A number of bytes, bytes: how many of these a stream that takes so many takes, and whether it fails then.
pub fn sink(alloc: Global, case: &Case<'_>) -> Answer {
    let capacity = case.line().number(0)? as usize;
    let bytes = case.line().bytes(alloc, 1)?;
    let mut room = [0; MOST];
    let Some(room) = room.get_mut(..capacity) else {
        return Ok(None);
    };
    let mut sink = HostSink::new(room);
    let (taken, end) = write_all(&mut sink, &bytes);
    drop(sink);
    let end = match end {
        Ok(()) => "done",
        Err(Failed) => "Failed",
    };
    Ok(Some(format!(in alloc; "{taken} {end}")?.into_bytes()))
}

/// How many bytes a stream takes, and whether it fails then.
fn write_all<S: Sink>(sink: &mut S, bytes: &[u8]) -> (usize, Result<(), Failed>) {
    let mut taken = 0;
    while taken < bytes.len() {
        match sink.write(&bytes[taken..]) {
            Ok(count) => taken += count,
            Err(failed) => return (taken, Err(failed)),
        }
    }
    (taken, Ok(()))
}
