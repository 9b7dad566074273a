//! Replacing in a stream that is too long, or of which a read or a write fails.

use crate::running::{has_written, one_by_1};
use mem_io::{MemSink, MemSource};
use sd_core::{Error, replace_stream};
use sd_io::DiskFault;
use sd_replace::Replacer;
use std::alloc::Global;
use std::process::Abort;
use std::test::Fail;

/// How replacing in a stream ends.
#[derive(Clone, Copy, PartialEq, Eq)]
enum End {
    Done,
    TooLong,
    Failed,
    Otherwise,
}

/// An input in pieces, the cap on its bytes, the numbers of a failing read and of a failing write, where 0 is that of none, how it ends to put
/// `1` in place of each `one`, and what is written then.
#[derive(Clone, Copy)]
struct Stream {
    input: &'static [u8],
    piece: usize,
    cap: u64,
    read: u64,
    write: u64,
    end: End,
    written: &'static [u8],
}

/// Replaces in an input under a cap.
fn end_by(
    alloc: Global,
    source: &mut MemSource,
    sink: &mut MemSink,
    replacer: &Replacer,
    cap: u64,
) -> End {
    match replace_stream(alloc, source, sink, replacer, cap) {
        Ok(()) => End::Done,
        Err(Error::InputTooLong) => End::TooLong,
        Err(Error::File(DiskFault::Failed)) => End::Failed,
        Err(_) => End::Otherwise,
    }
}

/// The same, with the replacer made.
fn end_with(
    alloc: Global,
    source: &mut MemSource,
    sink: &mut MemSink,
    cap: u64,
) -> Result<End, Fail> {
    let replacer = one_by_1(alloc)?;
    let end = end_by(alloc, source, sink, &replacer, cap);
    drop(replacer);
    Ok(end)
}

/// The same, with the input made.
fn end_to(alloc: Global, sink: &mut MemSink, stream: &Stream) -> Result<End, Fail> {
    let mut source = MemSource::new(alloc, stream.input, stream.piece.max(1))?;
    source.fail_at(stream.read);
    end_with(alloc, &mut source, sink, stream.cap)
}

/// How a stream ends, and whether what is written to a sink is as wanted.
fn seen_on(alloc: Global, sink: &mut MemSink, stream: &Stream) -> Result<(End, bool), Fail> {
    sink.fail_at(stream.write);
    let end = end_to(alloc, sink, stream)?;
    Ok((end, has_written(sink, stream.written)))
}

/// The same, with the sink made.
fn seen(alloc: Global, stream: &Stream) -> Result<(End, bool), Fail> {
    let mut sink = MemSink::new(alloc, 100)?;
    seen_on(alloc, &mut sink, stream)
}

/// A stream ends as is wanted.
fn check(rt: &(impl Abort + AllocGlobal), stream: &Stream) -> Result<(), Fail> {
    let (read, write) = (stream.read, stream.write);
    let (end, is_written) = seen(rt.alloc(), stream)?;
    assert!(rt; end == stream.end, "read {read}, write {write}");
    assert!(rt; is_written, "read {read}, write {write}");
    Ok(())
}

/// Of `one` by single bytes: a failing read and a failing write, how it ends, and what is written.
const FAILING: &[(u64, u64, End, &[u8])] = &[
    (0, 0, End::Done, b"1"),
    (2, 0, End::Failed, b""),
    (0, 1, End::Failed, b""),
    (2, 1, End::Failed, b""),
];

#[test]
fn a_failing_read_or_a_failing_first_write_writes_nothing(rt: HostRuntime) -> Result<(), Fail> {
    for (read, write, end, written) in FAILING {
        let stream = Stream {
            input: b"one",
            piece: 1,
            cap: 100,
            read: *read,
            write: *write,
            end: *end,
            written,
        };
        check(&rt, &stream)?;
    }
    Ok(())
}

/// Under a cap of eight bytes: an input, how it ends, and what is written.
const CAPPED: &[(&[u8], End, &[u8])] = &[
    (b"one two o", End::TooLong, b""),
    (b"one two ", End::Done, b"1 two "),
];

#[test]
fn a_stream_has_a_cap_on_bytes(rt: HostRuntime) -> Result<(), Fail> {
    for (input, end, written) in CAPPED {
        let stream = Stream {
            input,
            piece: 3,
            cap: 8,
            read: 0,
            write: 0,
            end: *end,
            written,
        };
        check(&rt, &stream)?;
    }
    Ok(())
}
