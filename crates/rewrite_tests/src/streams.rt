//! Streams.

use crate::replacers::{Nothing, Text};
use mem_io::{MemSink, MemSource};
use std::test::Fail;
use stream_rewrite::{StreamFault, replace_stream};

#[test]
fn a_stream_becomes_its_new_bytes(rt: HostRuntime) -> Result<(), Fail> {
    let alloc = rt.alloc();
    let mut input = MemSource::new(alloc, b"one two one", 3)?;
    let mut out = MemSink::new(alloc, 100)?;
    let text = Text {
        alloc,
        text: b"1 two 1",
    };
    assert!(rt; replace_stream(alloc, &mut input, &mut out, &text, 100).is_ok());
    assert!(rt; out.bytes() == b"1 two 1".as_slice());
    let mut input = MemSource::new(alloc, b"one", 1)?;
    assert!(rt; replace_stream(alloc, &mut input, &mut out, &Nothing, 100).is_ok());
    assert!(rt; out.bytes() == b"1 two 1one".as_slice());
    Ok(())
}

#[test]
fn no_more_than_the_cap_is_taken(rt: HostRuntime) -> Result<(), Fail> {
    let alloc = rt.alloc();
    let mut out = MemSink::new(alloc, 100)?;
    let mut nine = MemSource::new(alloc, b"123456789", 4)?;
    assert!(rt;
        replace_stream(alloc, &mut nine, &mut out, &Nothing, 8) == Err(StreamFault::InputTooLong)
    );
    assert!(rt; out.bytes().is_empty());
    let mut eight = MemSource::new(alloc, b"12345678", 4)?;
    assert!(rt; replace_stream(alloc, &mut eight, &mut out, &Nothing, 8).is_ok());
    assert!(rt; out.bytes() == b"12345678".as_slice());
    let mut none = MemSource::new(alloc, b"", 4)?;
    assert!(rt; replace_stream(alloc, &mut none, &mut out, &Nothing, 0).is_ok());
    Ok(())
}

#[test]
fn failing_streams_are_told(rt: HostRuntime) -> Result<(), Fail> {
    let alloc = rt.alloc();
    let mut input = MemSource::new(alloc, b"12345678", 4)?;
    input.fail_at(2);
    let mut out = MemSink::new(alloc, 100)?;
    assert!(rt;
        replace_stream(alloc, &mut input, &mut out, &Nothing, 100) == Err(StreamFault::Failed)
    );
    assert!(rt; out.bytes().is_empty());
    assert!(rt; input.faults() == 1);
    let mut input = MemSource::new(alloc, b"12345678", 4)?;
    let mut small = MemSink::new(alloc, 3)?;
    assert!(rt;
        replace_stream(alloc, &mut input, &mut small, &Nothing, 100) == Err(StreamFault::Failed)
    );
    assert!(rt; small.bytes() == b"123".as_slice());
    assert!(rt; small.faults() == 1);
    Ok(())
}
