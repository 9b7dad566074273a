//! The line of an error.

use error_line::{print_shown, print_text};
use mem_io::MemSink;
use std::alloc::Global;
use std::fmt;
use std::test::Fail;

/// Shows itself as this many times the text `ab`.
#[derive(Drop)]
struct Repeated(u64);

impl fmt::Display for Repeated {
    fn fmt<W: fmt::Write>(&self, f: &mut fmt::Formatter<W>) -> fmt::Result {
        for _time in 0..self.0 {
            write!(f, "ab")?;
        }
        Ok(())
    }
}

/// Shows a text, and then fails.
#[derive(Drop)]
struct Failing;

impl fmt::Display for Failing {
    fn fmt<W: fmt::Write>(&self, f: &mut fmt::Formatter<W>) -> fmt::Result {
        write!(f, "as far as it goes")?;
        Err(fmt::Error)
    }
}

/// Whether an error is printed so into a sink with room for so many bytes, with so many writes that fail.
fn is_shown(
    alloc: Global,
    room: usize,
    shown: &Repeated,
    printed: &[u8],
    faults: u64,
) -> Result<bool, Fail> {
    let mut err = MemSink::new(alloc, room)?;
    let is_ok = print_shown(&mut err, shown).is_ok();
    Ok(is_ok == (faults == 0) && err.bytes() == printed && err.faults() == faults)
}

/// The same of a text.
fn is_printed(
    alloc: Global,
    room: usize,
    text: &str,
    printed: &[u8],
    faults: u64,
) -> Result<bool, Fail> {
    let mut err = MemSink::new(alloc, room)?;
    let is_ok = print_text(&mut err, text).is_ok();
    Ok(is_ok == (faults == 0) && err.bytes() == printed && err.faults() == faults)
}

#[test]
fn an_error_is_printed_whole_however_long(rt: HostRuntime) -> Result<(), Fail> {
    for count in [0, 1, 32767, 32768, 32769, 65536, 70000] {
        let shown = Repeated(count);
        let line = format!(in rt.alloc(); "error: {shown}\n")?;
        let is_shown = is_shown(rt.alloc(), 200_000, &shown, line.as_bytes(), 0)?;
        assert!(rt; is_shown, "{count} times");
    }
    Ok(())
}

/// What is printed of a text, and behind it of an error that fails in the middle of its text.
fn printed_after(alloc: Global) -> Result<Vec<u8>, Fail> {
    let mut err = MemSink::new(alloc, 100)?;
    if print_text(&mut err, "out of memory").is_err() || print_shown(&mut err, &Failing).is_err() {
        return Err("a print failed".into());
    }
    Ok(err.bytes().to_vec(alloc)?)
}

#[test]
fn a_text_is_printed_in_a_line(rt: HostRuntime) -> Result<(), Fail> {
    let is_printed = is_printed(
        rt.alloc(),
        100,
        "out of memory",
        b"error: out of memory\n",
        0,
    )?;
    assert!(rt; is_printed);
    let both = printed_after(rt.alloc())?;
    assert!(rt; both.as_slice() == b"error: out of memory\nerror: as far as it goes\n".as_slice());
    Ok(())
}

#[test]
fn a_failing_sink_takes_a_prefix_of_the_line(rt: HostRuntime) -> Result<(), Fail> {
    for (room, taken) in [
        (0, ""),
        (3, "err"),
        (7, "error: "),
        (9, "error: ab"),
        (11, "error: abab"),
    ] {
        let is_printed = is_printed(rt.alloc(), room, "abab", taken.as_bytes(), 1)?;
        assert!(rt; is_printed, "room for {room}");
        let is_shown = is_shown(rt.alloc(), room, &Repeated(2), taken.as_bytes(), 1)?;
        assert!(rt; is_shown, "room for {room}");
    }
    Ok(())
}
