//! Patterns that make a search by trial and error take for ever, on long texts.

use crate::running::run_given;
use mem_io::MemDisk;
use sd_base::NoMemory;
use std::alloc::Global;
use std::process::Abort;
use std::test::Fail;

/// Patterns without a match in `xyz` again and again, though each of its bytes may begin one and stand in one. The last two have more than 62
/// parts that take a character, and more than 256 parts.
const PATTERNS: [&str; 6] = [
    r"(?:\w*)*\bz",
    r"(\w+\w+)+\bz",
    r"(?:\w|\w\w)*\bz",
    r"((((((((((\w*)*)*)*)*)*)*)*)*)*)*\bz",
    r"(?:\w{0,20}){0,4}\bz",
    r"(?:\w{0,9}){0,40}\bz",
];

/// How many bytes the text has.
const LENGTH: usize = 200_000;

/// The text: `xyz` again and again.
fn letters(alloc: Global) -> Result<Vec<u8>, NoMemory> {
    let mut text = Vec::with_capacity(alloc, LENGTH)?;
    for place in 0..LENGTH {
        text.push(b"xyz"[place % 3])?;
    }
    Ok(text)
}

/// A text comes out of the program as it went in where the pattern is searched in it.
fn check_same_on(
    rt: &(impl Abort + AllocGlobal),
    disk: &mut MemDisk,
    pattern: &str,
    text: &[u8],
) -> Result<(), Fail> {
    let ran = run_given(rt.alloc(), disk, &["--", pattern, "1"], text, LENGTH)?;
    assert!(rt; ran.err.is_empty());
    assert!(rt; ran.outcome.status == 0);
    assert!(rt; ran.out.as_slice() == text, "{pattern}");
    Ok(())
}

/// The same, with the disk made.
fn check_same(rt: &(impl Abort + AllocGlobal), pattern: &str, text: &[u8]) -> Result<(), Fail> {
    let mut disk = MemDisk::new(rt.alloc());
    check_same_on(rt, &mut disk, pattern, text)
}

#[test]
fn patterns_that_no_filter_answers_end_in_time(rt: HostRuntime) -> Result<(), Fail> {
    let text = letters(rt.alloc())?;
    for pattern in PATTERNS {
        check_same(&rt, pattern, text.as_slice())?;
    }
    Ok(())
}
