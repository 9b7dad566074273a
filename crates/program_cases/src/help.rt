//! The help that is shown.

use crate::running::{Ran, run_words};
use crate::tree::disk_of;
use anyhow::Error;
use case_reader::Case;
use std::alloc::Global;

/// What the help is shown otherwise than a case has it; or nothing.
pub fn difference(alloc: Global, case: &Case<'_>) -> Result<Option<Vec<u8>>, Error> {
    let ran = run_on_new(alloc, case)?;
    if !is_help(&ran) {
        return Ok(Some("no help".as_bytes().to_vec(alloc)?));
    }
    missing(alloc, case, str::from_utf8(&ran.err)?)
}

/// Runs the words of a case on a new disk.
fn run_on_new(alloc: Global, case: &Case<'_>) -> Result<Ran, Error> {
    let mut disk = disk_of(alloc, case)?;
    run_words(alloc, case, &mut disk)
}

/// Whether a run ended as one that shows the help.
fn is_help(ran: &Ran) -> bool {
    ran.ending.status == 2
        && ran.ending.cause == "Usage"
        && ran.out.is_empty()
        && ran.err.starts_with(b"error: ")
}

/// The first text that a case wants in the help, and that isn't there.
fn missing(alloc: Global, case: &Case<'_>, help: &str) -> Result<Option<Vec<u8>>, Error> {
    for number in 0..usize::MAX {
        let Some(line) = case.part(number) else {
            break;
        };
        let text = line.text(alloc, 1)?;
        if !help.contains(text.as_str()) {
            return Ok(Some(text.into_bytes()));
        }
    }
    Ok(None)
}
