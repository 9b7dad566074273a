//! Commands on trees, and what is told of them.

use crate::swapping::Swap;
use mem_io::MemDisk;
use sd_core::{Error, Report, sweep};
use sd_io::Globs;
use std::alloc::Global;
use std::test::Fail;

/// `1` in place of each `one`.
pub(crate) fn one_to_digit(alloc: Global) -> Swap<'static> {
    Swap {
        alloc,
        find: b"one",
        with: b"1",
    }
}

/// These texts as globs.
fn globs_of(alloc: Global, texts: &[&str]) -> Result<Globs, Fail> {
    let mut globs = Globs::new(alloc);
    for text in texts {
        globs.push(text)?;
    }
    Ok(globs)
}

/// What is told of a command: its counts, or the text of its fault.
fn text_of(alloc: Global, answer: &Result<Report, Error>) -> Result<String, Fail> {
    match answer {
        Ok(report) => {
            let (chosen, changed, replaced) = (report.chosen, report.changed, report.replaced);
            Ok(format!(in alloc; "chosen {chosen}, changed {changed}, replaced {replaced}")?)
        }
        Err(fault) => Ok(format!(in alloc; "{fault}")?),
    }
}

/// Rewrites the files below a root that these globs choose.
fn answer_of(
    alloc: Global,
    disk: &mut MemDisk,
    root: &str,
    globs: &Globs,
    swap: &Swap<'_>,
) -> Result<Report, Error> {
    sweep(alloc, disk, root, globs, swap)
}

/// Rewrites the files below a root that these globs choose, and gives what is told.
pub(crate) fn swept(
    alloc: Global,
    disk: &mut MemDisk,
    root: &str,
    globs: &[&str],
    swap: &Swap<'_>,
) -> Result<String, Fail> {
    let globs = globs_of(alloc, globs)?;
    let answer = answer_of(alloc, disk, root, &globs, swap);
    text_of(alloc, &answer)
}
