//! Whether globs are valid, whether they fit, what they capture, and how many steps it takes to tell.

use crate::{Answer, said, yes_or_no};
use case_reader::{Case, CaseFault};
use glob_match::{glob_match, glob_match_steps, glob_match_with_captures, glob_valid};
use sd_base::{NoMemory, Steps, Tally};
use std::alloc::Global;
use std::ops::Range;

/// A text so many times, and then an end.
fn repeated(alloc: Global, text: &str, times: u32, end: &str) -> Result<String, CaseFault> {
    let mut path = String::new(alloc);
    for _ in 0..times {
        path.push_str(text)?;
    }
    path.push_str(end)?;
    Ok(path)
}

/// The path of a case: its second field, or where it has four, that field as many times as the third says, and then the fourth.
fn path_of(alloc: Global, case: &Case<'_>) -> Result<String, CaseFault> {
    let text = case.line().text(alloc, 1)?;
    if case.inputs() == 2 {
        return Ok(text);
    }
    let times = case.line().number(2)?;
    let end = case.line().text(alloc, 3)?;
    repeated(alloc, text.as_str(), times, end.as_str())
}

/// A glob, a path: whether the path fits.
pub fn fits(alloc: Global, case: &Case<'_>) -> Answer {
    let glob = case.line().text(alloc, 0)?;
    let path = path_of(alloc, case)?;
    let fits = glob_match(alloc, glob.as_str(), path.as_str())?;
    said(alloc, yes_or_no(fits))
}

/// Whether a path fits a glob, and how many steps it takes to tell.
fn told_in_steps(alloc: Global, glob: &str, path: &str) -> Result<(bool, u64), NoMemory> {
    let mut steps = Steps::new(Tally::default());
    let fits = glob_match_steps(alloc, glob, path, &mut steps)?;
    Ok((fits, steps.into_ledger().ticks))
}

/// A glob, a path: whether the path fits, and how many steps it takes to tell.
pub fn steps(alloc: Global, case: &Case<'_>) -> Answer {
    let glob = case.line().text(alloc, 0)?;
    let path = path_of(alloc, case)?;
    let (fits, ticks) = told_in_steps(alloc, glob.as_str(), path.as_str())?;
    let fits = yes_or_no(fits);
    Ok(Some(format!(in alloc; "{fits} {ticks}")?.into_bytes()))
}

/// A glob: whether it is valid.
pub fn valid(alloc: Global, case: &Case<'_>) -> Answer {
    let glob = case.line().text(alloc, 0)?;
    said(alloc, yes_or_no(glob_valid(glob.as_str())))
}

/// What a glob captures of a path. Callers are told nothing of it, so that they are quickly proved.
fn captured(alloc: Global, glob: &str, path: &str) -> Result<Option<Vec<Range<usize>>>, NoMemory> {
    glob_match_with_captures(alloc, glob, path)
}

/// A glob, a path: where the ranges start and end that it captures, or nothing where the path doesn't fit.
pub fn captures(alloc: Global, case: &Case<'_>) -> Answer {
    let glob = case.line().text(alloc, 0)?;
    let path = path_of(alloc, case)?;
    match captured(alloc, glob.as_str(), path.as_str())? {
        Some(ranges) => shown(alloc, &ranges),
        None => Ok(None),
    }
}

/// Where ranges start and end.
fn shown(alloc: Global, ranges: &[Range<usize>]) -> Answer {
    let mut out = String::new(alloc);
    for (place, range) in ranges.iter().enumerate() {
        if place > 0 {
            out.push('/')?;
        }
        write!(out, "{}-{}", range.start, range.end)?;
    }
    Ok(Some(out.into_bytes()))
}

/// A glob, a path: whether the glob has captures of it.
pub fn has_captures(alloc: Global, case: &Case<'_>) -> Answer {
    let glob = case.line().text(alloc, 0)?;
    let path = path_of(alloc, case)?;
    let has_captures = captured(alloc, glob.as_str(), path.as_str())?.is_some();
    said(alloc, yes_or_no(has_captures))
}
