//! Which files a command on a tree works on, and how far it goes.
//!
//! A case of `chosen` is a root, globs, and the paths that are chosen below it, in their order; `cap` is how many entries are too many,
//! 1000 without it. In place of paths there is `! ` and the text of a fault.
//! A case of `globs` is globs, and how many of them are read, or the text that refuses them.
//! A case of `capped` is a root, a number of entries that is too many, and what is told of a command that puts `1` in place of each
//! `one` in all files below it.

use crate::asked::{number_of, words_of};
use crate::shown::left_difference;
use crate::tree::disk_of;
use anyhow::Error;
use case_reader::{Case, Line};
use chosen_files::{Choice, ChoiceFault, choose_capped, read_globs};
use glob_match::Glob;
use mem_io::MemDisk;
use sd_base::{Globs, Text};
use sd_core::{Report, sweep_capped};
use sd_replace::{Replacer, ReplacerFault};
use std::alloc::Global;

/// An answer: bytes, or nothing.
type Answer = Result<Option<Vec<u8>>, Error>;

/// What is chosen otherwise than a case has it; or nothing.
pub fn chosen_otherwise(alloc: Global, case: &Case<'_>) -> Answer {
    let (found, lists) = chosen_on_new(alloc, case)?;
    if lists > 10 {
        return Ok(Some("many lists".as_bytes().to_vec(alloc)?));
    }
    match found == wanted_lines(alloc, case.line())? {
        true => Ok(None),
        false => Ok(Some(found.into_bytes())),
    }
}

/// What a case chooses, as lines, and how many lists are open at most.
fn chosen_on_new(alloc: Global, case: &Case<'_>) -> Result<(String, u64), Error> {
    let mut disk = disk_of(alloc, case)?;
    let found = chosen(alloc, case, &mut disk)?;
    Ok((found, disk.lists_most()))
}

/// The fields of a case from the third on, as lines.
fn wanted_lines(alloc: Global, line: Line<'_>) -> Result<String, Error> {
    let mut lines = String::new(alloc);
    for field in 2..line.len() {
        lines.push_str(&line.text(alloc, field)?)?;
        lines.push('\n')?;
    }
    Ok(lines)
}

/// What is chosen on a disk, as lines.
fn chosen(alloc: Global, case: &Case<'_>, disk: &mut MemDisk) -> Result<String, Error> {
    let globs = words_of(alloc, case.line(), 1)?;
    let cap = number_of(case, "cap")?.unwrap_or(1000);
    let root = case.line().text(alloc, 0)?;
    chosen_by(alloc, disk, &root, &globs, cap)
}

/// What globs choose below a root, as lines.
fn chosen_by(
    alloc: Global,
    disk: &mut MemDisk,
    root: &str,
    globs: &Globs,
    cap: u64,
) -> Result<String, Error> {
    let read = read_globs(alloc, globs)?;
    let choice = choice_of(alloc, disk, root, &read, cap);
    lines_of(alloc, &choice)
}

/// What is chosen below a root.
fn choice_of(
    alloc: Global,
    disk: &mut MemDisk,
    root: &str,
    globs: &[Glob],
    cap: u64,
) -> Result<Choice, ChoiceFault> {
    choose_capped(alloc, disk, root, globs, cap.max(1))
}

/// A choice as lines.
fn lines_of(alloc: Global, choice: &Result<Choice, ChoiceFault>) -> Result<String, Error> {
    match choice {
        Ok(choice) => lines_of_paths(alloc, &choice.paths),
        Err(fault) => Ok(format!(in alloc; "! {fault}\n")?),
    }
}

/// Paths as lines.
fn lines_of_paths(alloc: Global, paths: &[Text]) -> Result<String, Error> {
    let mut lines = String::new(alloc);
    for path in paths {
        lines.push_str(path.as_str())?;
        lines.push('\n')?;
    }
    Ok(lines)
}

/// How many globs of a case are read, or the text that refuses them.
pub fn globs(alloc: Global, case: &Case<'_>) -> Answer {
    let globs = words_of(alloc, case.line(), 0)?;
    let text = match count_of(alloc, &globs) {
        Ok(count) => format!(in alloc; "{count}")?,
        Err(error) => format!(in alloc; "{error}")?,
    };
    Ok(Some(text.into_bytes()))
}

/// How many globs are read.
fn count_of(alloc: Global, globs: &Globs) -> Result<usize, ChoiceFault> {
    Ok(read_globs(alloc, globs)?.len())
}

/// What is told of a case's command, or what is left otherwise than it is to be.
pub fn capped(alloc: Global, case: &Case<'_>) -> Answer {
    let mut disk = disk_of(alloc, case)?;
    capped_on(alloc, case, &mut disk)
}

/// The same on a disk.
fn capped_on(alloc: Global, case: &Case<'_>, disk: &mut MemDisk) -> Answer {
    let told = swept(alloc, case, disk)?;
    match left_difference(alloc, case, disk)? {
        None => Ok(Some(told.into_bytes())),
        found => Ok(found),
    }
}

/// What is told of a case's command on a disk.
fn swept(alloc: Global, case: &Case<'_>, disk: &mut MemDisk) -> Result<String, Error> {
    let root = case.line().text(alloc, 0)?;
    let cap = u64::from(case.line().number(1)?);
    swept_below(alloc, disk, &root, cap)
}

/// Replaces `one` by `1`.
fn one_by_1(alloc: Global) -> Result<Replacer, ReplacerFault> {
    Replacer::new(alloc, "one", "1", false, None, 0)
}

/// What is told of the command below a root.
fn swept_below(alloc: Global, disk: &mut MemDisk, root: &str, cap: u64) -> Result<String, Error> {
    let replacer = one_by_1(alloc).map_err(|_| Error::msg("no replacer"))?;
    let told = swept_by(alloc, disk, root, cap, &replacer);
    drop(replacer);
    told
}

/// The same by a replacer.
fn swept_by(
    alloc: Global,
    disk: &mut MemDisk,
    root: &str,
    cap: u64,
    replacer: &Replacer,
) -> Result<String, Error> {
    let globs = all_files(alloc)?;
    let answer = answer_by(alloc, disk, root, &globs, cap, replacer);
    text_of(alloc, &answer)
}

/// What a command on a tree answers.
fn answer_by(
    alloc: Global,
    disk: &mut MemDisk,
    root: &str,
    globs: &Globs,
    cap: u64,
    replacer: &Replacer,
) -> Result<Report, sd_core::Error> {
    sweep_capped(alloc, disk, root, globs, replacer, cap.max(1))
}

/// The glob that all files fit.
fn all_files(alloc: Global) -> Result<Globs, Error> {
    let mut globs = Globs::new(alloc);
    globs.push("**")?;
    Ok(globs)
}

/// What is told of a command: its counts, or the text of its fault.
fn text_of(alloc: Global, answer: &Result<Report, sd_core::Error>) -> Result<String, Error> {
    match answer {
        Ok(report) => {
            let (chosen, changed, replaced) = (report.chosen, report.changed, report.replaced);
            Ok(format!(in alloc; "chosen {chosen}, changed {changed}, replaced {replaced}")?)
        }
        Err(fault) => Ok(format!(in alloc; "{fault}")?),
    }
}
