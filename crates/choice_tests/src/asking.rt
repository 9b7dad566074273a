//! Choices, and what they give as lines.
//!
//! A line is a path, or `!` and the text of a fault.

use chosen_files::{Choice, ChoiceFault, choose_capped, choose_kept, read_globs};
use glob_match::Glob;
use mem_io::MemDisk;
use sd_base::Text;
use sd_ignore::Ignore;
use sd_io::Globs;
use std::alloc::Global;
use std::test::Fail;

/// These texts as globs.
fn globs_of(alloc: Global, texts: &[&str]) -> Result<Globs, Fail> {
    let mut globs = Globs::new(alloc);
    for text in texts {
        globs.push(text)?;
    }
    Ok(globs)
}

/// These globs as they are read.
fn read(alloc: Global, globs: &Globs) -> Result<Vec<Glob>, ChoiceFault> {
    read_globs(alloc, globs)
}

/// These texts as globs that were read.
fn read_texts(alloc: Global, texts: &[&str]) -> Result<Vec<Glob>, Fail> {
    let globs = globs_of(alloc, texts)?;
    Ok(read(alloc, &globs)?)
}

/// What is chosen below a root. Callers are told nothing of it, so that a test is quickly proved.
fn asked(
    alloc: Global,
    disk: &mut MemDisk,
    root: &str,
    globs: &[Glob],
    cap: u64,
) -> Result<Choice, ChoiceFault> {
    if cap == 0 {
        return Err(ChoiceFault::TooMany);
    }
    choose_capped(alloc, disk, root, globs, cap)
}

/// Adds paths to a text, each as a line.
fn push_paths(text: &mut String, paths: &[Text]) -> Result<(), Fail> {
    for path in paths {
        text.push_str(path.as_str())?;
        text.push('\n')?;
    }
    Ok(())
}

/// Paths as lines.
fn text_of_paths(alloc: Global, paths: &[Text]) -> Result<String, Fail> {
    let mut text = String::new(alloc);
    push_paths(&mut text, paths)?;
    Ok(text)
}

/// A choice as lines.
fn text_of(alloc: Global, choice: &Result<Choice, ChoiceFault>) -> Result<String, Fail> {
    match choice {
        Ok(choice) => text_of_paths(alloc, &choice.paths),
        Err(fault) => Ok(format!(in alloc; "! {fault}\n")?),
    }
}

/// What is chosen below a root by these globs, where fewer entries than the cap lie there.
pub(crate) fn chosen(
    alloc: Global,
    disk: &mut MemDisk,
    root: &str,
    globs: &[&str],
    cap: u64,
) -> Result<String, Fail> {
    let globs = read_texts(alloc, globs)?;
    let choice = asked(alloc, disk, root, &globs, cap);
    text_of(alloc, &choice)
}

/// Whether that is this text.
pub(crate) fn chooses(
    alloc: Global,
    disk: &mut MemDisk,
    root: &str,
    globs: &[&str],
    cap: u64,
    wanted: &str,
) -> Result<bool, Fail> {
    let given = chosen(alloc, disk, root, globs, cap)?;
    Ok(given.as_str() == wanted)
}

/// What is chosen below a root under rules of what is ignored.
fn asked_under(
    alloc: Global,
    disk: &mut MemDisk,
    root: &str,
    globs: &[Glob],
    rules: &Ignore,
) -> Result<Choice, ChoiceFault> {
    choose_kept(alloc, disk, root, globs, rules, 1000)
}

/// Whether this text is what is chosen of all files below a root under the rules of a text.
pub(crate) fn keeps(
    alloc: Global,
    disk: &mut MemDisk,
    root: &str,
    rules: &str,
    wanted: &str,
) -> Result<bool, Fail> {
    let globs = read_texts(alloc, &["**"])?;
    let rules = Ignore::read(alloc, rules)?;
    let choice = asked_under(alloc, disk, root, &globs, &rules);
    let given = text_of(alloc, &choice)?;
    Ok(given.as_str() == wanted)
}
