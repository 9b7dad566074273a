//! Prints each line that a pattern matches, as `path:line:text`, of the files whose path fits a glob.
//!
//! `example_lines PATTERN GLOB FOLDER`
#![tactic(auto)]

ghost use Rattle.sd_io.specs.Disk.{SameTree};

use anyhow::{Context, Error, Result};
use glob_match::Glob;
use grep_matcher::Matcher;
use grep_regex::RegexMatcher;
use host_io::HostDisk;
use sd_io::{Disk, Text};
use std::alloc::Global;
use std::{env, str};
use walkdir::WalkDir;

/// So many entries below the root are too many.
const CAP: u64 = 1_000_000;

fn main(rt: HostRuntime) -> Result<()> {
    let words: Vec<String> = env::args(&rt)?.skip(1).collect(rt.alloc())?;
    match words.as_slice() {
        [pattern, glob, folder] => show_lines(&rt, pattern, glob, folder),
        _ => Err(Error::msg("the words are PATTERN GLOB FOLDER")),
    }
}

/// Prints the lines that a pattern matches, of the files below a folder whose path fits a glob.
fn show_lines(rt: &HostRuntime, pattern: &str, glob: &str, folder: &str) -> Result<()> {
    let glob = Glob::read(rt.alloc(), glob)?.context("the glob isn't valid")?;
    let mut disk = HostDisk::new(rt);
    let paths = paths_below(rt.alloc(), &mut disk, folder, &glob)?;
    let matcher = RegexMatcher::new_line_matcher(rt.alloc(), pattern)?;
    show_all(rt, &mut disk, &matcher, &paths)
}

/// The files below a root whose path fits a glob, by their names. Nothing is changed on the disk.
fn paths_below<D: Disk>(alloc: Global, disk: &mut D, root: &str, glob: &Glob) -> Result<Vec<Text>>
    ensures { SameTree (D.state disk.old) (D.state disk.new) }
{
    let walk = WalkDir::new(alloc, root)?.sort_by_file_name();
    let mut paths = Vec::new(alloc);
    for entry in walk.into_iter(disk).collect_capped(CAP)? {
        if entry.file_type().is_file() && glob.fits(alloc, entry.path())? {
            paths.push(entry.into_path())?;
        }
    }
    Ok(paths)
}

/// Prints the lines that match, file by file.
fn show_all<D: Disk>(
    rt: &HostRuntime,
    disk: &mut D,
    matcher: &RegexMatcher,
    paths: &[Text],
) -> Result<()> {
    for path in paths {
        show(rt, disk, matcher, path.as_str())?;
    }
    Ok(())
}

/// Prints the lines of a file that match, if it is text.
fn show<D: Disk>(rt: &HostRuntime, disk: &mut D, matcher: &RegexMatcher, path: &str) -> Result<()> {
    let bytes = disk.read_file(rt.alloc(), path)?;
    for (index, line) in str::from_utf8(&bytes).unwrap_or("").lines().enumerate() {
        if matcher.is_match(line.as_bytes())? {
            println!(rt; "{path}:{}:{line}", index.saturating_add(1))?;
        }
    }
    Ok(())
}
