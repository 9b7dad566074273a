//! Walks by their options, and what they give as lines.
//!
//! A line is an item's depth, its kind (`d`, `f`, `l`, `o`; behind `l>` where it is a link that was followed) and its path, or `!` and
//! the text of an error.

ghost use Rattle.std.specs.Prelude.{◌<◌};
ghost use Rattle.std.specs.Iterator.{IsFinite};

use mem_io::MemDisk;
use sd_io::{Disk, Kind};
use std::alloc::Global;
use std::process::Abort;
use std::test::Fail;
use walkdir::{DirEntry, Error, ErrorKind, Unsorted, Walk, WalkDir};

/// An option with its value.
#[derive(Clone, Copy)]
pub(crate) enum Setting {
    MinDepth(usize),
    MaxDepth(usize),
    FollowLinks(bool),
    FollowRootLinks(bool),
    ContentsFirst(bool),
    SameFileSystem(bool),
}

/// What is walked, and how.
#[derive(Clone, Copy)]
pub(crate) struct Question<'a> {
    pub(crate) root: &'a str,
    /// Set one after the other.
    pub(crate) settings: &'a [Setting],
    /// Whether entries come by their file names, and not in the disk's order.
    pub(crate) sorts: bool,
}

/// How many lists are open at most where nothing is said of it.
pub(crate) const MANY_OPEN: usize = 10;

/// Sets an option.
fn set(walk: WalkDir<Unsorted>, setting: Setting) -> WalkDir<Unsorted> {
    match setting {
        Setting::MinDepth(depth) => walk.min_depth(depth),
        Setting::MaxDepth(depth) => walk.max_depth(depth),
        Setting::FollowLinks(yes) => walk.follow_links(yes),
        Setting::FollowRootLinks(yes) => walk.follow_root_links(yes),
        Setting::ContentsFirst(yes) => walk.contents_first(yes),
        Setting::SameFileSystem(yes) => walk.same_file_system(yes),
    }
}

/// A root that is walked with the defaults but for these options, set one after the other.
pub(crate) fn asked(
    alloc: Global,
    root: &str,
    settings: &[Setting],
) -> Result<WalkDir<Unsorted>, Fail> {
    let mut walk = WalkDir::new(alloc, root)?;
    for setting in settings {
        walk = set(walk, *setting);
    }
    Ok(walk)
}

/// The letter of a kind.
pub(crate) fn letter(kind: Kind) -> &'static str {
    match kind {
        Kind::Directory => "d",
        Kind::File => "f",
        Kind::Link => "l",
        Kind::Other => "o",
    }
}

/// Puts an entry behind a text.
fn push_entry(text: &mut String, entry: &DirEntry) -> Result<(), Fail> {
    let depth = entry.depth();
    let followed = if entry.followed { "l>" } else { "" };
    let letter = letter(entry.file_type());
    let path = entry.path();
    write!(text, "{depth} {followed}{letter} {path}")?;
    Ok(())
}

/// Puts an error behind a text.
fn push_error(text: &mut String, error: &Error) -> Result<(), Fail> {
    let depth = error.depth();
    write!(text, "{depth} ! {error}")?;
    Ok(())
}

/// Puts an item behind a text, as a line with this end.
pub(crate) fn push_line(
    text: &mut String,
    item: &Result<DirEntry, Error>,
    end: &str,
) -> Result<(), Fail> {
    match item {
        Ok(entry) => push_entry(text, entry)?,
        Err(error) => push_error(text, error)?,
    }
    text.push_str(end)?;
    Ok(())
}

/// What a walk gives up to its end, a line an item.
pub(crate) fn text_of<W: Walk + Drop>(alloc: Global, walk: W) -> Result<String, Fail>
    requires can { W.can_next walk }
    requires ends { IsFinite (W.remaining walk) }
{
    let mut text = String::new(alloc);
    for item in walk {
        push_line(&mut text, &item, "\n")?;
    }
    Ok(text)
}

/// What a question gives, a line an item, with so many lists open at most.
pub(crate) fn given<D: Disk>(
    alloc: Global,
    disk: &mut D,
    question: &Question<'_>,
    max_open: usize,
) -> Result<String, Fail> {
    let walk = asked(alloc, question.root, question.settings)?.max_open(max_open);
    if question.sorts {
        text_of(alloc, walk.sort_by_file_name().into_iter(disk))
    } else {
        text_of(alloc, walk.into_iter(disk))
    }
}

/// How many entries a question in the disk's order gives by a cap, or the kind of its error.
pub(crate) fn collected<D: Disk>(
    alloc: Global,
    disk: &mut D,
    question: &Question<'_>,
    max_open: usize,
    cap: u64,
) -> Result<Result<usize, ErrorKind>, Fail>
    requires { 0 < cap }
{
    let walk = asked(alloc, question.root, question.settings)?.max_open(max_open);
    let entries = walk.into_iter(disk).collect_capped(cap);
    Ok(match entries {
        Ok(entries) => Ok(entries.len()),
        Err(error) => Err(error.kind()),
    })
}

/// Whether a text is these lines, each with its end.
pub(crate) fn is_joined(text: &str, lines: &[&str]) -> bool {
    let mut rest = text;
    for line in lines {
        match rest.strip_prefix(*line) {
            Some(end) => rest = end,
            None => return false,
        }
        match rest.strip_prefix("\n") {
            Some(later) => rest = later,
            None => return false,
        }
    }
    rest.is_empty()
}

/// How many failures of the disk the lines of a text tell.
pub(crate) fn failures_in(text: &str) -> u64 {
    (text.split("input or output failed\n").count() as u64).saturating_sub(1)
}

/// A text is these lines.
pub(crate) fn check_lines(
    rt: &(impl Abort + AllocGlobal),
    name: &str,
    given: &str,
    lines: &[&str],
) {
    assert!(rt; is_joined(given, lines), "{name}: {given}");
}

/// A disk never had more lists open than these.
pub(crate) fn check_lists(rt: &(impl Abort + AllocGlobal), disk: &MemDisk, lists: u64) {
    let most = disk.lists_most();
    assert!(rt; most <= lists, "{most} lists were open, of {lists}");
}
