//! Directories that are left, and filtered walks.

ghost use Rattle.std.specs.Prelude.{◌≤◌};
ghost use Rattle.std.specs.Iterator.{IsFinite, size};

use crate::asking::{MANY_OPEN, Setting, asked, check_lines, push_line};
use crate::disks::{FOO, filled};
use mem_io::MemDisk;
use std::alloc::Global;
use std::process::Abort;
use std::test::Fail;
use walkdir::{DirEntry, Error, Walk};

/// Whether an item is an entry of this path.
fn is_at(item: &Result<DirEntry, Error>, path: &str) -> bool {
    matches!(item, Ok(entry) if entry.path() == path)
}

/// What ends the line of an item, which marks an entry that was just entered.
fn end_of_line(just_entered: bool) -> &'static str {
    if just_entered { " entered\n" } else { "\n" }
}

/// Leaves the directory of an item that is an entry of this path.
fn leave_at<W: Walk>(walk: &mut W, item: &Result<DirEntry, Error>, path: &str)
    requires can { W.can_next walk.old }
    requires ends { IsFinite (W.remaining walk.old) }
    ensures can { W.can_next walk.new }
    ensures ends { IsFinite (W.remaining walk.new) }
    ensures not_more { size (W.remaining walk.new) ≤ size (W.remaining walk.old) }
{
    if is_at(item, path) {
        walk.skip_current_dir();
    }
}

/// What a walk gives, a line an item, where the directory of an entry of this path is left. Entries that were just entered are marked.
fn text_leaving<W: Walk + Drop>(alloc: Global, walk: W, path: &str) -> Result<String, Fail>
    requires can { W.can_next walk }
    requires ends { IsFinite (W.remaining walk) }
{
    let mut walk = walk;
    let mut text = String::new(alloc);
    while let Some(item) = walk.next() {
        push_line(&mut text, &item, end_of_line(walk.just_entered()))?;
        leave_at(&mut walk, &item, path);
    }
    Ok(text)
}

/// The same after a directory was left before the first item.
fn text_after_leaving<W: Walk + Drop>(alloc: Global, walk: W, path: &str) -> Result<String, Fail>
    requires can { W.can_next walk }
    requires ends { IsFinite (W.remaining walk) }
{
    let mut walk = walk;
    walk.skip_current_dir();
    text_leaving(alloc, walk, path)
}

/// Which entries a filter refuses.
#[derive(Clone, Copy)]
enum Refused {
    /// Those of a name.
    Named(&'static str),
    /// The root, where it is a directory.
    Root,
    /// Files that don't lie below a directory of the root.
    FirstFiles,
    All,
}

/// Whether a filter keeps an entry.
fn keeps(refused: Refused, entry: &DirEntry) -> bool {
    match refused {
        Refused::Named(name) => entry.file_name() != name,
        Refused::Root => !entry.file_type().is_dir() || entry.depth() > 0,
        Refused::FirstFiles => !entry.file_type().is_file() || entry.depth() > 1,
        Refused::All => false,
    }
}

/// How `foo` is walked.
#[derive(Clone, Copy)]
enum Way {
    Sorted,
    Unsorted,
    /// In the disk's order, where a directory is left before the first item.
    LeftFirst,
    SortedWithout(Refused),
    Without(Refused),
    /// Without what a filter refuses, and what a second one does.
    WithoutBoth(Refused, Refused),
    /// Without what a filter refuses, where a second one was put on and taken off again.
    WithinSecond(Refused, Refused),
}

/// What `foo` gives sorted by file name, but for what a filter refuses.
fn sorted(
    alloc: Global,
    disk: &mut MemDisk,
    row: &Row,
    max_open: usize,
    refused: Option<Refused>,
) -> Result<String, Fail> {
    let walk = asked(alloc, "foo", row.settings)?.max_open(max_open);
    let walk = walk.sort_by_file_name().into_iter(disk);
    match refused {
        None => text_leaving(alloc, walk, row.left),
        Some(refused) => text_leaving(
            alloc,
            walk.filter_entry(|entry: &DirEntry| keeps(refused, entry)),
            row.left,
        ),
    }
}

/// What `foo` gives in the disk's order, but for what a filter refuses.
fn unsorted(
    alloc: Global,
    disk: &mut MemDisk,
    row: &Row,
    max_open: usize,
    refused: Option<Refused>,
) -> Result<String, Fail> {
    let walk = asked(alloc, "foo", row.settings)?.max_open(max_open);
    let walk = walk.into_iter(disk);
    match refused {
        None => text_leaving(alloc, walk, row.left),
        Some(refused) => text_leaving(
            alloc,
            walk.filter_entry(|entry: &DirEntry| keeps(refused, entry)),
            row.left,
        ),
    }
}

/// What `foo` gives in the disk's order, where a directory is left before the first item.
fn left_first(
    alloc: Global,
    disk: &mut MemDisk,
    row: &Row,
    max_open: usize,
) -> Result<String, Fail> {
    let walk = asked(alloc, "foo", row.settings)?.max_open(max_open);
    text_after_leaving(alloc, walk.into_iter(disk), row.left)
}

/// What `foo` gives in the disk's order, but for what two filters refuse, the second of which may be taken off again.
fn twice(
    alloc: Global,
    disk: &mut MemDisk,
    row: &Row,
    max_open: usize,
    (first, second, takes_off): (Refused, Refused, bool),
) -> Result<String, Fail> {
    let walk = asked(alloc, "foo", row.settings)?
        .max_open(max_open)
        .into_iter(disk)
        .filter_entry(|entry: &DirEntry| keeps(first, entry))
        .filter_entry(|entry: &DirEntry| keeps(second, entry));
    if takes_off {
        text_leaving(alloc, walk.into_walk(), row.left)
    } else {
        text_leaving(alloc, walk, row.left)
    }
}

/// A walk of `foo`, and what it gives, a line an item.
#[derive(Clone, Copy)]
struct Row {
    name: &'static str,
    way: Way,
    settings: &'static [Setting],
    /// The directory of an entry of this path is left.
    left: &'static str,
    lines: &'static [&'static str],
}

/// What a row gives.
fn given_on(alloc: Global, disk: &mut MemDisk, row: &Row, max_open: usize) -> Result<String, Fail> {
    match row.way {
        Way::Sorted => sorted(alloc, disk, row, max_open, None),
        Way::Unsorted => unsorted(alloc, disk, row, max_open, None),
        Way::LeftFirst => left_first(alloc, disk, row, max_open),
        Way::SortedWithout(refused) => sorted(alloc, disk, row, max_open, Some(refused)),
        Way::Without(refused) => unsorted(alloc, disk, row, max_open, Some(refused)),
        Way::WithoutBoth(first, second) => twice(
            alloc,
            disk,
            row,
            max_open,
            (first, second, false),
        ),
        Way::WithinSecond(first, second) => twice(
            alloc,
            disk,
            row,
            max_open,
            (first, second, true),
        ),
    }
}

/// What a row gives on a disk of its own, and how many calls that makes.
fn given(alloc: Global, row: &Row, max_open: usize) -> Result<(String, u64), Fail> {
    let mut disk = filled(alloc, FOO)?;
    let given = given_on(alloc, &mut disk, row, max_open)?;
    Ok((given, disk.calls()))
}

/// A path of nothing.
const NONE: &str = "none";

const ROWS: &[Row] = &[
    Row {
        name: "a directory is left",
        way: Way::Sorted,
        settings: &[],
        left: "foo/abc",
        lines: &["0 d foo entered", "1 d foo/abc entered", "1 f foo/def"],
    },
    Row {
        name: "after a file its directory is left",
        way: Way::Sorted,
        settings: &[],
        left: "foo/abc/qrs",
        lines: &[
            "0 d foo entered",
            "1 d foo/abc entered",
            "2 f foo/abc/qrs",
            "1 f foo/def",
        ],
    },
    Row {
        name: "the root is left",
        way: Way::Sorted,
        settings: &[],
        left: "foo",
        lines: &["0 d foo entered"],
    },
    Row {
        name: "a directory at the greatest depth counts as entered",
        way: Way::Sorted,
        settings: &[Setting::MaxDepth(1)],
        left: "foo/abc",
        lines: &["0 d foo entered", "1 d foo/abc entered", "1 f foo/def"],
    },
    Row {
        name: "after its contents a directory is left with its siblings",
        way: Way::Sorted,
        settings: &[Setting::ContentsFirst(true)],
        left: "foo/abc",
        lines: &[
            "2 f foo/abc/qrs",
            "2 f foo/abc/tuv",
            "1 d foo/abc",
            "0 d foo",
        ],
    },
    Row {
        name: "nothing is left before the first item",
        way: Way::LeftFirst,
        settings: &[Setting::MaxDepth(1)],
        left: NONE,
        lines: &["0 d foo entered", "1 f foo/def", "1 d foo/abc entered"],
    },
    Row {
        name: "a filter refuses nothing",
        way: Way::SortedWithout(Refused::Named("none")),
        settings: &[],
        left: NONE,
        lines: &[
            "0 d foo entered",
            "1 d foo/abc entered",
            "2 f foo/abc/qrs",
            "2 f foo/abc/tuv",
            "1 f foo/def",
        ],
    },
    Row {
        name: "a filter leaves what lies below a refused directory",
        way: Way::SortedWithout(Refused::Named("abc")),
        settings: &[],
        left: NONE,
        lines: &["0 d foo entered", "1 f foo/def"],
    },
    Row {
        name: "a filter refuses a file",
        way: Way::SortedWithout(Refused::Named("qrs")),
        settings: &[],
        left: NONE,
        lines: &[
            "0 d foo entered",
            "1 d foo/abc entered",
            "2 f foo/abc/tuv",
            "1 f foo/def",
        ],
    },
    Row {
        name: "a filter refuses the root",
        way: Way::SortedWithout(Refused::Named("foo")),
        settings: &[],
        left: NONE,
        lines: &[],
    },
    Row {
        name: "a filter under contents first refuses the directory alone",
        way: Way::SortedWithout(Refused::Named("abc")),
        settings: &[Setting::ContentsFirst(true)],
        left: NONE,
        lines: &[
            "2 f foo/abc/qrs",
            "2 f foo/abc/tuv",
            "1 f foo/def",
            "0 d foo",
        ],
    },
    Row {
        name: "a filter may refuse everything",
        way: Way::Without(Refused::All),
        settings: &[],
        left: NONE,
        lines: &[],
    },
    Row {
        name: "a filter under contents first may refuse everything",
        way: Way::Without(Refused::All),
        settings: &[Setting::ContentsFirst(true)],
        left: NONE,
        lines: &[],
    },
    Row {
        name: "a filter stands on a filter, and refuses the root",
        way: Way::WithoutBoth(Refused::Named("qrs"), Refused::Root),
        settings: &[],
        left: NONE,
        lines: &[],
    },
    Row {
        name: "a filter is taken off again",
        way: Way::WithinSecond(Refused::Named("qrs"), Refused::FirstFiles),
        settings: &[],
        left: NONE,
        lines: &[
            "0 d foo entered",
            "1 f foo/def",
            "1 d foo/abc entered",
            "2 f foo/abc/tuv",
        ],
    },
    Row {
        name: "a directory of a filtered walk is left",
        way: Way::Without(Refused::Named("def")),
        settings: &[],
        left: "foo/abc",
        lines: &["0 d foo entered", "1 d foo/abc entered"],
    },
];

/// A row gives its lines, whatever the bound on open lists.
fn check(rt: &(impl Abort + AllocGlobal), row: &Row) -> Result<(), Fail> {
    for max_open in [1, 2, MANY_OPEN] {
        let (given, _) = given(rt.alloc(), row, max_open)?;
        check_lines(rt, row.name, given.as_str(), row.lines);
    }
    Ok(())
}

#[test]
fn directories_are_left_and_walks_are_filtered(rt: HostRuntime) -> Result<(), Fail> {
    for row in ROWS {
        check(&rt, row)?;
    }
    Ok(())
}

/// How many calls a walk of `foo` makes, where the directory of an entry of this path is left.
fn calls_leaving(alloc: Global, way: Way, left: &'static str) -> Result<u64, Fail> {
    let row = Row {
        name: "",
        way,
        settings: &[],
        left,
        lines: &[],
    };
    let (_, calls) = given(alloc, &row, MANY_OPEN)?;
    Ok(calls)
}

#[test]
fn a_directory_that_is_left_is_not_opened(rt: HostRuntime) -> Result<(), Fail> {
    for way in [Way::Unsorted, Way::Sorted] {
        let read = calls_leaving(rt.alloc(), way, NONE)?;
        let left = calls_leaving(rt.alloc(), way, "foo/abc")?;
        // one call opens its list, two give its entries, and one tells its end
        assert_eq!(rt; read, left.saturating_add(4));
    }
    Ok(())
}
