//! The orders of entries, and walks in them; texts of errors.

ghost use Rattle.std.specs.Prelude.{◌≡◌};
ghost use Rattle.walk_rest.specs.Plan.{Comparison};

use crate::asking::{Setting, asked, check_lines, text_of};
use crate::disks::{Node, Nodes, filled};
use sd_io::{Ident, Kind, Text};
use std::alloc::Global;
use std::cmp::Ordering;
use std::process::Abort;
use std::test::Fail;
use walkdir::{ByCmp, ByFileName, ByKey, DirEntry, Error, Order, Unsorted};

/// A folder `/t` with three directories and three files in between.
const MIXED: Nodes = &[
    ("/t", Node::Folder),
    ("/t/b", Node::Folder),
    ("/t/b.txt", Node::File(b"")),
    ("/t/e", Node::Folder),
    ("/t/e.txt", Node::File(b"")),
    ("/t/a", Node::Folder),
    ("/t/a.txt", Node::File(b"")),
];

/// What `/t` gives but for itself, the greatest name first.
fn text_by_name(alloc: Global) -> Result<String, Fail> {
    let walk = asked(alloc, "/t", &[Setting::MinDepth(1)])?.sort_by(|a: &DirEntry, b: &DirEntry| b
        .file_name()
        .cmp(a.file_name()));
    let mut disk = filled(alloc, MIXED)?;
    text_of(alloc, walk.into_iter(&mut disk))
}

/// What `/t` gives but for itself, directories last.
fn text_by_kind(alloc: Global) -> Result<String, Fail> {
    let walk = asked(alloc, "/t", &[Setting::MinDepth(1)])?.sort_by_key(|entry: &DirEntry| entry
        .file_type()
        .is_dir());
    let mut disk = filled(alloc, MIXED)?;
    text_of(alloc, walk.into_iter(&mut disk))
}

#[test]
fn entries_come_in_the_order_of_a_comparison_or_a_key(rt: HostRuntime) -> Result<(), Fail> {
    let by_name = [
        "1 f /t/e.txt",
        "1 d /t/e",
        "1 f /t/b.txt",
        "1 d /t/b",
        "1 f /t/a.txt",
        "1 d /t/a",
    ];
    let given = text_by_name(rt.alloc())?;
    check_lines(&rt, "the greatest name first", given.as_str(), &by_name);
    let by_kind = [
        "1 f /t/b.txt",
        "1 f /t/e.txt",
        "1 f /t/a.txt",
        "1 d /t/b",
        "1 d /t/e",
        "1 d /t/a",
    ];
    let given = text_by_kind(rt.alloc())?;
    check_lines(
        &rt,
        "entries of one key keep the order of the disk",
        given.as_str(),
        &by_kind,
    );
    Ok(())
}

/// A file of this path.
fn file(alloc: Global, path: &str, depth: usize, ino: u64) -> Result<DirEntry, Fail> {
    Ok(DirEntry {
        path: Text::new(alloc, path)?,
        kind: Kind::File,
        depth,
        ino,
        followed: false,
    })
}

/// An order that answers by some comparison.
fn answers<S: Order>(order: S) -> S
    requires { (by : Comparison) × S.compares_by order by }
    ensures { result ≡ order }
{
    order
}

/// The orders compare two entries, of which the second is deeper, has the lesser name and the greater number.
fn check_orders(rt: &(impl Abort + AllocGlobal), first: &DirEntry, second: &DirEntry) {
    assert_eq!(rt; answers(Unsorted).compare(first, second), Ordering::Equal);
    assert_eq!(rt;
        answers(ByFileName).compare(first, second),
        Ordering::Greater
    );
    let by_ino = answers(ByKey::new(|entry: &DirEntry| entry.ino));
    assert_eq!(rt; by_ino.compare(first, second), Ordering::Less);
    let deepest_first = answers(ByCmp {
        compare: |a: &DirEntry, b: &DirEntry| b.depth.cmp(&a.depth),
    });
    assert_eq!(rt; deepest_first.compare(first, second), Ordering::Greater);
}

#[test]
fn orders_compare(rt: HostRuntime) -> Result<(), Fail> {
    let first = file(rt.alloc(), "foo/b", 1, 7)?;
    let second = file(rt.alloc(), "foo/x/a", 2, 9)?;
    check_orders(&rt, &first, &second);
    Ok(())
}

/// An error is written as this text.
fn check_text(rt: &(impl Abort + AllocGlobal), error: &Error, wanted: &str) -> Result<(), Fail> {
    let text = format!(in rt.alloc(); "{error}")?;
    assert_eq!(rt; text.as_str(), wanted);
    Ok(())
}

/// Errors without a path are written as texts.
fn check_texts_alone(rt: &(impl Abort + AllocGlobal)) -> Result<(), Fail> {
    let failed = Error::Disk {
        path: None,
        depth: 2,
    };
    check_text(rt, &failed, "input or output failed")?;
    check_text(rt, &Error::NoMemory, "out of memory")?;
    check_text(rt, &Error::TooMany, "too many entries")
}

/// The failure of the disk at a path.
fn failed(path: Text) -> Error {
    Error::Disk {
        path: Some(path),
        depth: 2,
    }
}

/// The error of a path that leads nowhere.
fn absent(path: Text) -> Error {
    Error::Absent { path, depth: 2 }
}

/// The error of a link at a path that leads to an ancestor.
fn looped(path: Text, ancestor: Text) -> Error {
    Error::Loop {
        path,
        depth: 2,
        ancestor,
        ident: Ident { dev: 1, ino: 2 },
    }
}

#[test]
fn errors_and_entries_have_texts(rt: HostRuntime) -> Result<(), Fail> {
    let alloc = rt.alloc();
    let path = || Text::new(alloc, "r/l");
    check_text(
        &rt,
        &failed(path()?),
        "IO error for operation on r/l: input or output failed",
    )?;
    check_text(
        &rt,
        &absent(path()?),
        "IO error for operation on r/l: no such file or directory",
    )?;
    check_text(
        &rt,
        &looped(path()?, Text::new(alloc, "r")?),
        "File system loop found: r/l points to an ancestor r",
    )?;
    check_texts_alone(&rt)?;
    let entry = file(alloc, "foo/b", 1, 7)?;
    let text = format!(in alloc; "{entry:?}")?;
    assert_eq!(rt; text.as_str(), "DirEntry(\"foo/b\")");
    Ok(())
}
