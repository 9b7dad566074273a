//! What entries and errors tell of themselves.

use crate::asking::{Setting, asked, letter};
use crate::disks::{FOO, Node, Nodes, failing, filled};
use mem_io::MemDisk;
use sd_io::{Disk, DiskFault, Ident, Meta};
use std::alloc::Global;
use std::process::Abort;
use std::test::Fail;
use walkdir::{DirEntry, DirEntryExt, Error, ErrorKind};

/// What an entry tells of itself: path, name, depth, kind, whether it is a link, and its text.
fn entry_told(alloc: Global, entry: &DirEntry) -> Result<String, Fail> {
    let path = entry.path();
    let name = entry.file_name();
    let depth = entry.depth();
    let kind = letter(entry.file_type());
    let is_link = entry.path_is_symlink();
    Ok(format!(in alloc; "{path} {name} {depth} {kind} {is_link} {entry:?}")?)
}

/// The kind and the length of what stands somewhere, or why they aren't told.
fn meta_told(alloc: Global, meta: &Result<Meta, Error>) -> Result<String, Fail> {
    match meta {
        Ok(meta) => {
            let kind = letter(meta.kind);
            let len = meta.len;
            Ok(format!(in alloc; "{kind} {len}")?)
        }
        Err(error) => Ok(format!(in alloc; "{error}")?),
    }
}

/// The number of what a path leads to.
fn number_at(disk: &mut MemDisk, path: &str) -> Result<u64, Fail> {
    Ok(disk.ident(path)?.ino)
}

/// What an entry tells of itself, what stands where it was found, and whether the entry has the number of what its path leads to.
fn all_told(alloc: Global, disk: &mut MemDisk, entry: &DirEntry) -> Result<String, Fail> {
    let told = entry_told(alloc, entry)?;
    let meta = meta_told(alloc, &entry.metadata(alloc, disk))?;
    let is_at_number = entry.ino() == number_at(disk, entry.path())?;
    Ok(format!(in alloc; "{told}, {meta}, {is_at_number}")?)
}

/// The entries of a root in the disk's order, or the first error.
fn entries_of(
    alloc: Global,
    disk: &mut MemDisk,
    root: &str,
    settings: &[Setting],
) -> Result<Result<Vec<DirEntry>, Error>, Fail> {
    let walk = asked(alloc, root, settings)?;
    Ok(walk.into_iter(disk).collect_capped(100))
}

/// The last one of some entries.
fn last_of(mut entries: Vec<DirEntry>) -> Option<DirEntry> {
    entries.pop()
}

/// The last entry of a root in the disk's order.
fn last_entry(
    alloc: Global,
    disk: &mut MemDisk,
    root: &str,
    settings: &[Setting],
) -> Result<DirEntry, Fail> {
    let entries = entries_of(alloc, disk, root, settings)??;
    match last_of(entries) {
        Some(entry) => Ok(entry),
        None => Err("no entry".into()),
    }
}

/// `foo`, with a link to `def` behind all else.
const LINKED: Nodes = &[
    ("foo", Node::Folder),
    ("foo/def", Node::File(b"def")),
    ("foo/abc", Node::Folder),
    ("foo/abc/tuv", Node::File(b"")),
    ("foo/abc/qrs", Node::File(b"")),
    ("foo/link", Node::Link("def")),
];

/// A name, what stands on the disk, a root with its options, and what is told of its last entry: by itself, by what stands there, and
/// whether the entry has the number of what its path leads to.
type Case = (
    &'static str,
    Nodes,
    &'static str,
    &'static [Setting],
    &'static str,
);

const CASES: &[Case] = &[
    (
        "an entry tells of its file",
        FOO,
        "foo",
        &[],
        "foo/abc/qrs qrs 2 f false DirEntry(\"foo/abc/qrs\"), f 0, true",
    ),
    (
        "a followed link tells of its target",
        LINKED,
        "foo",
        &[Setting::FollowLinks(true)],
        "foo/link link 1 f true DirEntry(\"foo/link\"), f 3, false",
    ),
    (
        "a link that is not followed tells of itself",
        LINKED,
        "foo",
        &[],
        "foo/link link 1 l true DirEntry(\"foo/link\"), l 0, false",
    ),
    (
        "a root has its whole path as name where that ends with two points",
        FOO,
        "foo/abc/..",
        &[Setting::MaxDepth(0)],
        "foo/abc/.. foo/abc/.. 0 d false DirEntry(\"foo/abc/..\"), d 0, false",
    ),
    (
        "a root has a name without the slashes behind it",
        FOO,
        "foo//",
        &[Setting::MaxDepth(0)],
        "foo// foo 0 d false DirEntry(\"foo//\"), d 0, false",
    ),
    (
        "the top has its whole path as name",
        FOO,
        "/",
        &[Setting::MaxDepth(0)],
        "/ / 0 d false DirEntry(\"/\"), d 0, false",
    ),
];

/// An entry tells this of itself, and a copy does too, and gives its path.
fn check_entry(
    rt: &(impl Abort + AllocGlobal),
    disk: &mut MemDisk,
    entry: &DirEntry,
    case: &Case,
) -> Result<(), Fail> {
    let given = all_told(rt.alloc(), disk, entry)?;
    assert_eq!(rt; given.as_str(), case.4, "{}", case.0);
    let copy = entry.try_clone(rt.alloc())?;
    let given = all_told(rt.alloc(), disk, &copy)?;
    assert_eq!(rt; given.as_str(), case.4, "{}", case.0);
    assert_eq!(rt; copy.into_path().as_str(), entry.path(), "{}", case.0);
    Ok(())
}

/// The last entry of a row tells what the row says.
fn check_on(rt: &(impl Abort + AllocGlobal), disk: &mut MemDisk, case: &Case) -> Result<(), Fail> {
    let entry = last_entry(rt.alloc(), disk, case.2, case.3)?;
    check_entry(rt, disk, &entry, case)
}

/// The same on a disk of its own.
fn check(rt: &(impl Abort + AllocGlobal), case: &Case) -> Result<(), Fail> {
    let mut disk = filled(rt.alloc(), case.1)?;
    check_on(rt, &mut disk, case)
}

#[test]
fn entries_tell_of_what_they_were_found_at(rt: HostRuntime) -> Result<(), Fail> {
    for case in CASES {
        check(&rt, case)?;
    }
    Ok(())
}

/// A root has no number.
fn number_of_root(alloc: Global, root: &str) -> Result<u64, Fail> {
    let mut disk = filled(alloc, FOO)?;
    Ok(last_entry(alloc, &mut disk, root, &[Setting::MaxDepth(0)])?.ino())
}

#[test]
fn a_root_has_no_number(rt: HostRuntime) -> Result<(), Fail> {
    for root in ["foo/abc/..", "foo//", "/"] {
        let number = number_of_root(rt.alloc(), root)?;
        assert_eq!(rt; number, 0, "{root}");
    }
    Ok(())
}

/// What an error tells.
struct Told {
    kind: ErrorKind,
    path: Option<&'static str>,
    depth: usize,
    ancestor: Option<&'static str>,
    ident: Option<Ident>,
    fault: Option<DiskFault>,
    text: &'static str,
}

const ABSENT: Told = Told {
    kind: ErrorKind::Absent,
    path: Some("foo/abc/qrs"),
    depth: 2,
    ancestor: None,
    ident: None,
    fault: Some(DiskFault::Absent),
    text: "Error(IO error for operation on foo/abc/qrs: no such file or directory)",
};

const LOOP: Told = Told {
    kind: ErrorKind::Loop,
    path: Some("/r/a/l"),
    depth: 2,
    ancestor: Some("/r"),
    ident: Some(Ident { dev: 1, ino: 2 }),
    fault: None,
    text: "Error(File system loop found: /r/a/l points to an ancestor /r)",
};

const FAILED: Told = Told {
    kind: ErrorKind::Disk,
    path: None,
    depth: 1,
    ancestor: None,
    ident: None,
    fault: Some(DiskFault::Failed),
    text: "Error(input or output failed)",
};

/// An error tells this.
fn check_told(rt: &(impl Abort + AllocGlobal), error: &Error, wanted: &Told) {
    assert!(rt; error.kind() == wanted.kind, "{}", wanted.text);
    assert!(rt; error.path() == wanted.path, "{}", wanted.text);
    assert!(rt; error.depth() == wanted.depth, "{}", wanted.text);
    assert!(rt; error.loop_ancestor() == wanted.ancestor, "{}", wanted.text);
    assert!(rt; error.loop_ident() == wanted.ident, "{}", wanted.text);
    assert!(rt; error.io_error() == wanted.fault, "{}", wanted.text);
}

/// An error tells this, is written so, and gives the disk's fault.
fn check_error(rt: &(impl Abort + AllocGlobal), error: Error, wanted: &Told) -> Result<(), Fail> {
    check_told(rt, &error, wanted);
    let text = format!(in rt.alloc(); "{error:?}")?;
    assert_eq!(rt; text.as_str(), wanted.text);
    assert!(rt; error.into_io_error() == wanted.fault, "{}", wanted.text);
    Ok(())
}

/// The error of asking what stands at the last entry of `foo`, once that is removed.
fn absence_on(alloc: Global, disk: &mut MemDisk) -> Result<Error, Fail> {
    let entry = last_entry(alloc, disk, "foo", &[])?;
    disk.remove(entry.path())?;
    match entry.metadata(alloc, disk) {
        Ok(_) => Err("nothing stands there".into()),
        Err(error) => Ok(error),
    }
}

/// The same on a disk of its own.
fn absence_met(alloc: Global) -> Result<Error, Fail> {
    let mut disk = filled(alloc, FOO)?;
    absence_on(alloc, &mut disk)
}

/// The error of a walk in the disk's order.
fn error_of(
    alloc: Global,
    mut disk: MemDisk,
    root: &str,
    settings: &[Setting],
) -> Result<Error, Fail> {
    match entries_of(alloc, &mut disk, root, settings)? {
        Ok(_) => Err("no error".into()),
        Err(error) => Ok(error),
    }
}

/// A link `/r/a/l` to `/r`.
const UP: Nodes = &[
    ("/r", Node::Folder),
    ("/r/a", Node::Folder),
    ("/r/a/l", Node::Link("..")),
];

#[test]
fn errors_tell_what_went_wrong(rt: HostRuntime) -> Result<(), Fail> {
    let alloc = rt.alloc();
    check_error(&rt, absence_met(alloc)?, &ABSENT)?;
    let followed = [Setting::FollowLinks(true)];
    check_error(
        &rt,
        error_of(alloc, filled(alloc, UP)?, "/r", &followed)?,
        &LOOP,
    )?;
    check_error(
        &rt,
        error_of(alloc, failing(alloc, FOO, &[3])?, "foo", &[])?,
        &FAILED,
    )
}
