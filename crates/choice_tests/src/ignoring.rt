//! Choices under rules of what is ignored.

use crate::asking::keeps;
use crate::disks::{Node, Nodes, fill};
use mem_io::MemDisk;
use std::alloc::Global;
use std::test::Fail;

/// A folder with a folder `build` in it.
const PROJECT: Nodes = &[
    ("/p", Node::Folder),
    ("/p/build", Node::Folder),
    ("/p/build/x.txt", Node::File(b"one", 0o640)),
    ("/p/a.log", Node::File(b"one", 0o640)),
    ("/p/k.log", Node::File(b"one", 0o640)),
    ("/p/b.txt", Node::File(b"one", 0o640)),
];

/// Rules, each text with what is chosen under them.
const UNDER_RULES: &[(&str, &str)] = &[
    ("# c\nbuild/\n*.log\n!k.log", "/p/b.txt\n/p/k.log\n"),
    (
        "# c\nbuild/\n*.log\n!k.log\n!build/x.txt",
        "/p/b.txt\n/p/k.log\n",
    ),
    (
        "# c\r\nbuild/\r\n*.log\r\n!k.log\r\n",
        "/p/b.txt\n/p/k.log\n",
    ),
    ("", "/p/a.log\n/p/b.txt\n/p/build/x.txt\n/p/k.log\n"),
    ("!k.log\n*.log\nbuild", "/p/b.txt\n"),
    (
        "/x.txt\nb.txt/",
        "/p/a.log\n/p/b.txt\n/p/build/x.txt\n/p/k.log\n",
    ),
    ("x.txt", "/p/a.log\n/p/b.txt\n/p/k.log\n"),
    ("/build/*", "/p/a.log\n/p/b.txt\n/p/k.log\n"),
    // The root itself is never ignored.
    (
        "p\np/\n/p",
        "/p/a.log\n/p/b.txt\n/p/build/x.txt\n/p/k.log\n",
    ),
    ("*", ""),
];

/// Names with a newline in them, one of a folder.
const NEWLINES: Nodes = &[
    ("/p", Node::Folder),
    ("/p/a\nb", Node::File(b"one", 0o640)),
    ("/p/d\ne", Node::Folder),
    ("/p/d\ne/c", Node::File(b"one", 0o640)),
];

/// Rules, each text with what is chosen of these under them.
const UNDER_RULES_OF_NEWLINES: &[(&str, &str)] = &[
    ("a\nb\ne/", "/p/a\nb\n/p/d\ne/c\n"),
    ("a?b", "/p/d\ne/c\n"),
    ("d*/", "/p/a\nb\n"),
    ("/d?e/c", "/p/a\nb\n"),
];

/// Whether this is what is chosen below `/p` under the rules of a text, where these nodes stand.
fn keeps_of(alloc: Global, nodes: Nodes, rules: &str, wanted: &str) -> Result<bool, Fail> {
    let mut disk = MemDisk::new(alloc);
    fill(&mut disk, nodes)?;
    keeps(alloc, &mut disk, "/p", rules, wanted)
}

#[test]
fn what_rules_ignore_is_not_chosen(rt: HostRuntime) -> Result<(), Fail> {
    for (rules, wanted) in UNDER_RULES {
        let is_right = keeps_of(rt.alloc(), PROJECT, rules, wanted)?;
        assert!(rt; is_right, "{rules}");
    }
    Ok(())
}

#[test]
fn names_may_hold_newlines(rt: HostRuntime) -> Result<(), Fail> {
    for (rules, wanted) in UNDER_RULES_OF_NEWLINES {
        let is_right = keeps_of(rt.alloc(), NEWLINES, rules, wanted)?;
        assert!(rt; is_right, "{rules}");
    }
    Ok(())
}
