//! Links that are followed.

use crate::asking::Setting;
use crate::disks::{Node, Nodes};
use crate::worked::{Case, check_all};
use std::test::Fail;

const FOLLOWED: &[Setting] = &[Setting::FollowLinks(true)];

/// A folder with a link to its parent.
const UP: Nodes = &[
    ("/r", Node::Folder),
    ("/r/a", Node::Folder),
    ("/r/a/l", Node::Link("/r")),
];

const UP_LINES: &[&str] = &[
    "0 d /r",
    "1 d /r/a",
    "2 ! File system loop found: /r/a/l points to an ancestor /r",
];

const TWO_LINKS: Nodes = &[
    ("/r", Node::Folder),
    ("/r/a", Node::Folder),
    ("/r/b", Node::Folder),
    ("/r/a/to_b", Node::Link("../b")),
    ("/r/b/to_a", Node::Link("../a")),
];

const THREE_LINKS: Nodes = &[
    ("/r", Node::Folder),
    ("/r/a", Node::Folder),
    ("/r/b", Node::Folder),
    ("/r/c", Node::Folder),
    ("/r/a/b", Node::Link("../b")),
    ("/r/b/c", Node::Link("../c")),
    ("/r/c/a", Node::Link("../a")),
];

/// Links that lead nowhere: to themselves, to nothing, to each other, and in a ring.
const NOWHERE: Nodes = &[
    ("/r", Node::Folder),
    ("/r/self", Node::Link("self")),
    ("/r/none", Node::Link("nothing")),
    ("/r/one", Node::Link("two")),
    ("/r/two", Node::Link("one")),
    ("/r/a", Node::Link("b")),
    ("/r/b", Node::Link("c")),
    ("/r/c", Node::Link("a")),
];

/// What is given in the disk's order.
const UNSORTED: &[Case] = &[
    (
        "a link to an ancestor is a loop",
        UP,
        "/r",
        FOLLOWED,
        UP_LINES,
    ),
    (
        "a link to its own directory is a loop of one",
        &[("/r", Node::Folder), ("/r/l", Node::Link("."))],
        "/r",
        FOLLOWED,
        &[
            "0 d /r",
            "1 ! File system loop found: /r/l points to an ancestor /r",
        ],
    ),
    (
        "two links lead to each other",
        TWO_LINKS,
        "/r",
        FOLLOWED,
        &[
            "0 d /r",
            "1 d /r/a",
            "2 l>d /r/a/to_b",
            "3 ! File system loop found: /r/a/to_b/to_a points to an ancestor /r/a",
            "1 d /r/b",
            "2 l>d /r/b/to_a",
            "3 ! File system loop found: /r/b/to_a/to_b points to an ancestor /r/b",
        ],
    ),
    (
        "three links lead in a ring",
        THREE_LINKS,
        "/r",
        FOLLOWED,
        &[
            "0 d /r",
            "1 d /r/a",
            "2 l>d /r/a/b",
            "3 l>d /r/a/b/c",
            "4 ! File system loop found: /r/a/b/c/a points to an ancestor /r/a",
            "1 d /r/b",
            "2 l>d /r/b/c",
            "3 l>d /r/b/c/a",
            "4 ! File system loop found: /r/b/c/a/b points to an ancestor /r/b",
            "1 d /r/c",
            "2 l>d /r/c/a",
            "3 l>d /r/c/a/b",
            "4 ! File system loop found: /r/c/a/b/c points to an ancestor /r/c",
        ],
    ),
    (
        "the nearest ancestor is named",
        &[
            ("/r", Node::Folder),
            ("/r/above", Node::Link("/")),
            ("/r/self", Node::Link("/r")),
        ],
        "/r",
        FOLLOWED,
        &[
            "0 d /r",
            "1 l>d /r/above",
            "2 d /r/above/r",
            "3 ! File system loop found: /r/above/r/above points to an ancestor /r/above",
            "3 ! File system loop found: /r/above/r/self points to an ancestor /r/above/r",
            "1 ! File system loop found: /r/self points to an ancestor /r",
        ],
    ),
    (
        "links that lead nowhere are absent",
        NOWHERE,
        "/r",
        FOLLOWED,
        &[
            "0 d /r",
            "1 ! IO error for operation on /r/self: no such file or directory",
            "1 ! IO error for operation on /r/none: no such file or directory",
            "1 ! IO error for operation on /r/one: no such file or directory",
            "1 ! IO error for operation on /r/two: no such file or directory",
            "1 ! IO error for operation on /r/a: no such file or directory",
            "1 ! IO error for operation on /r/b: no such file or directory",
            "1 ! IO error for operation on /r/c: no such file or directory",
        ],
    ),
];

/// What is given by file names.
const SORTED: &[Case] = &[
    (
        "a link to an ancestor is a loop",
        UP,
        "/r",
        FOLLOWED,
        UP_LINES,
    ),
    (
        "links stay links where they are not followed",
        &[
            ("/r", Node::Folder),
            ("/r/a", Node::Folder),
            ("/r/a/up", Node::Link("..")),
            ("/r/none", Node::Link("nothing")),
            ("/r/b", Node::Link("a")),
        ],
        "/r",
        &[],
        &[
            "0 d /r",
            "1 d /r/a",
            "2 l /r/a/up",
            "1 l /r/b",
            "1 l /r/none",
        ],
    ),
    (
        "errors are told at each depth",
        &[
            ("/r", Node::Folder),
            ("/r/a", Node::Folder),
            ("/r/none", Node::Link("nothing")),
            ("/r/a/up", Node::Link("..")),
        ],
        "/r",
        &[Setting::FollowLinks(true), Setting::MinDepth(3)],
        &[
            "2 ! File system loop found: /r/a/up points to an ancestor /r",
            "1 ! IO error for operation on /r/none: no such file or directory",
        ],
    ),
    (
        "a followed link to another device stays",
        &[
            ("/r", Node::Folder),
            ("/r/a", Node::Folder),
            ("/r/a/b", Node::Folder),
            ("/mount", Node::Folder),
            ("/mount/c", Node::Folder),
            ("/r/away", Node::Link("/mount")),
            ("/r/near", Node::Link("a")),
            ("/mount", Node::Device(2)),
        ],
        "/r",
        &[Setting::FollowLinks(true), Setting::SameFileSystem(true)],
        &[
            "0 d /r",
            "1 d /r/a",
            "2 d /r/a/b",
            "1 l>d /r/away",
            "1 l>d /r/near",
            "2 d /r/near/b",
        ],
    ),
];

#[test]
fn links_are_followed_or_told(rt: HostRuntime) -> Result<(), Fail> {
    check_all(&rt, UNSORTED, false)?;
    check_all(&rt, SORTED, true)
}
