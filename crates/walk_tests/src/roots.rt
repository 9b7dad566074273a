//! Roots of all kinds.

use crate::asking::Setting;
use crate::disks::{Node, Nodes};
use crate::worked::{Case, check_all};
use std::test::Fail;

/// A directory, a file, a pipe, and links to each and to nothing. The directory is on another device than what holds it.
const TREE: Nodes = &[
    ("/t", Node::Folder),
    ("/t/a.txt", Node::File(b"one two one")),
    ("/f", Node::File(b"one")),
    ("/pipe", Node::Other),
    ("/l", Node::Link("t")),
    ("/to_f", Node::Link("f")),
    ("/broken", Node::Link("none")),
    ("/t", Node::Device(2)),
];

const FOLLOWED: &[Setting] = &[Setting::FollowLinks(true)];

const NOT_FOLLOWED: &[Setting] = &[Setting::FollowRootLinks(false)];

const ONE_DEVICE: &[Setting] = &[Setting::SameFileSystem(true)];

const ROOTS: &[Case] = &[
    (
        "a link to a directory",
        TREE,
        "/l",
        &[],
        &["0 l /l", "1 f /l/a.txt"],
    ),
    (
        "a link to a directory, where roots are not followed",
        TREE,
        "/l",
        NOT_FOLLOWED,
        &["0 l /l"],
    ),
    (
        "a link to a directory, where links are followed",
        TREE,
        "/l",
        FOLLOWED,
        &["0 l>d /l", "1 f /l/a.txt"],
    ),
    (
        "a link to a directory, where one device is kept to",
        TREE,
        "/l",
        ONE_DEVICE,
        &["0 l /l", "1 f /l/a.txt"],
    ),
    ("a link to a file", TREE, "/to_f", &[], &["0 l /to_f"]),
    (
        "a link to a file, where roots are not followed",
        TREE,
        "/to_f",
        NOT_FOLLOWED,
        &["0 l /to_f"],
    ),
    (
        "a link to a file, where links are followed",
        TREE,
        "/to_f",
        FOLLOWED,
        &["0 l>f /to_f"],
    ),
    (
        "a link to nothing",
        TREE,
        "/broken",
        &[],
        &["0 ! IO error for operation on /broken: no such file or directory"],
    ),
    (
        "a link to nothing, where roots are not followed",
        TREE,
        "/broken",
        NOT_FOLLOWED,
        &["0 l /broken"],
    ),
    (
        "a link to nothing, where links are followed",
        TREE,
        "/broken",
        FOLLOWED,
        &["0 ! IO error for operation on /broken: no such file or directory"],
    ),
    ("a directory", TREE, "/t", &[], &["0 d /t", "1 f /t/a.txt"]),
    (
        "a directory, by a path that ends with a slash",
        TREE,
        "t/",
        &[],
        &["0 d t/", "1 f t/a.txt"],
    ),
    (
        "a directory, by a path that ends with a point",
        TREE,
        "/t/.",
        &[],
        &["0 d /t/.", "1 f /t/./a.txt"],
    ),
    ("a file", TREE, "/f", &[], &["0 f /f"]),
    ("a pipe", TREE, "/pipe", &[], &["0 o /pipe"]),
    (
        "nothing",
        TREE,
        "/none",
        &[],
        &["0 ! IO error for operation on /none: no such file or directory"],
    ),
    (
        "nothing, where one device is kept to",
        TREE,
        "/none",
        ONE_DEVICE,
        &["0 ! IO error for operation on /none: no such file or directory"],
    ),
    (
        "nothing below a file",
        TREE,
        "/f/none",
        NOT_FOLLOWED,
        &["0 ! IO error for operation on /f/none: no such file or directory"],
    ),
    (
        "the top, where one device is kept to",
        TREE,
        "/",
        ONE_DEVICE,
        &[
            "0 d /",
            "1 l /broken",
            "1 f /f",
            "1 l /l",
            "1 o /pipe",
            "1 d /t",
            "1 l /to_f",
        ],
    ),
];

#[test]
fn a_root_may_be_a_link_or_anything_or_missing(rt: HostRuntime) -> Result<(), Fail> {
    check_all(&rt, ROOTS, true)
}
