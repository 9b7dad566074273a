//! Worked walks of small trees.

use crate::asking::Setting;
use crate::disks::{FOO, Node, Nodes};
use crate::worked::{Case, check_all};
use std::test::Fail;

/// `foo`, of which `abc` is on another device.
const FOREIGN: Nodes = &[
    ("foo", Node::Folder),
    ("foo/def", Node::File(b"def")),
    ("foo/abc", Node::Folder),
    ("foo/abc/tuv", Node::File(b"")),
    ("foo/abc/qrs", Node::File(b"")),
    ("foo/abc", Node::Device(2)),
];

const SORTED: &[Case] = &[
    (
        "a directory comes before its contents",
        FOO,
        "foo",
        &[],
        &[
            "0 d foo",
            "1 d foo/abc",
            "2 f foo/abc/qrs",
            "2 f foo/abc/tuv",
            "1 f foo/def",
        ],
    ),
    (
        "a directory comes after its contents",
        FOO,
        "foo",
        &[Setting::ContentsFirst(true)],
        &[
            "2 f foo/abc/qrs",
            "2 f foo/abc/tuv",
            "1 d foo/abc",
            "1 f foo/def",
            "0 d foo",
        ],
    ),
    (
        "depths have bounds: one depth alone",
        FOO,
        "foo",
        &[Setting::MinDepth(1), Setting::MaxDepth(1)],
        &["1 d foo/abc", "1 f foo/def"],
    ),
    (
        "depths have bounds: a least depth",
        FOO,
        "foo",
        &[Setting::MinDepth(2)],
        &["2 f foo/abc/qrs", "2 f foo/abc/tuv"],
    ),
    (
        "depths have bounds: the root alone",
        FOO,
        "foo",
        &[Setting::MaxDepth(0)],
        &["0 d foo"],
    ),
    (
        "of two bounds on depths that cross the earlier holds: the least depth",
        FOO,
        "foo",
        &[Setting::MinDepth(2), Setting::MaxDepth(1)],
        &["2 f foo/abc/qrs", "2 f foo/abc/tuv"],
    ),
    (
        "of two bounds on depths that cross the earlier holds: the greatest depth",
        FOO,
        "foo",
        &[Setting::MaxDepth(1), Setting::MinDepth(2)],
        &["1 d foo/abc", "1 f foo/def"],
    ),
    (
        "a least depth may lie beyond the tree",
        FOO,
        "foo",
        &[Setting::MinDepth(3)],
        &[],
    ),
    (
        "directories on other devices are not entered",
        FOREIGN,
        "foo",
        &[Setting::SameFileSystem(true)],
        &["0 d foo", "1 d foo/abc", "1 f foo/def"],
    ),
];

const UNSORTED: &[Case] = &[(
    "unsorted walks keep the order of the disk",
    FOO,
    "foo",
    &[],
    &[
        "0 d foo",
        "1 f foo/def",
        "1 d foo/abc",
        "2 f foo/abc/tuv",
        "2 f foo/abc/qrs",
    ],
)];

#[test]
fn small_trees_give_their_items(rt: HostRuntime) -> Result<(), Fail> {
    check_all(&rt, SORTED, true)?;
    check_all(&rt, UNSORTED, false)
}
