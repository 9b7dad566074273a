//! Walks of disks that fail.

use crate::asking::{MANY_OPEN, Question, Setting, check_lines, failures_in, given};
use crate::disks::{FOO, Node, Nodes, failing, filled};
use std::alloc::Global;
use std::process::Abort;
use std::test::Fail;

/// A name, what stands on the disk, the counted calls that fail, a question, and what it gives, a line an item.
type Case = (
    &'static str,
    Nodes,
    &'static [u64],
    Question<'static>,
    &'static [&'static str],
);

/// `foo` where links are followed, in the disk's order.
const FOLLOWED: Question = Question {
    root: "foo",
    settings: &[Setting::FollowLinks(true)],
    sorts: false,
};

/// A directory of twenty files.
const TWENTY: Nodes = &[
    ("/t", Node::Folder),
    ("/t/0", Node::File(b"")),
    ("/t/1", Node::File(b"")),
    ("/t/2", Node::File(b"")),
    ("/t/3", Node::File(b"")),
    ("/t/4", Node::File(b"")),
    ("/t/5", Node::File(b"")),
    ("/t/6", Node::File(b"")),
    ("/t/7", Node::File(b"")),
    ("/t/8", Node::File(b"")),
    ("/t/9", Node::File(b"")),
    ("/t/10", Node::File(b"")),
    ("/t/11", Node::File(b"")),
    ("/t/12", Node::File(b"")),
    ("/t/13", Node::File(b"")),
    ("/t/14", Node::File(b"")),
    ("/t/15", Node::File(b"")),
    ("/t/16", Node::File(b"")),
    ("/t/17", Node::File(b"")),
    ("/t/18", Node::File(b"")),
    ("/t/19", Node::File(b"")),
];

/// The calls for its entries.
const ENTRIES: &[u64] = &[
    3, 4, 5, 6, 7, 8, 9, 10, 11, 12, 13, 14, 15, 16, 17, 18, 19, 20, 21, 22,
];

const FAILED: &str = "1 ! input or output failed";

/// The root, and as many failures as there are entries.
const ALL_FAILED: &[&str] = &[
    "0 d /t", FAILED, FAILED, FAILED, FAILED, FAILED, FAILED, FAILED, FAILED, FAILED, FAILED,
    FAILED, FAILED, FAILED, FAILED, FAILED, FAILED, FAILED, FAILED, FAILED, FAILED,
];

/// The counted calls of an unsorted walk of `foo` ask for the kind of the root (1) and what it is (2), open its list (3), take two
/// entries of it (4, 5), ask what `abc` is (6), open its list (7), take two entries and find its end (8 to 10), and find the end of
/// the root's list (11).
const CASES: &[Case] = &[
    (
        "the kind of the root",
        FOO,
        &[1],
        FOLLOWED,
        &["0 ! IO error for operation on foo: input or output failed"],
    ),
    (
        "what the root is",
        FOO,
        &[2],
        FOLLOWED,
        &["0 ! input or output failed"],
    ),
    (
        "the root's list",
        FOO,
        &[3],
        FOLLOWED,
        &[
            "0 d foo",
            "0 ! IO error for operation on foo: input or output failed",
        ],
    ),
    (
        "the first entry",
        FOO,
        &[4],
        FOLLOWED,
        &[
            "0 d foo",
            "1 ! input or output failed",
            "1 d foo/abc",
            "2 f foo/abc/tuv",
            "2 f foo/abc/qrs",
        ],
    ),
    (
        "the second entry",
        FOO,
        &[5],
        FOLLOWED,
        &["0 d foo", "1 f foo/def", "1 ! input or output failed"],
    ),
    (
        "what a directory is",
        FOO,
        &[6],
        FOLLOWED,
        &["0 d foo", "1 f foo/def", "1 ! input or output failed"],
    ),
    (
        "its list",
        FOO,
        &[7],
        FOLLOWED,
        &[
            "0 d foo",
            "1 f foo/def",
            "1 d foo/abc",
            "1 ! IO error for operation on foo/abc: input or output failed",
        ],
    ),
    (
        "its first entry",
        FOO,
        &[8],
        FOLLOWED,
        &[
            "0 d foo",
            "1 f foo/def",
            "1 d foo/abc",
            "2 ! input or output failed",
            "2 f foo/abc/qrs",
        ],
    ),
    (
        "its second entry",
        FOO,
        &[9],
        FOLLOWED,
        &[
            "0 d foo",
            "1 f foo/def",
            "1 d foo/abc",
            "2 f foo/abc/tuv",
            "2 ! input or output failed",
        ],
    ),
    (
        "the end of its list",
        FOO,
        &[10],
        FOLLOWED,
        &[
            "0 d foo",
            "1 f foo/def",
            "1 d foo/abc",
            "2 f foo/abc/tuv",
            "2 f foo/abc/qrs",
            "2 ! input or output failed",
        ],
    ),
    (
        "the end of the root's list",
        FOO,
        &[11],
        FOLLOWED,
        &[
            "0 d foo",
            "1 f foo/def",
            "1 d foo/abc",
            "2 f foo/abc/tuv",
            "2 f foo/abc/qrs",
            "1 ! input or output failed",
        ],
    ),
    (
        "a failure comes first in a sorted list",
        FOO,
        &[4],
        Question {
            root: "foo",
            settings: &[],
            sorts: true,
        },
        &["0 d foo", "1 ! input or output failed", "1 f foo/def"],
    ),
    (
        "a failing device stands in place of the root",
        FOO,
        &[1],
        Question {
            root: "foo",
            settings: &[Setting::SameFileSystem(true)],
            sorts: false,
        },
        &["0 ! IO error for operation on foo: input or output failed"],
    ),
    (
        "a list may fail at each entry",
        TWENTY,
        ENTRIES,
        Question {
            root: "/t",
            settings: &[],
            sorts: false,
        },
        ALL_FAILED,
    ),
    (
        "a sorted list may fail at each entry",
        TWENTY,
        ENTRIES,
        Question {
            root: "/t",
            settings: &[],
            sorts: true,
        },
        ALL_FAILED,
    ),
];

/// What a row gives, and how many calls failed, with so many lists open at most.
fn given_failing(alloc: Global, case: &Case, max_open: usize) -> Result<(String, u64), Fail> {
    let mut disk = failing(alloc, case.1, case.2)?;
    let given = given(alloc, &mut disk, &case.3, max_open)?;
    Ok((given, disk.faults()))
}

/// A row gives its lines, and each of its calls fails, whatever the bound on open lists.
fn check(rt: &(impl Abort + AllocGlobal), case: &Case) -> Result<(), Fail> {
    for max_open in [2, 3, MANY_OPEN] {
        let (given, faults) = given_failing(rt.alloc(), case, max_open)?;
        check_lines(rt, case.0, given.as_str(), case.4);
        assert_eq!(rt; faults, case.2.len() as u64, "{}", case.0);
    }
    Ok(())
}

#[test]
fn each_failing_call_stands_in_its_place(rt: HostRuntime) -> Result<(), Fail> {
    for case in CASES {
        check(&rt, case)?;
    }
    Ok(())
}

/// `foo` with the defaults.
const PLAIN: Question = Question {
    root: "foo",
    settings: &[],
    sorts: false,
};

/// How many failures a walk of `foo` tells with one list open, and how many calls failed, where all calls from one on fail.
fn failures_told(alloc: Global, stop: u64) -> Result<(u64, u64), Fail> {
    let mut disk = filled(alloc, FOO)?;
    disk.stop_at(stop);
    let given = given(alloc, &mut disk, &PLAIN, 1)?;
    Ok((failures_in(given.as_str()), disk.faults()))
}

#[test]
fn a_disk_may_fail_from_some_call_on(rt: HostRuntime) -> Result<(), Fail> {
    for stop in 1..=11 {
        let (told, faults) = failures_told(rt.alloc(), stop)?;
        assert!(rt; told <= faults, "from call {stop} on");
    }
    Ok(())
}
