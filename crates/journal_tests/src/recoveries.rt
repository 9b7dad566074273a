//! What stands in a root, and what a recovery of it answers.

use crate::disks::{Left, Node, Nodes, are_left, filled};
use journal::recover;
use mem_io::MemDisk;
use std::alloc::Global;
use std::process::Abort;
use std::test::Fail;

/// The journal of a change that makes both files "1", by the digest that `sha256sum` gives.
const JOURNAL: Node = Node::File(
    b"sd-journal 1\n6b86b273ff34fce19d6b804eff5a3f5747ada4eaa22f1d49c01e52ddb7875b4b 0000 /t/a/x\n6b86b273ff34fce19d6b804eff5a3f5747ada4eaa22f1d49c01e52ddb7875b4b 0000 /t/y\nend 2\n",
);

const NO_END: &[u8] =
    b"sd-journal 1\n6b86b273ff34fce19d6b804eff5a3f5747ada4eaa22f1d49c01e52ddb7875b4b 0000 /t/a/x\n6b86b273ff34fce19d6b804eff5a3f5747ada4eaa22f1d49c01e52ddb7875b4b 0000 /t/y\n";

const NO_LAST_NEWLINE: &[u8] =
    b"sd-journal 1\n6b86b273ff34fce19d6b804eff5a3f5747ada4eaa22f1d49c01e52ddb7875b4b 0000 /t/a/x\n6b86b273ff34fce19d6b804eff5a3f5747ada4eaa22f1d49c01e52ddb7875b4b 0000 /t/y\nend 2";

const JOURNAL_AT: &str = "/t/.sd-journal";

const FIRST_STAGE_AT: &str = "/t/a/.sd-0000.tmp";

const SECOND_STAGE_AT: &str = "/t/.sd-0000.tmp";

/// A stage of new bytes.
const STAGE: Node = Node::File(b"1");

/// Both files new, with no journal and no stage.
const DONE: Left = &[
    ("/t/a/x", Some(b"1")),
    ("/t/y", Some(b"1")),
    (JOURNAL_AT, None),
    (FIRST_STAGE_AT, None),
    (SECOND_STAGE_AT, None),
];

/// Both files and the stage of the first as they were.
const KEPT: Left = &[
    ("/t/a/x", Some(b"one")),
    ("/t/y", Some(b"one")),
    (FIRST_STAGE_AT, Some(b"1")),
];

/// A name, what stands beside both files, the root, what a recovery answers, and which files are left.
type Case = (&'static str, Nodes, &'static str, &'static str, Left);

const CASES: &[Case] = &[
    (
        "a change that stands is carried out",
        &[
            (FIRST_STAGE_AT, STAGE),
            (SECOND_STAGE_AT, STAGE),
            (JOURNAL_AT, JOURNAL),
        ],
        "/t",
        "recovered 2",
        DONE,
    ),
    (
        "a link to a root is followed",
        &[
            (FIRST_STAGE_AT, STAGE),
            (SECOND_STAGE_AT, STAGE),
            (JOURNAL_AT, JOURNAL),
            ("/root", Node::Link("/t")),
        ],
        "/root",
        "recovered 2",
        DONE,
    ),
    (
        "a journal without lines is removed",
        &[
            (FIRST_STAGE_AT, STAGE),
            (SECOND_STAGE_AT, STAGE),
            (JOURNAL_AT, Node::File(b"sd-journal 1\nend 0\n")),
        ],
        "/t",
        "recovered 0",
        &[
            ("/t/a/x", Some(b"one")),
            ("/t/y", Some(b"one")),
            (JOURNAL_AT, None),
        ],
    ),
    (
        "a root without a journal has nothing to recover",
        &[(FIRST_STAGE_AT, STAGE), (SECOND_STAGE_AT, STAGE)],
        "/t",
        "recovered 0",
        KEPT,
    ),
    (
        "a file has nothing to recover",
        &[(FIRST_STAGE_AT, STAGE), (SECOND_STAGE_AT, STAGE)],
        "/t/y",
        "recovered 0",
        KEPT,
    ),
    (
        "nothing stands at the root",
        &[(FIRST_STAGE_AT, STAGE), (SECOND_STAGE_AT, STAGE)],
        "/none",
        "the root leads to nothing",
        KEPT,
    ),
    (
        "a root is a link to nothing",
        &[
            (FIRST_STAGE_AT, STAGE),
            (SECOND_STAGE_AT, STAGE),
            ("/lost", Node::Link("/nothing")),
        ],
        "/lost",
        "the root leads to nothing",
        KEPT,
    ),
    (
        "no text is no journal",
        &[
            (FIRST_STAGE_AT, STAGE),
            (SECOND_STAGE_AT, STAGE),
            (JOURNAL_AT, Node::File(b"")),
        ],
        "/t",
        "not a journal",
        &[
            ("/t/a/x", Some(b"one")),
            ("/t/y", Some(b"one")),
            (FIRST_STAGE_AT, Some(b"1")),
            (JOURNAL_AT, Some(b"")),
        ],
    ),
    (
        "no journal: another version",
        &[
            (FIRST_STAGE_AT, STAGE),
            (SECOND_STAGE_AT, STAGE),
            (JOURNAL_AT, Node::File(b"sd-journal 2\nend 0\n")),
        ],
        "/t",
        "not a journal",
        &[
            ("/t/a/x", Some(b"one")),
            ("/t/y", Some(b"one")),
            (FIRST_STAGE_AT, Some(b"1")),
            (JOURNAL_AT, Some(b"sd-journal 2\nend 0\n")),
        ],
    ),
    (
        "no journal: another count",
        &[
            (FIRST_STAGE_AT, STAGE),
            (SECOND_STAGE_AT, STAGE),
            (JOURNAL_AT, Node::File(b"sd-journal 1\nend 1\n")),
        ],
        "/t",
        "not a journal",
        &[
            ("/t/a/x", Some(b"one")),
            ("/t/y", Some(b"one")),
            (FIRST_STAGE_AT, Some(b"1")),
            (JOURNAL_AT, Some(b"sd-journal 1\nend 1\n")),
        ],
    ),
    (
        "no journal: no end",
        &[
            (FIRST_STAGE_AT, STAGE),
            (SECOND_STAGE_AT, STAGE),
            (JOURNAL_AT, Node::File(NO_END)),
        ],
        "/t",
        "not a journal",
        &[
            ("/t/a/x", Some(b"one")),
            ("/t/y", Some(b"one")),
            (FIRST_STAGE_AT, Some(b"1")),
            (JOURNAL_AT, Some(NO_END)),
        ],
    ),
    (
        "no journal: no last newline",
        &[
            (FIRST_STAGE_AT, STAGE),
            (SECOND_STAGE_AT, STAGE),
            (JOURNAL_AT, Node::File(NO_LAST_NEWLINE)),
        ],
        "/t",
        "not a journal",
        &[
            ("/t/a/x", Some(b"one")),
            ("/t/y", Some(b"one")),
            (FIRST_STAGE_AT, Some(b"1")),
            (JOURNAL_AT, Some(NO_LAST_NEWLINE)),
        ],
    ),
    (
        "a folder is no journal",
        &[
            (FIRST_STAGE_AT, STAGE),
            (SECOND_STAGE_AT, STAGE),
            (JOURNAL_AT, Node::Folder),
        ],
        "/t",
        "not a journal",
        KEPT,
    ),
    (
        "a link to a journal is no journal",
        &[
            (FIRST_STAGE_AT, STAGE),
            (SECOND_STAGE_AT, STAGE),
            ("/t/journal", JOURNAL),
            (JOURNAL_AT, Node::Link("journal")),
        ],
        "/t",
        "not a journal",
        KEPT,
    ),
    (
        "a pipe is no journal",
        &[
            (FIRST_STAGE_AT, STAGE),
            (SECOND_STAGE_AT, STAGE),
            (JOURNAL_AT, Node::Other),
        ],
        "/t",
        "not a journal",
        KEPT,
    ),
    (
        "a stage that is missing is told",
        &[(FIRST_STAGE_AT, STAGE), (JOURNAL_AT, JOURNAL)],
        "/t",
        "/t/y: no stage",
        KEPT,
    ),
    (
        "a link to the bytes of a stage is none",
        &[
            (FIRST_STAGE_AT, STAGE),
            (JOURNAL_AT, JOURNAL),
            (SECOND_STAGE_AT, Node::Link("a/.sd-0000.tmp")),
        ],
        "/t",
        "/t/y: no stage",
        KEPT,
    ),
    (
        "the first of two stages that are missing is told",
        &[(JOURNAL_AT, JOURNAL)],
        "/t",
        "/t/a/x: no stage",
        &[],
    ),
    (
        "a stage that differs is told",
        &[
            (FIRST_STAGE_AT, STAGE),
            (JOURNAL_AT, JOURNAL),
            (SECOND_STAGE_AT, Node::File(b"2")),
        ],
        "/t",
        "/t/y: stage differs: planned 6b86b273ff34fce19d6b804eff5a3f5747ada4eaa22f1d49c01e52ddb7875b4b, found d4735e3a265e16eee03f59718b9b5d03019c07d8b6c51f90da3a666eec13ab35",
        KEPT,
    ),
];

/// What a recovery answers: `recovered N`, or the text of its fault.
pub(crate) fn answer_of(alloc: Global, disk: &mut MemDisk, root: &str) -> Result<String, Fail> {
    match recover(alloc, disk, root) {
        Ok(count) => Ok(format!(in alloc; "recovered {count}")?),
        Err(fault) => Ok(format!(in alloc; "{fault}")?),
    }
}

/// What a recovery answers on the disk of a row, and whether it leaves the files of the row.
fn answer_to(alloc: Global, case: &Case) -> Result<(String, bool), Fail> {
    let mut disk = filled(alloc, case.1)?;
    let answer = answer_of(alloc, &mut disk, case.2)?;
    let are_left = are_left(alloc, &disk, case.4)?;
    Ok((answer, are_left))
}

#[test]
fn a_recovery_answers_by_what_stands_in_its_root(rt: HostRuntime) -> Result<(), Fail> {
    for case in CASES {
        let (answer, are_left) = answer_to(rt.alloc(), case)?;
        assert_eq!(rt; answer.as_str(), case.3, "{}", case.0);
        assert!(rt; are_left, "{}", case.0);
    }
    Ok(())
}
