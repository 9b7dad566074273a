//! Plans that are applied.

use crate::disks::{both_hold, fill};
use crate::replacers::Becomes;
use many_files::Report;
use mem_io::MemDisk;
use planned_files::{ApplyFault, apply_plan};
use sd_plan::{Plan, read_plan};
use std::alloc::Global;
use std::test::Fail;

/// `/t/x` is to change from `abc` to no bytes.
pub(crate) const EMPTIES_X: &str =
    "sd-plan 1\nba7816bf8f01cfea414140de5dae2223b00361a396177a9cb410ff61f20015ad e3b0c44298fc1c149afbf4c8996fb92427ae41e4649b934ca495991b7852b855 + 1 /t/x\nchosen 1, changed 1, replaced 1\n";

/// And so is `/t/y`.
pub(crate) const EMPTIES_BOTH: &str =
    "sd-plan 1\nba7816bf8f01cfea414140de5dae2223b00361a396177a9cb410ff61f20015ad e3b0c44298fc1c149afbf4c8996fb92427ae41e4649b934ca495991b7852b855 + 1 /t/x\nba7816bf8f01cfea414140de5dae2223b00361a396177a9cb410ff61f20015ad e3b0c44298fc1c149afbf4c8996fb92427ae41e4649b934ca495991b7852b855 + 1 /t/y\nchosen 2, changed 2, replaced 2\n";

/// The same of `/t/x`, first by a link to it.
const EMPTIES_X_TWICE: &str =
    "sd-plan 1\nba7816bf8f01cfea414140de5dae2223b00361a396177a9cb410ff61f20015ad e3b0c44298fc1c149afbf4c8996fb92427ae41e4649b934ca495991b7852b855 + 1 /l\nba7816bf8f01cfea414140de5dae2223b00361a396177a9cb410ff61f20015ad e3b0c44298fc1c149afbf4c8996fb92427ae41e4649b934ca495991b7852b855 + 1 /t/x\nchosen 2, changed 2, replaced 2\n";

/// `/t/x` is to stay, and another number of spans is told.
const KEEPS_X: &str =
    "sd-plan 1\nba7816bf8f01cfea414140de5dae2223b00361a396177a9cb410ff61f20015ad ba7816bf8f01cfea414140de5dae2223b00361a396177a9cb410ff61f20015ad + 7 /t/x\nchosen 1, changed 1, replaced 7\n";

const KEEPS_EMPTY: &str =
    "sd-plan 1\ne3b0c44298fc1c149afbf4c8996fb92427ae41e4649b934ca495991b7852b855 e3b0c44298fc1c149afbf4c8996fb92427ae41e4649b934ca495991b7852b855 = 0 /t/empty\nchosen 1, changed 0, replaced 0\n";

const NO_LINES: &str = "sd-plan 1\nchosen 0, changed 0, replaced 0\n";

/// Files that aren't there, or are something else.
const EMPTIES_NOTHING: &str =
    "sd-plan 1\nba7816bf8f01cfea414140de5dae2223b00361a396177a9cb410ff61f20015ad e3b0c44298fc1c149afbf4c8996fb92427ae41e4649b934ca495991b7852b855 + 1 /t/none\nchosen 1, changed 1, replaced 1\n";

const EMPTIES_FOLDER: &str =
    "sd-plan 1\nba7816bf8f01cfea414140de5dae2223b00361a396177a9cb410ff61f20015ad e3b0c44298fc1c149afbf4c8996fb92427ae41e4649b934ca495991b7852b855 + 1 /t\nchosen 1, changed 1, replaced 1\n";

const ABSENT: &str = "no such file or directory";

const X_IS_STALE: &str =
    "/t/x has changed since the plan: planned ba7816bf8f01cfea414140de5dae2223b00361a396177a9cb410ff61f20015ad, found 88d4266fd4e6338d13b845fcf289579d209c897823b9217da3e161936f031589";

const Y_IS_STALE: &str =
    "/t/y has changed since the plan: planned ba7816bf8f01cfea414140de5dae2223b00361a396177a9cb410ff61f20015ad, found 88d4266fd4e6338d13b845fcf289579d209c897823b9217da3e161936f031589";

const X_DIFFERS: &str =
    "/t/x would not become what was planned: planned e3b0c44298fc1c149afbf4c8996fb92427ae41e4649b934ca495991b7852b855, found ba7816bf8f01cfea414140de5dae2223b00361a396177a9cb410ff61f20015ad";

/// What is told of a report.
fn line_of(alloc: Global, report: &Report) -> Result<String, Fail> {
    let Report {
        chosen,
        changed,
        replaced,
    } = *report;
    Ok(format!(in alloc; "chosen {chosen}, changed {changed}, replaced {replaced}")?)
}

/// The text of the report, or of the fault.
fn text_of(alloc: Global, answer: &Result<Report, ApplyFault>) -> Result<String, Fail> {
    match answer {
        Ok(report) => line_of(alloc, report),
        Err(fault) => Ok(format!(in alloc; "{fault}")?),
    }
}

/// Applies a plan, with a text in place of the files' bytes, and gives what is told.
fn told_of(alloc: Global, disk: &mut MemDisk, plan: &Plan, text: &[u8]) -> Result<String, Fail> {
    let answer = apply_plan(alloc, disk, plan, &Becomes { alloc, text });
    text_of(alloc, &answer)
}

/// The same of the text of a plan.
pub(crate) fn applied(
    alloc: Global,
    disk: &mut MemDisk,
    plan: &str,
    text: &[u8],
) -> Result<String, Fail> {
    let plan = read_plan(alloc, plan.as_bytes())?;
    told_of(alloc, disk, &plan, text)
}

/// What `/t/x` and `/t/y` hold.
type Held = (&'static [u8], &'static [u8]);

/// A plan, what both files hold, what their bytes become, what is told, and what they hold then.
type Case = (&'static str, Held, &'static [u8], &'static str, Held);

const CASES: &[Case] = &[
    (
        NO_LINES,
        (b"abc", b"abc"),
        b"",
        "chosen 0, changed 0, replaced 0",
        (b"abc", b"abc"),
    ),
    (
        EMPTIES_X,
        (b"abc", b"abc"),
        b"",
        "chosen 1, changed 1, replaced 1",
        (b"", b"abc"),
    ),
    (
        EMPTIES_BOTH,
        (b"abc", b"abc"),
        b"",
        "chosen 2, changed 2, replaced 2",
        (b"", b""),
    ),
    (
        EMPTIES_X_TWICE,
        (b"abc", b"abc"),
        b"",
        "chosen 2, changed 1, replaced 1",
        (b"", b"abc"),
    ),
    (
        KEEPS_X,
        (b"abc", b"abc"),
        b"abc",
        "chosen 1, changed 0, replaced 1",
        (b"abc", b"abc"),
    ),
    (
        KEEPS_EMPTY,
        (b"abc", b"abc"),
        b"abc",
        "chosen 1, changed 0, replaced 0",
        (b"abc", b"abc"),
    ),
    (
        EMPTIES_X,
        (b"abcd", b"abc"),
        b"",
        X_IS_STALE,
        (b"abcd", b"abc"),
    ),
    (
        EMPTIES_X,
        (b"abc", b"abc"),
        b"abc",
        X_DIFFERS,
        (b"abc", b"abc"),
    ),
    (
        EMPTIES_BOTH,
        (b"abc", b"abcd"),
        b"",
        Y_IS_STALE,
        (b"abc", b"abcd"),
    ),
    (
        EMPTIES_BOTH,
        (b"abc", b"abcd"),
        b"abc",
        X_DIFFERS,
        (b"abc", b"abcd"),
    ),
    (
        EMPTIES_BOTH,
        (b"abcd", b"abc"),
        b"abc",
        X_IS_STALE,
        (b"abcd", b"abc"),
    ),
    (
        EMPTIES_NOTHING,
        (b"abc", b"abc"),
        b"",
        ABSENT,
        (b"abc", b"abc"),
    ),
    (
        EMPTIES_FOLDER,
        (b"abc", b"abc"),
        b"",
        ABSENT,
        (b"abc", b"abc"),
    ),
];

/// Whether a case ends so on an empty disk that it fills.
fn is_right_on(alloc: Global, disk: &mut MemDisk, case: &Case) -> Result<bool, Fail> {
    let (plan, before, text, told, after) = *case;
    fill(disk, before.0, before.1)?;
    let is_told = applied(alloc, disk, plan, text)?.as_str() == told;
    Ok(is_told && both_hold(alloc, disk, after.0, after.1)?)
}

/// The same on a new disk.
fn is_right(alloc: Global, case: &Case) -> Result<bool, Fail> {
    let mut disk = MemDisk::new(alloc);
    is_right_on(alloc, &mut disk, case)
}

#[test]
fn a_plan_is_carried_out_or_refused_by_its_first_wrong_line(rt: HostRuntime) -> Result<(), Fail> {
    let alloc = rt.alloc();
    for (place, case) in CASES.iter().enumerate() {
        let is_right = is_right(alloc, case)?;
        assert!(rt; is_right, "case {place}");
    }
    Ok(())
}
