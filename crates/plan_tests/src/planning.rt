//! Plans that are made.

ghost use Rattle.std.specs.Prelude.{◌≢◌, [], All, IfOk};

use crate::disks::{both_hold, fill};
use crate::replacers::Becomes;
use mem_io::MemDisk;
use planned_files::plan_files;
use sd_base::Text;
use sd_io::DiskFault;
use sd_plan::{Plan, write_plan};
use std::alloc::Global;
use std::test::Fail;

/// The words that aren't empty, as paths.
fn paths(alloc: Global, words: &[&str]) -> Result<Vec<Text>, Fail>
    ensures { IfOk result (λ paths. All (λ path. path ≢ []) paths.items) }
{
    let mut paths = Vec::new(alloc);
    for word in words {
        if !word.is_empty() {
            paths.push(Text::new(alloc, word)?)?;
        }
    }
    Ok(paths)
}

/// Plans the files of some words, with a text in place of their bytes.
fn answer_of(
    alloc: Global,
    disk: &mut MemDisk,
    words: &[&str],
    text: &[u8],
) -> Result<Result<Plan, DiskFault>, Fail> {
    let paths = paths(alloc, words)?;
    Ok(plan_files(alloc, disk, paths, &Becomes { alloc, text }))
}

/// The text of the plan, or of the fault.
fn text_of(alloc: Global, answer: &Result<Plan, DiskFault>) -> Result<String, Fail> {
    match answer {
        Ok(plan) => Ok(
            String::from_utf8(write_plan(alloc, plan)?)
                .ok()
                .ok_or("no text")?,
        ),
        Err(fault) => Ok(format!(in alloc; "{fault}")?),
    }
}

/// Some words, what the bytes of their files are to become, and what is told then.
type Case = (&'static [&'static str], &'static [u8], &'static str);

const CASES: &[Case] = &[
    (&[], b"", "sd-plan 1\nchosen 0, changed 0, replaced 0\n"),
    (
        &["/t/x"],
        b"",
        "sd-plan 1\nba7816bf8f01cfea414140de5dae2223b00361a396177a9cb410ff61f20015ad e3b0c44298fc1c149afbf4c8996fb92427ae41e4649b934ca495991b7852b855 + 1 /t/x\nchosen 1, changed 1, replaced 1\n",
    ),
    (
        &["/t/y", "/t/x"],
        b"abc",
        "sd-plan 1\n88d4266fd4e6338d13b845fcf289579d209c897823b9217da3e161936f031589 ba7816bf8f01cfea414140de5dae2223b00361a396177a9cb410ff61f20015ad + 1 /t/y\nba7816bf8f01cfea414140de5dae2223b00361a396177a9cb410ff61f20015ad ba7816bf8f01cfea414140de5dae2223b00361a396177a9cb410ff61f20015ad = 1 /t/x\nchosen 2, changed 1, replaced 2\n",
    ),
    (
        &["/t/empty"],
        b"abc",
        "sd-plan 1\ne3b0c44298fc1c149afbf4c8996fb92427ae41e4649b934ca495991b7852b855 e3b0c44298fc1c149afbf4c8996fb92427ae41e4649b934ca495991b7852b855 = 0 /t/empty\nchosen 1, changed 0, replaced 0\n",
    ),
    (
        &["/l"],
        b"",
        "sd-plan 1\nba7816bf8f01cfea414140de5dae2223b00361a396177a9cb410ff61f20015ad e3b0c44298fc1c149afbf4c8996fb92427ae41e4649b934ca495991b7852b855 + 1 /l\nchosen 1, changed 1, replaced 1\n",
    ),
    (&["/t/x", "/t"], b"", "no such file or directory"),
    (&["/t/none", "/t/x"], b"", "no such file or directory"),
    (&["/"], b"", "no such file or directory"),
];

/// Whether a case is told so on an empty disk that it fills, and leaves the files as they are.
fn is_right_on(alloc: Global, disk: &mut MemDisk, case: &Case) -> Result<bool, Fail> {
    fill(disk, b"abc", b"abcd")?;
    let answer = answer_of(alloc, disk, case.0, case.1)?;
    let told = text_of(alloc, &answer)?;
    Ok(told.as_str() == case.2 && both_hold(alloc, disk, b"abc", b"abcd")?)
}

/// The same on a new disk.
fn is_right(alloc: Global, case: &Case) -> Result<bool, Fail> {
    let mut disk = MemDisk::new(alloc);
    is_right_on(alloc, &mut disk, case)
}

#[test]
fn a_plan_tells_what_is_to_become_of_each_file(rt: HostRuntime) -> Result<(), Fail> {
    let alloc = rt.alloc();
    for (place, case) in CASES.iter().enumerate() {
        let is_right = is_right(alloc, case)?;
        assert!(rt; is_right, "case {place}");
    }
    Ok(())
}

/// Whether the fault of a call is told on an empty disk that it fills, and leaves the files as they are.
fn is_told_on(alloc: Global, disk: &mut MemDisk, call: u64) -> Result<bool, Fail> {
    fill(disk, b"abc", b"abcd")?;
    disk.fail_at(call)?;
    let answer = answer_of(alloc, disk, &["/t/x", "/t/y"], b"")?;
    let told = text_of(alloc, &answer)?;
    Ok(told.as_str() == "input or output failed" && both_hold(alloc, disk, b"abc", b"abcd")?)
}

/// The same on a new disk.
fn is_told(alloc: Global, call: u64) -> Result<bool, Fail> {
    let mut disk = MemDisk::new(alloc);
    is_told_on(alloc, &mut disk, call)
}

#[test]
fn a_file_that_is_not_read_ends_the_plan(rt: HostRuntime) -> Result<(), Fail> {
    let alloc = rt.alloc();
    for call in 1..=2 {
        let is_told = is_told(alloc, call)?;
        assert!(rt; is_told, "call {call}");
    }
    Ok(())
}
