//! What a crash leaves of a run.

ghost use Rattle.std.specs.Prelude.{OnOk};
ghost use Rattle.sd_io.specs.Lists.{IsOpen};

use crate::disks::{CHOICES, DIGIT, Held, NEW, OLD, ONE, TWO_FILES, filled, first_broken};
use crate::running::run_given;
use mem_io::MemDisk;
use sd_io::{Disk, DiskFault, ListId};
use std::alloc::Global;
use std::process::Abort;
use std::test::Fail;

const TREE_COMMAND: &[&str] = &["--root", "/t", "--", "one", "1", "*.txt"];

/// A command on two named files.
const FILES: &[&str] = &["--", "one", "1", "/t/a.txt", "/t/b.md"];

/// A command that changes nothing.
const PREVIEW: &[&str] = &["-p", "one", "1", "/t/a.txt", "/t/b.md"];

/// Whether a name is that of a temporary file.
fn is_reserved(name: &str) -> bool {
    name.len() == 12 && name.starts_with(".sd-") && name.ends_with(".tmp")
}

/// Whether a name is none of those of the two files and temporary ones.
fn is_strange(name: &str) -> bool {
    name != "a.txt" && name != "b.md" && !is_reserved(name)
}

/// Whether the next entry of a list has another name than the two files and temporary ones. `None` at the end of the list.
fn next_is_strange<D: Disk>(
    alloc: Global,
    disk: &mut D,
    list: ListId,
) -> Result<Option<bool>, DiskFault>
    requires { IsOpen (D.state disk.old) list.number }
    ensures { OnOk result (IsOpen (D.state disk.new) list.number) }
{
    match disk.next_entry(alloc, list)? {
        None => Ok(None),
        Some(entry) => Ok(Some(is_strange(entry.name.as_str()))),
    }
}

/// Whether something else than the two files and temporary ones stands in `/t`, which has at most three entries.
fn has_strangers<D: Disk>(alloc: Global, disk: &mut D) -> Result<bool, DiskFault> {
    let list = disk.open_dir("/t")?;
    let first = next_is_strange(alloc, disk, list)?;
    let second = next_is_strange(alloc, disk, list)?;
    let third = next_is_strange(alloc, disk, list)?;
    let end = next_is_strange(alloc, disk, list)?;
    let are_strange = first == Some(true) || second == Some(true) || third == Some(true);
    Ok(are_strange || end.is_some())
}

/// Whether the image that a crash leaves by a choice has strangers.
fn is_strange_image(alloc: Global, disk: &MemDisk, choice: u64) -> Result<bool, Fail> {
    let mut image = disk.crash(alloc, choice)?;
    Ok(has_strangers(alloc, &mut image)?)
}

/// The first choice of a crash that leaves strangers.
fn first_strange(alloc: Global, disk: &MemDisk) -> Result<Option<u64>, Fail> {
    for choice in 0..CHOICES {
        if is_strange_image(alloc, disk, choice)? {
            return Ok(Some(choice));
        }
    }
    Ok(None)
}

/// A command, how many bytes can be printed, and the call at which the disk stops, if it does.
#[derive(Clone, Copy)]
struct Course {
    words: &'static [&'static str],
    room: usize,
    stop: Option<u64>,
}

/// How a command ended, the first image in which a file is otherwise, and the first one with strangers.
#[derive(Clone, Copy)]
struct Found {
    status: u8,
    broken: Option<(u64, &'static str)>,
    strange: Option<u64>,
}

/// Lets a disk stop.
fn let_stop(disk: &mut MemDisk, stop: Option<u64>) {
    if let Some(call) = stop {
        disk.stop_at(call);
    }
}

/// Runs a command, and gives the status.
fn status_of(alloc: Global, disk: &mut MemDisk, course: Course) -> Result<u8, Fail> {
    let_stop(disk, course.stop);
    let ran = run_given(alloc, disk, course.words, b"", course.room)?;
    Ok(ran.outcome.status)
}

/// What is found behind a command on a disk, in whose images the files are to be so.
fn found_on(
    alloc: Global,
    disk: &mut MemDisk,
    course: Course,
    files: &[(&'static str, Held)],
) -> Result<Found, Fail> {
    let status = status_of(alloc, disk, course)?;
    let broken = first_broken(alloc, disk, files)?;
    let strange = first_strange(alloc, disk)?;
    Ok(Found {
        status,
        broken,
        strange,
    })
}

/// The same on the two files.
fn found_behind(
    alloc: Global,
    course: Course,
    files: &[(&'static str, Held)],
) -> Result<Found, Fail> {
    let mut disk = filled(alloc, TWO_FILES)?;
    found_on(alloc, &mut disk, course, files)
}

/// How many counted calls the words make on a disk.
fn calls_on(alloc: Global, disk: &mut MemDisk, words: &[&str]) -> Result<u64, Fail> {
    let _ran = run_given(alloc, disk, words, b"", 1000)?;
    Ok(disk.calls())
}

/// The same on the two files.
fn calls_of(alloc: Global, words: &[&str]) -> Result<u64, Fail> {
    let mut disk = filled(alloc, TWO_FILES)?;
    calls_on(alloc, &mut disk, words)
}

/// A command ends with this status, and in each first image of the disk the files are so, and nothing else stands but temporary files.
fn check_found(
    rt: &(impl Abort + AllocGlobal),
    course: Course,
    status: u8,
    files: &[(&'static str, Held)],
) -> Result<(), Fail> {
    let found = found_behind(rt.alloc(), course, files)?;
    let stop = course.stop;
    assert_eq!(rt; found.status, status, "stop {stop:?}");
    assert_eq!(rt; found.broken, None, "stop {stop:?}");
    assert_eq!(rt; found.strange, None, "stop {stop:?}");
    Ok(())
}

/// In each first image of a disk that stopped at any one of so many calls of a command, the files are so.
fn check_stops(
    rt: &(impl Abort + AllocGlobal),
    words: &'static [&'static str],
    calls: u64,
    files: &[(&'static str, Held)],
) -> Result<(), Fail> {
    for call in 1..=calls {
        let course = Course {
            words,
            room: 1000,
            stop: Some(call),
        };
        check_found(rt, course, 1, files)?;
    }
    Ok(())
}

/// What a tree command may leave that is stopped, and one on named files.
const TREE_STOPPED: &[(&str, Held)] = &[
    ("/t/a.txt", Held::Either(OLD, NEW)),
    ("/t/b.md", Held::This(ONE)),
];

const FILES_STOPPED: &[(&str, Held)] = &[
    ("/t/a.txt", Held::Either(OLD, NEW)),
    ("/t/b.md", Held::Either(ONE, DIGIT)),
];

#[test]
fn each_stop_and_crash_leaves_the_file_old_or_new(rt: HostRuntime) -> Result<(), Fail> {
    let calls = calls_of(rt.alloc(), TREE_COMMAND)?;
    // the root is listed, and the file read, created, written, synced and renamed, and its folder synced
    assert!(rt; calls > 6);
    check_stops(&rt, TREE_COMMAND, calls, TREE_STOPPED)
}

#[test]
fn each_stop_and_crash_leaves_named_files_old_or_new(rt: HostRuntime) -> Result<(), Fail> {
    let calls = calls_of(rt.alloc(), FILES)?;
    assert!(rt; calls > 12);
    check_stops(&rt, FILES, calls, FILES_STOPPED)
}

/// The file of the tree command is new alone, and the other one old.
const DURABLE: &[(&str, Held)] = &[
    ("/t/a.txt", Held::This(NEW)),
    ("/t/b.md", Held::This(ONE)),
    ("/t/.sd-0000.tmp", Held::Nothing),
];

#[test]
fn after_a_run_each_crash_leaves_the_new_file_alone(rt: HostRuntime) -> Result<(), Fail> {
    let course = Course {
        words: TREE_COMMAND,
        room: 1000,
        stop: None,
    };
    check_found(&rt, course, 0, DURABLE)
}

#[test]
fn after_a_report_that_cannot_be_written_too(rt: HostRuntime) -> Result<(), Fail> {
    let course = Course {
        words: TREE_COMMAND,
        room: 3,
        stop: None,
    };
    check_found(&rt, course, 1, DURABLE)
}

/// Both files are old.
const UNCHANGED: &[(&str, Held)] = &[("/t/a.txt", Held::This(OLD)), ("/t/b.md", Held::This(ONE))];

#[test]
fn a_preview_leaves_the_disk_as_it_was(rt: HostRuntime) -> Result<(), Fail> {
    let course = Course {
        words: PREVIEW,
        room: 1000,
        stop: None,
    };
    check_found(&rt, course, 0, UNCHANGED)
}
