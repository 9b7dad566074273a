//! The disk in memory, by its own calls.
//!
//! A case of `calls` is a sentence; its parts are calls one after the other on the disk of its section, each with its paths and its
//! answer:
//!
//! - `kind PATH` and `link_kind PATH` answer what stands there, a link at the end followed or not; `len PATH` how many bytes it has,
//!   `dev PATH` the number of its device, `node PATH` that and its own number, `same PATH PATH` `yes` where both are one node, `place PATH`
//!   the path that it leads to, and `read PATH` bytes;
//! - `list PATH` answers the first three entries, each with its kind, and `and more` where there are; `first PATH` answers the first, and its
//!   list stays open. `open PATH` opens one;
//! - `create PATH LIKE`, `write PATH BYTES`, `sync PATH`, `rename PATH PATH`, `remove PATH`, `sync_names PATH` and `set_dev PATH NUMBER`
//!   answer `done`, as do `dir`, `file`, `link` and `other` with the fields that a section has, and `fail CALL` and `stop CALL`;
//! - `calls`, `faults` and `lists` answer how many there were, `mode PATH` a file's mode or `%none`, `held PATH` its bytes or `%none`;
//! - `run WORDS` runs a command, and answers its status. `image CHOICE` answers `done`, and the disk is then what a crash leaves by that choice.
//!   `in_images PATH BYTES` answers in which of the first sixteen images a file holds these bytes, or is absent at `%none`: `none`, `some` or `all`.
//!
//! Every call may answer a fault in place of that: `Absent`, `Taken`, `Failed`, `NoMemory`, or the text of the fault where nothing can be
//! built.

use crate::images::{become_image, count_in_images};
use crate::plain;
use crate::running::run_field;
use crate::shown::told;
use crate::tree::{add, disk_of};
use anyhow::Error;
use case_reader::{Case, CaseFault, Line};
use mem_io::{BuildFault, MemDisk};
use sd_io::{DiskFault, Ident, Kind, Meta};
use std::alloc::Global;

/// An answer: bytes, or nothing.
type Answer = Result<Option<Vec<u8>>, Error>;

/// The first call of a case that is answered otherwise, and its answer; or nothing.
pub fn difference(alloc: Global, case: &Case<'_>) -> Answer {
    let mut disk = disk_of(alloc, case)?;
    first_otherwise(alloc, case, &mut disk)
}

/// The same on a disk.
fn first_otherwise(alloc: Global, case: &Case<'_>, disk: &mut MemDisk) -> Answer {
    for number in 0..usize::MAX {
        let Some(line) = case.part(number) else {
            break;
        };
        if let Some(found) = otherwise(alloc, case, disk, line)? {
            return Ok(Some(found));
        }
    }
    Ok(None)
}

/// A call's line and its answer, where that isn't the one that the line ends with.
fn otherwise(alloc: Global, case: &Case<'_>, disk: &mut MemDisk, line: Line<'_>) -> Answer {
    let found = answer(alloc, case, disk, line)?;
    if found == line.value(alloc, line.len().saturating_sub(1))? {
        return Ok(None);
    }
    match found {
        None => told(alloc, line.written(0)?, b"%none"),
        Some(bytes) => told(alloc, line.written(0)?, &bytes),
    }
}

/// What is called.
#[derive(Clone, Copy)]
enum Call {
    Ask(Ask),
    Act(Act),
    Same,
    InImages,
    Create,
    Write,
    Rename,
    SetDev,
    Build,
    Fail,
    Stop,
    Calls,
    Faults,
    Lists,
    Run,
    Image,
}

/// What is told at a path.
#[derive(Clone, Copy)]
enum Ask {
    Kind,
    LinkKind,
    Len,
    Dev,
    Node,
    Place,
    Read,
    List,
    First,
    Mode,
    Held,
}

/// What is done at a path and answers nothing.
#[derive(Clone, Copy)]
enum Act {
    Open,
    Sync,
    Remove,
    SyncNames,
}

/// The calls and their names.
const CALLS: &[(&str, Call)] = &[
    ("kind", Call::Ask(Ask::Kind)),
    ("link_kind", Call::Ask(Ask::LinkKind)),
    ("len", Call::Ask(Ask::Len)),
    ("dev", Call::Ask(Ask::Dev)),
    ("node", Call::Ask(Ask::Node)),
    ("same", Call::Same),
    ("place", Call::Ask(Ask::Place)),
    ("read", Call::Ask(Ask::Read)),
    ("list", Call::Ask(Ask::List)),
    ("first", Call::Ask(Ask::First)),
    ("open", Call::Act(Act::Open)),
    ("create", Call::Create),
    ("write", Call::Write),
    ("sync", Call::Act(Act::Sync)),
    ("rename", Call::Rename),
    ("remove", Call::Act(Act::Remove)),
    ("sync_names", Call::Act(Act::SyncNames)),
    ("set_dev", Call::SetDev),
    ("dir", Call::Build),
    ("file", Call::Build),
    ("link", Call::Build),
    ("other", Call::Build),
    ("fail", Call::Fail),
    ("stop", Call::Stop),
    ("calls", Call::Calls),
    ("faults", Call::Faults),
    ("lists", Call::Lists),
    ("mode", Call::Ask(Ask::Mode)),
    ("held", Call::Ask(Ask::Held)),
    ("run", Call::Run),
    ("image", Call::Image),
    ("in_images", Call::InImages),
];

/// The call of a name.
fn call_of(name: &str) -> Result<Call, CaseFault> {
    for (call_name, call) in CALLS {
        if *call_name == name {
            return Ok(*call);
        }
    }
    Err(CaseFault::Word)
}

/// The answer to the call of a line.
fn answer(alloc: Global, case: &Case<'_>, disk: &mut MemDisk, line: Line<'_>) -> Answer {
    match call_of(line.written(0)?)? {
        Call::Ask(what) => told_at(alloc, disk, &line.text(alloc, 1)?, what),
        Call::Act(what) => done(alloc, do_at(disk, &line.text(alloc, 1)?, what)),
        Call::Same => same(alloc, disk, line),
        Call::InImages => in_images(alloc, disk, line),
        Call::Create => create(alloc, disk, line),
        Call::Write => write(alloc, disk, line),
        Call::Rename => rename(alloc, disk, line),
        Call::SetDev => set_dev(alloc, disk, line),
        Call::Build => build(alloc, disk, line),
        Call::Fail => fail(alloc, disk, line),
        Call::Stop => stop(alloc, disk, line),
        Call::Calls => number(alloc, disk.calls()),
        Call::Faults => number(alloc, disk.faults()),
        Call::Lists => number(alloc, disk.lists_most()),
        Call::Run => ran(alloc, case, disk, line),
        Call::Image => image(alloc, disk, line),
    }
}

/// What is told at a path.
fn told_at(alloc: Global, disk: &mut MemDisk, path: &str, what: Ask) -> Answer {
    match what {
        Ask::Kind => kind(alloc, plain::stat(disk, path, true)),
        Ask::LinkKind => kind(alloc, plain::stat(disk, path, false)),
        Ask::Len => len(alloc, plain::stat(disk, path, false)),
        Ask::Dev => dev(alloc, plain::ident(disk, path)),
        Ask::Node => node(alloc, plain::ident(disk, path)),
        Ask::Place => place(alloc, disk, path),
        Ask::Read => read(alloc, disk, path),
        Ask::List => list(alloc, disk, path),
        Ask::First => first(alloc, disk, path),
        Ask::Mode => mode(alloc, disk.mode_at(path)),
        Ask::Held => held(alloc, disk, path),
    }
}

/// A call of a path that answers nothing.
fn do_at(disk: &mut MemDisk, path: &str, what: Act) -> Result<(), DiskFault> {
    match what {
        Act::Open => plain::open(disk, path),
        Act::Sync => plain::sync(disk, path),
        Act::Remove => plain::remove(disk, path),
        Act::SyncNames => plain::sync_dir(disk, path),
    }
}

/// The two paths of a line.
fn two_texts(alloc: Global, line: Line<'_>) -> Result<(String, String), CaseFault> {
    let first = line.text(alloc, 1)?;
    let second = line.text(alloc, 2)?;
    Ok((first, second))
}

/// Makes a file with the mode of the one that a line names.
fn create(alloc: Global, disk: &mut MemDisk, line: Line<'_>) -> Answer {
    let (path, like) = two_texts(alloc, line)?;
    done(alloc, plain::create_like(disk, &path, &like))
}

/// Gives a file the bytes of a line.
fn write(alloc: Global, disk: &mut MemDisk, line: Line<'_>) -> Answer {
    let path = line.text(alloc, 1)?;
    let bytes = line.bytes(alloc, 2)?;
    done(alloc, plain::write_file(disk, &path, &bytes))
}

/// Renames a file to the path of a line.
fn rename(alloc: Global, disk: &mut MemDisk, line: Line<'_>) -> Answer {
    let (from, to) = two_texts(alloc, line)?;
    done(alloc, plain::rename(disk, &from, &to))
}

/// Runs the words of a line, and gives their status.
fn ran(alloc: Global, case: &Case<'_>, disk: &mut MemDisk, line: Line<'_>) -> Answer {
    let ran = run_field(alloc, case, line, 1, disk)?;
    number(alloc, u64::from(ran.ending.status))
}

/// Lets a disk become its image by a choice.
fn image(alloc: Global, disk: &mut MemDisk, line: Line<'_>) -> Answer {
    become_image(alloc, disk, u64::from(line.number(1)?))?;
    text(alloc, "done")
}

/// In which of the first images a file is as a line has it.
fn in_images(alloc: Global, disk: &MemDisk, line: Line<'_>) -> Answer {
    let path = line.text(alloc, 1)?;
    let bytes = line.value(alloc, 2)?;
    let (count, all) = count_in_images(alloc, disk, &path, &bytes)?;
    match count {
        0 => text(alloc, "none"),
        _ if count == all => text(alloc, "all"),
        _ => text(alloc, "some"),
    }
}

/// A text as an answer.
fn text(alloc: Global, text: &str) -> Answer {
    Ok(Some(text.as_bytes().to_vec(alloc)?))
}

/// A number as an answer.
fn number(alloc: Global, number: u64) -> Answer {
    text(alloc, &format!(in alloc; "{number}")?)
}

/// A mode as an answer.
fn mode(alloc: Global, mode: Option<u32>) -> Answer {
    match mode {
        None => Ok(None),
        Some(mode) => text(alloc, &format!(in alloc; "{mode:o}")?),
    }
}

/// The name of a fault as an answer.
fn refused(alloc: Global, fault: DiskFault) -> Answer {
    text(
        alloc,
        match fault {
            DiskFault::Absent => "Absent",
            DiskFault::Taken => "Taken",
            DiskFault::Failed => "Failed",
            DiskFault::NoMemory => "NoMemory",
        },
    )
}

/// The answer of a call that gives nothing.
fn done(alloc: Global, answer: Result<(), DiskFault>) -> Answer {
    match answer {
        Ok(()) => text(alloc, "done"),
        Err(fault) => refused(alloc, fault),
    }
}

/// The answer of a call that builds something.
fn built(alloc: Global, answer: Result<(), BuildFault>) -> Answer {
    match answer {
        Ok(()) => text(alloc, "done"),
        Err(fault) => text(alloc, &format!(in alloc; "{fault}")?),
    }
}

/// The kind of what stands at a path.
fn kind(alloc: Global, answer: Result<Meta, DiskFault>) -> Answer {
    match answer {
        Ok(meta) => text(alloc, plain::kind_name(meta.kind)),
        Err(fault) => refused(alloc, fault),
    }
}

/// How many bytes what stands at a path has.
fn len(alloc: Global, answer: Result<Meta, DiskFault>) -> Answer {
    match answer {
        Ok(meta) => number(alloc, meta.len),
        Err(fault) => refused(alloc, fault),
    }
}

/// The number of a node's device.
fn dev(alloc: Global, answer: Result<Ident, DiskFault>) -> Answer {
    match answer {
        Ok(ident) => number(alloc, ident.dev),
        Err(fault) => refused(alloc, fault),
    }
}

/// The numbers of a node's device and of itself.
fn node(alloc: Global, answer: Result<Ident, DiskFault>) -> Answer {
    match answer {
        Ok(ident) => text(alloc, &format!(in alloc; "{} {}", ident.dev, ident.ino)?),
        Err(fault) => refused(alloc, fault),
    }
}

/// Whether two paths lead to one node.
fn same(alloc: Global, disk: &mut MemDisk, line: Line<'_>) -> Answer {
    let (left, right) = two_texts(alloc, line)?;
    match plain::are_same(disk, &left, &right) {
        Ok(true) => text(alloc, "yes"),
        Ok(false) => text(alloc, "no"),
        Err(fault) => refused(alloc, fault),
    }
}

/// The path that a path leads to.
fn place(alloc: Global, disk: &mut MemDisk, path: &str) -> Answer {
    match plain::resolve(alloc, disk, path) {
        Ok(place) => text(alloc, place.as_str()),
        Err(fault) => refused(alloc, fault),
    }
}

/// The bytes of the file that a path leads to.
fn read(alloc: Global, disk: &mut MemDisk, path: &str) -> Answer {
    match plain::read_file(alloc, disk, path) {
        Ok(bytes) => Ok(Some(bytes)),
        Err(fault) => refused(alloc, fault),
    }
}

/// The bytes of the file at a path.
fn held(alloc: Global, disk: &MemDisk, path: &str) -> Answer {
    Ok(disk.read_all(alloc, path)?)
}

/// The entries of a folder, of which the first three are told, and whether there are more.
fn list(alloc: Global, disk: &mut MemDisk, path: &str) -> Answer {
    match plain::names(alloc, disk, path) {
        Ok(names) => text(alloc, names.trim_start()),
        Err(fault) => refused(alloc, fault),
    }
}

/// The first entry of a folder, whose list stays open.
fn first(alloc: Global, disk: &mut MemDisk, path: &str) -> Answer {
    match plain::first_entry(alloc, disk, path) {
        Ok(None) => Ok(None),
        Ok(Some(entry)) => text(alloc, entry.name.as_str()),
        Err(fault) => refused(alloc, fault),
    }
}

/// Sets the device of what stands at a path and below.
fn set_dev(alloc: Global, disk: &mut MemDisk, line: Line<'_>) -> Answer {
    let path = line.text(alloc, 1)?;
    let dev = u64::from(line.number(2)?);
    built(alloc, plain::set_dev(disk, &path, dev))
}

/// Adds the node of a line.
fn build(alloc: Global, disk: &mut MemDisk, line: Line<'_>) -> Answer {
    let path = line.text(alloc, 1)?;
    match add(alloc, disk, line, &path, 0) {
        Ok(()) => text(alloc, "done"),
        Err(fault) => text(alloc, &format!(in alloc; "{fault}")?),
    }
}

/// Lets a call fail.
fn fail(alloc: Global, disk: &mut MemDisk, line: Line<'_>) -> Answer {
    plain::fail_at(disk, u64::from(line.number(1)?))?;
    text(alloc, "done")
}

/// Lets all calls from one on fail.
fn stop(alloc: Global, disk: &mut MemDisk, line: Line<'_>) -> Answer {
    disk.stop_at(u64::from(line.number(1)?));
    text(alloc, "done")
}
