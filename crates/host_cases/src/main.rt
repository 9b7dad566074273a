//! Goes through tables of what the host's disk and streams do to real files.
//!
//! The arguments name the tables; `case_reader` says how a table is written. The cases are done in turn, in the folder that the program runs in, so that
//! one finds what those above it left, on a disk of its own. Each kind of case that is known here has its line below: its name, how
//! many fields are asked about at least and at most, and what answers. `make_file`, `make_folder`, `make_link`, `set_mode` and `mode` go by the host
//! alone, without the disk.
#![tactic(auto)]

mod answers;
mod changing;
mod exchanging;
mod making;
mod streams;
mod telling;

use anyhow::Error;
use case_reader::{Answers, Case, kind_of, run};
use host_io::HostDisk;
use sd_io::Disk;
use std::alloc::Global;
use std::os::fd::AsRawFd;
use std::process::ExitCode;
use std::rt::Files;

/// An answer to a case: bytes, or nothing.
type Answer = Result<Option<Vec<u8>>, Error>;

/// A kind of case.
#[derive(Clone, Copy)]
enum Kind {
    Make(Made),
    Ask(Question),
    Source,
    Sink,
}

/// What the host does without the disk.
#[derive(Clone, Copy)]
enum Made {
    File,
    Folder,
    Link,
    SetMode,
    Mode,
}

/// What a disk is asked.
#[derive(Clone, Copy)]
enum Question {
    Stat,
    StatLink,
    SameNode,
    Resolve,
    List,
    Read,
    Create,
    Write,
    Sync,
    Rename,
    Remove,
    SyncDir,
    Exchange,
}

/// The kinds of case by their names, and how many fields each asks about at least and at most.
const KINDS: &[(&str, usize, usize, Kind)] = &[
    ("make_file", 2, 2, Kind::Make(Made::File)),
    ("make_folder", 1, 1, Kind::Make(Made::Folder)),
    ("make_link", 2, 2, Kind::Make(Made::Link)),
    ("set_mode", 2, 2, Kind::Make(Made::SetMode)),
    ("mode", 1, 1, Kind::Make(Made::Mode)),
    ("stat", 1, 1, Kind::Ask(Question::Stat)),
    ("stat_link", 1, 1, Kind::Ask(Question::StatLink)),
    ("same_node", 2, 2, Kind::Ask(Question::SameNode)),
    ("resolve", 1, 1, Kind::Ask(Question::Resolve)),
    ("list", 1, 1, Kind::Ask(Question::List)),
    ("read", 1, 1, Kind::Ask(Question::Read)),
    ("create", 2, 2, Kind::Ask(Question::Create)),
    ("write", 2, 2, Kind::Ask(Question::Write)),
    ("sync", 1, 1, Kind::Ask(Question::Sync)),
    ("rename", 2, 2, Kind::Ask(Question::Rename)),
    ("remove", 1, 1, Kind::Ask(Question::Remove)),
    ("sync_dir", 1, 1, Kind::Ask(Question::SyncDir)),
    ("exchange", 3, 3, Kind::Ask(Question::Exchange)),
    ("source", 2, 2, Kind::Source),
    ("sink", 2, 2, Kind::Sink),
];

/// What the host answers.
#[derive(Drop)]
struct Host<'a, R> {
    rt: &'a R,
}

impl<R: Files + AllocGlobal> Answers for Host<'_, R>
where
    R::File: AsRawFd,
{
    fn answer(&self, alloc: Global, case: &Case<'_>) -> Answer {
        match kind_of(case, case.inputs(), KINDS)? {
            Kind::Make(made) => making::make(self.rt, alloc, case, made),
            Kind::Ask(question) => ask(self.rt, alloc, case, question),
            Kind::Source => streams::source(self.rt, alloc, case),
            Kind::Sink => streams::sink(alloc, case),
        }
    }
}

/// Makes a disk, and asks it. It is let go before the answer is looked at, so that this is quickly proved.
fn ask<R: Files + AllocGlobal>(rt: &R, alloc: Global, case: &Case<'_>, question: Question) -> Answer
where
    R::File: AsRawFd,
{
    let mut disk = HostDisk::new(rt);
    let answer = answer_of(alloc, &mut disk, case, question);
    drop(disk);
    answer
}

/// What a disk answers.
fn answer_of<D: Disk>(alloc: Global, disk: &mut D, case: &Case<'_>, question: Question) -> Answer {
    match question {
        Question::Stat => telling::stat(alloc, disk, case, true),
        Question::StatLink => telling::stat(alloc, disk, case, false),
        Question::SameNode => telling::same_node(alloc, disk, case),
        Question::Resolve => telling::resolve(alloc, disk, case),
        Question::List => telling::list(alloc, disk, case),
        Question::Read => telling::read(alloc, disk, case),
        Question::Create => changing::create(alloc, disk, case),
        Question::Write => changing::write(alloc, disk, case),
        Question::Sync => changing::sync(alloc, disk, case),
        Question::Rename => changing::rename(alloc, disk, case),
        Question::Remove => changing::remove(alloc, disk, case),
        Question::SyncDir => changing::sync_dir(alloc, disk, case),
        Question::Exchange => exchanging::exchange(alloc, disk, case),
    }
}

fn main(rt: HostRuntime) -> Result<ExitCode, Error> {
    run(&rt, &Host { rt: &rt })
}
