//! Goes through tables of commands: the tree that each works on, its words, and what it shows and leaves.
//!
//! The parts of a section are the tree that each of its cases begins with: `dir PATH`, `file PATH MODE BYTES`, `link PATH TARGET`,
//! `other PATH`; `deep COUNT NAME` is so many folders of that name, each in the one before it; `times COUNT PART ..` is a part so many
//! times, with the number of each, to base sixteen in four digits, for `#` in its path.
//!
//! A case of `run` is the words of a command, parted by spaces; `%none` is no word. Its parts say what is given, shown and left; a setting
//! of the section may stand for each that has one field:
//!
//! - `input BYTES` is on standard input, in pieces of seven bytes, or of as many as a further field says; the read whose number
//!   one more field says fails. Without an input a read of it fails, and the case with it. `many COUNT TEXT` is an input of that text so
//!   many times, which is wanted again on standard output;
//! - `room COUNT` and `err_room COUNT` are how many bytes can be printed to each output, 1000 without them;
//! - `fail CALL` and `stop CALL` name calls of the disk, from 1 on; `fail last` the last one of the command;
//! - `status NUMBER`, `cause NAME`, `out BYTES`, `err BYTES` are what is wanted: `0`, `Done` and no bytes where they aren't there;
//! - `carries TEXT` is what the error carries, `unwritten COUNT` how many writes to standard output fail;
//! - `calls COUNT` is how many calls of the disk there are at most, `lists COUNT` how many lists are open at once at most, 10 without it.
//!   One call fails where one is to fail, and none without `fail` and `stop`;
//! - `then WORDS BYTES` are words that are run on the same disk after that, and what they print;
//! - `file PATH MODE BYTES` is a file as it is left, `gone PATH` says that no file is there. All other files of the tree are to be left as
//!   they were. `order PATH ..` are files that are rewritten one after the other.
//!
//! A case of `prints` ends with what its words print, one of `refuses` with the error that is shown, in place of that part. One of
//! `replaces` ends with its input and what is printed of it.
//!
//! A case of `fails` is run with each of its calls failing in turn. Each time the status is 1, one call fails, and no more than one job.
//! `least COUNT` is how many calls there are at least, `causes NAME ..` are the causes that there may be, `err BYTES` is what is shown
//! where that is given, and what is printed is a beginning of `out BYTES`. A file `new PATH BYTES` is old or has those bytes: where a job
//! failed `rewritten COUNT` of them have theirs at least, and else all are old; `gone PATH` is as above, and all other files are as they were.
//!
//! A case of `help` is words that show a help with each part `has TEXT`. The other kinds are calls that the program is made of: `calls.rt`
//! tells of `calls`, and `choosing.rt` of `chosen`, `globs` and `capped`. A case of `text` is the name of an error, and its text.
#![tactic(auto)]

mod asked;
mod calls;
mod choosing;
mod ending;
mod failing;
mod help;
mod images;
mod left;
mod plain;
mod running;
mod shown;
mod tree;

use anyhow::Error;
use case_reader::{Answers, Case, kind_of, run};
use shown::Wanted;
use std::alloc::Global;
use std::process::ExitCode;

/// An answer to a case: bytes, or nothing.
type Answer = Result<Option<Vec<u8>>, Error>;

/// What the program does.
struct Program;

impl Answers for Program {
    fn answer(&self, alloc: Global, case: &Case<'_>) -> Answer {
        match kind_of(case, case.inputs(), KINDS)? {
            Kind::Run(wanted) => shown::answer(alloc, case, wanted),
            Kind::Fails => answered(alloc, failing::difference(alloc, case)?),
            Kind::Help => answered(alloc, help::difference(alloc, case)?),
            Kind::Calls => answered(alloc, calls::difference(alloc, case)?),
            Kind::Chosen => answered(alloc, choosing::chosen_otherwise(alloc, case)?),
            Kind::Globs => choosing::globs(alloc, case),
            Kind::Capped => choosing::capped(alloc, case),
            Kind::Text => ending::text(alloc, case),
        }
    }
}

/// What is asked of a case.
#[derive(Clone, Copy)]
enum Kind {
    Run(Wanted),
    Fails,
    Help,
    Calls,
    Chosen,
    Globs,
    Capped,
    Text,
}

/// The kinds, each with its name, and how many fields a case has at least and at most.
const KINDS: &[(&str, usize, usize, Kind)] = &[
    ("run", 1, 1, Kind::Run(Wanted::All)),
    ("prints", 1, 1, Kind::Run(Wanted::Out)),
    ("replaces", 2, 2, Kind::Run(Wanted::Out)),
    ("refuses", 1, 1, Kind::Run(Wanted::Err)),
    ("fails", 1, 1, Kind::Fails),
    ("help", 1, 1, Kind::Help),
    ("calls", 1, 1, Kind::Calls),
    ("chosen", 2, 100, Kind::Chosen),
    ("globs", 1, 1, Kind::Globs),
    ("capped", 2, 2, Kind::Capped),
    ("text", 1, 1, Kind::Text),
];

/// `yes`, or what differs.
fn answered(alloc: Global, difference: Option<Vec<u8>>) -> Answer {
    match difference {
        None => Ok(Some("yes".as_bytes().to_vec(alloc)?)),
        Some(found) => Ok(Some(found)),
    }
}

fn main(rt: HostRuntime) -> Result<ExitCode, Error> {
    run(&rt, &Program)
}
