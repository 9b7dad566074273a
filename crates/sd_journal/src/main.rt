//! `sd_journal`: search and replace in a whole directory tree, all of it or nothing.
#![tactic(auto)]

mod asking;
mod commands;
mod ended;
mod error;
mod printing;
mod running;
mod sweeping;

use crate::running::run_journal;
use host_io::{HostDisk, HostSink};
use sd_base::{NoMemory, Words};
use std::process::ExitCode;
use std::{env, io};

fn main(rt: HostRuntime) -> ExitCode {
    let words = match words(&rt) {
        Ok(words) => words,
        Err(error) => {
            let _printed = eprintln!(rt; "error: {error}");
            return ExitCode::FAILURE;
        }
    };
    let alloc = rt.alloc();
    let mut out = HostSink::new(rt.stdout());
    let mut err = HostSink::new(rt.stderr());
    let mut disk = HostDisk::new(rt);
    let ended = run_journal(alloc, &words, &mut disk, &mut out, &mut err);
    ExitCode::from(ended.status)
}

/// The words after the program's name. Refuses where one isn't UTF-8, and for want of memory.
fn words(rt: &HostRuntime) -> io::Result<Words> {
    let mut words = Words::new(rt.alloc());
    for word in env::args(rt)?.skip(1) {
        match words.push(word.as_str()) {
            Ok(()) => {}
            Err(NoMemory) => return Err(io::Error::from(io::ErrorKind::OutOfMemory)),
        }
    }
    Ok(words)
}
