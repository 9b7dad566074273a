//! `sd`: search and replace in whole directory trees.
#![tactic(auto)]

use host_io::{HostDisk, HostSink, HostSource};
use sd_base::{NoMemory, Words};
use sd_core::run;
use std::process::ExitCode;
use std::{env, io};

fn main(rt: HostRuntime) -> ExitCode {
    let words = match words(&rt) {
        Ok(words) => words,
        Err(error) => {
            let _printed = eprintln!(rt; "error: {error}");
            return ExitCode::FAILURE;
        }
    };
    let alloc = rt.alloc();
    let mut input = HostSource::new(rt.stdin());
    let mut out = HostSink::new(rt.stdout());
    let mut err = HostSink::new(rt.stderr());
    let mut disk = HostDisk::new(rt);
    let ended = run(alloc, &words, &mut disk, &mut input, &mut out, &mut err);
    ExitCode::from(ended.status)
}

/// The words after the program's name. Refuses where one isn't UTF-8, and for want of memory.
fn words(rt: &HostRuntime) -> io::Result<Words> {
    let mut words = Words::new(rt.alloc());
    for word in env::args(rt)?.skip(1) {
        match words.push(word.as_str()) {
            Ok(()) => {}
            Err(NoMemory) => return Err(io::Error::from(io::ErrorKind::OutOfMemory)),
        }
    }
    Ok(words)
}
