//! The app that the program is made of, by itself.

use crate::disks::{DIGIT, ONE, TWO_FILES, filled, holds};
use crate::running::{Streams, has_written, listed, one_by_1, streams_of};
use mem_io::MemDisk;
use sd_core::{App, AppSource};
use sd_replace::ReplacerFault;
use std::alloc::Global;
use std::process::Abort;
use std::test::Fail;

/// What an app works on, whether it previews, what it writes, and what `/t/b.md` holds then.
#[derive(Clone, Copy)]
struct Job {
    file: Option<&'static str>,
    preview: bool,
    written: &'static [u8],
    held: &'static [u8],
}

/// The file at this path, or standard input.
fn source_of(alloc: Global, file: Option<&str>) -> Result<AppSource, Fail> {
    match file {
        None => Ok(AppSource::Stdin),
        Some(path) => Ok(AppSource::Files(listed(alloc, &[path])?)),
    }
}

/// The app that replaces `one` by `1` in a source.
fn app_on(alloc: Global, source: AppSource) -> Result<App, ReplacerFault> {
    let replacer = one_by_1(alloc)?;
    Ok(App::new(source, replacer))
}

/// Runs an app, and gives whether that goes without a fault.
fn is_done(
    alloc: Global,
    app: &App,
    preview: bool,
    disk: &mut MemDisk,
    streams: &mut Streams,
) -> bool {
    let answer = app.run(alloc, preview, disk, &mut streams.input, &mut streams.out);
    answer.is_ok()
}

/// The same with the app of a job made.
fn is_run(
    alloc: Global,
    job: &Job,
    disk: &mut MemDisk,
    streams: &mut Streams,
) -> Result<bool, Fail> {
    let app = app_on(alloc, source_of(alloc, job.file)?)?;
    let is_done = is_done(alloc, &app, job.preview, disk, streams);
    drop(app);
    Ok(is_done)
}

/// Whether a job is done on a disk, and what is written is as it is to be.
fn is_written(
    alloc: Global,
    job: &Job,
    disk: &mut MemDisk,
    streams: &mut Streams,
) -> Result<bool, Fail> {
    let is_run = is_run(alloc, job, disk, streams)?;
    Ok(is_run && has_written(&streams.out, job.written))
}

/// The same, with the streams made.
fn is_written_on(alloc: Global, job: &Job, disk: &mut MemDisk) -> Result<bool, Fail> {
    let mut streams = streams_of(alloc, b"no one", 100)?;
    is_written(alloc, job, disk, &mut streams)
}

/// Whether a job is done on a disk, and what is written and held is as it is to be.
fn is_as_told_on(alloc: Global, job: &Job, disk: &mut MemDisk) -> Result<bool, Fail> {
    let is_written = is_written_on(alloc, job, disk)?;
    Ok(is_written && holds(alloc, disk, "/t/b.md", job.held)?)
}

/// The same on the two files.
fn is_as_told(alloc: Global, job: &Job) -> Result<bool, Fail> {
    let mut disk = filled(alloc, TWO_FILES)?;
    is_as_told_on(alloc, job, &mut disk)
}

const JOBS: &[Job] = &[
    Job {
        file: None,
        preview: false,
        written: b"no 1",
        held: ONE,
    },
    Job {
        file: None,
        preview: true,
        written: b"no 1",
        held: ONE,
    },
    Job {
        file: Some("/t/b.md"),
        preview: true,
        written: b"1\n",
        held: ONE,
    },
    Job {
        file: Some("/t/b.md"),
        preview: false,
        written: b"",
        held: DIGIT,
    },
];

#[test]
fn an_app_replaces_input_or_files(rt: HostRuntime) -> Result<(), Fail> {
    for (number, job) in JOBS.iter().enumerate() {
        assert!(rt; is_as_told(rt.alloc(), job)?, "job {number}");
    }
    Ok(())
}
