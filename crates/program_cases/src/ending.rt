//! How a run of the program ended.

use anyhow::Error;
use case_reader::{Case, CaseFault};
use sd_core::{Ended, Error as Fault, JobFault, Why};
use sd_io::DiskFault;
use std::alloc::{AllocError, Global};

/// How a run ended: its status, the name of its cause, how many jobs failed where that ended it, and what its error carries.
#[derive(Drop)]
pub struct Ending {
    pub status: u8,
    pub cause: &'static str,
    pub jobs: usize,
    pub carried: String,
}

/// How a run ended.
pub fn ending_of(alloc: Global, ended: &Ended) -> Result<Ending, Error> {
    let carried = carried_of(alloc, &ended.why)?;
    Ok(Ending {
        status: ended.status,
        cause: cause_of(&ended.why),
        jobs: jobs_of(&ended.why),
        carried,
    })
}

/// How many jobs failed, where that ended a run.
fn jobs_of(why: &Why) -> usize {
    match why {
        Why::Fault(Fault::FailedProcessing(jobs)) => jobs.len(),
        _ => 0,
    }
}

/// What an error carries: a text with the place and the digits of a name in it, the path and the fault of its only job, a path with
/// two digests, or a path.
fn carried_of(alloc: Global, why: &Why) -> Result<String, Error> {
    match why {
        Why::Fault(Fault::InvalidReplaceCapture(capture)) => {
            let text = capture.original.as_str();
            let (start, end, digits) = (capture.start, capture.end, capture.digits);
            Ok(format!(in alloc; "{text} {start} {end} {digits}")?)
        }
        Why::Fault(Fault::FailedProcessing(jobs)) if jobs.len() == 1 => {
            let (path, fault) = jobs.get(0);
            Ok(format!(in alloc; "{path} {}", job_name(fault))?)
        }
        Why::Fault(
            Fault::Stale {
                path,
                planned,
                found,
            }
            | Fault::Differs {
                path,
                planned,
                found,
            },
        ) => Ok(format!(in alloc; "{} {planned} {found}", path.as_str())?),
        Why::Fault(Fault::InvalidPath(path)) => Ok(format!(in alloc; "{}", path.as_str())?),
        _ => Ok(String::new(alloc)),
    }
}

/// The name of why a job failed.
fn job_name(fault: &JobFault) -> &'static str {
    match fault {
        JobFault::File(DiskFault::Absent) => "Absent",
        JobFault::InvalidPath => "InvalidPath",
        _ => "another fault",
    }
}

/// The name of how a run ended.
fn cause_of(why: &Why) -> &'static str {
    match why {
        Why::Done => "Done",
        Why::Usage => "Usage",
        Why::Print => "Print",
        Why::Fault(fault) => name_of(fault),
    }
}

/// The name of a fault.
fn name_of(fault: &Fault) -> &'static str {
    match fault {
        Fault::Regex(_) => "Regex",
        Fault::File(_) => "File",
        Fault::InvalidPath(_) => "InvalidPath",
        Fault::FailedProcessing(_) => "FailedProcessing",
        Fault::InvalidReplaceCapture(_) => "InvalidReplaceCapture",
        Fault::BadGlob(_) => "BadGlob",
        Fault::RootMissing => "RootMissing",
        Fault::Walk(_) => "Walk",
        Fault::TooMany => "TooMany",
        Fault::InputTooLong => "InputTooLong",
        Fault::Stale { .. } => "Stale",
        Fault::Differs { .. } => "Differs",
        Fault::NotAPlan => "NotAPlan",
        Fault::RulesNotText => "RulesNotText",
        Fault::BadRule(_) => "BadRule",
        Fault::NoMemory => "NoMemory",
    }
}

/// The text of the error with the name that a case has.
pub fn text(alloc: Global, case: &Case<'_>) -> Result<Option<Vec<u8>>, Error> {
    let text = text_named(alloc, case.line().written(0)?)?;
    Ok(Some(text.into_bytes()))
}

/// The text of the error of a name.
fn text_named(alloc: Global, name: &str) -> Result<String, Error> {
    let fault = fault_named(name)?;
    text_of(alloc, &fault)
}

/// The error that needs much input or no memory, and has this name.
fn fault_named(name: &str) -> Result<Fault, CaseFault> {
    match name {
        "TooMany" => Ok(Fault::TooMany),
        "InputTooLong" => Ok(Fault::InputTooLong),
        "NoMemory" => Ok(Fault::NoMemory),
        _ => Err(CaseFault::Word),
    }
}

/// The text of an error. Refuses one that is shown otherwise where it is debugged.
fn text_of(alloc: Global, fault: &Fault) -> Result<String, Error> {
    let shown = format!(in alloc; "{fault}")?;
    if !is_debugged_so(alloc, fault, &shown)? {
        return Err(Error::msg("it is debugged otherwise"));
    }
    Ok(shown)
}

/// Whether an error is debugged as this text.
fn is_debugged_so(alloc: Global, fault: &Fault, shown: &str) -> Result<bool, AllocError> {
    let debugged = format!(in alloc; "{fault:?}")?;
    Ok(debugged.as_str() == shown)
}
