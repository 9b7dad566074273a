//! Why a command fails.

ghost use Rattle.std.specs.Prelude.{◌≡◌};
ghost use Rattle.sd_core.specs.Errors as form;
ghost use Rattle.sd_core.specs.declared.error.Error.TheVariants as error;

use chosen_files::ChoiceFault;
use many_files::{FailedJobs, FilesFault};
use named_files::PreviewFault;
use planned_files::ApplyFault;
use sd_base::{NoMemory, Text};
use sd_ignore::IgnoreFault;
use sd_io::DiskFault;
use sd_plan::{Digest, PlanFault};
use sd_replace::{InvalidReplaceCapture, ReplacerFault};
use std::fmt;
use stream_rewrite::StreamFault;
use thiserror::Error;

/// Why a command fails.
#[derive(Drop, Error)]
pub enum Error {
    /// No matcher is built of the text to find.
    #[error("invalid regex {0}")]
    Regex(grep_regex::Error),
    /// The disk or a stream failed, and counted it; or no regular file stands at a path.
    #[error("{0}")]
    File(DiskFault),
    /// A path names no file: it is empty, or nothing but `/`.
    #[error("file doesn't have parent path: {}", .0.as_str())]
    InvalidPath(Text),
    /// These files could not be processed. All others are rewritten.
    #[error("failed processing files:\n\t{0}")]
    FailedProcessing(FailedJobs),
    /// A numbered reference of the replacement text is ambiguous.
    #[error("{0}")]
    InvalidReplaceCapture(InvalidReplaceCapture),
    /// The glob at this place among the globs, counted from 0, is the first that is invalid.
    #[error("invalid glob at place {0}")]
    BadGlob(usize),
    /// The root leads to no node.
    #[error("the root leads to nothing")]
    RootMissing,
    /// The walk of the tree met a failure of the disk, which counted it.
    #[error("{0}")]
    Walk(walkdir::Error),
    /// As many entries lie below the root as the cap, or more: 2^32 in the program.
    #[error("too many entries")]
    TooMany,
    /// More than 2^40 bytes were left in the input.
    #[error("input too long")]
    InputTooLong,
    /// The file at this path of a plan isn't what it was when the plan was made. Nothing was written.
    #[error("{} has changed since the plan: planned {planned}, found {found}", .path.as_str())]
    Stale {
        /// The path.
        path: Text,
        /// The digest that the plan has of its bytes.
        planned: Digest,
        /// The digest of its bytes.
        found: Digest,
    },
    /// The file at this path of a plan would become something else than was planned. Nothing was written.
    #[error("{} would not become what was planned: planned {planned}, found {found}", .path.as_str())]
    Differs {
        /// The path.
        path: Text,
        /// The digest that the plan has of its new bytes.
        planned: Digest,
        /// The digest of its new bytes.
        found: Digest,
    },
    /// The text of a file is the text of no plan.
    #[error("not a plan")]
    NotAPlan,
    /// The bytes of a rules file aren't UTF-8. Nothing was written.
    #[error("the rules are not UTF-8 text")]
    RulesNotText,
    /// The line of a rules file with this number, counted from 1, is the first that is bad. Nothing was written.
    #[error("invalid rule in line {0}")]
    BadRule(u64),
    /// There is no memory left.
    #[error("out of memory")]
    NoMemory,
}

/// What a call answers that can fail so.
pub type Result<T, E = Error> = std::result::Result<T, E>;

/// An error shows as its text.
impl fmt::Debug for Error {
    fn fmt<W: fmt::Write>(&self, f: &mut fmt::Formatter<W>) -> fmt::Result {
        write!(f, "{self}")
    }
}

impl From<NoMemory> for Error {
    ghost from_gives = { λ _ made. made ≡ error.NoMemory };

    fn from(_error: NoMemory) -> Error {
        Error::NoMemory
    }
}

/// The fault of a replacer that isn't made.
pub(crate) fn of_replacer(fault: ReplacerFault) -> Error
    ensures { result ≡ form.of_replacer fault }
{
    match fault {
        ReplacerFault::InvalidReplaceCapture(capture) => Error::InvalidReplaceCapture(capture),
        ReplacerFault::Regex(refused) => Error::Regex(refused),
        ReplacerFault::NoMemory => Error::NoMemory,
    }
}

/// The fault of globs that aren't read, or of a choice of files.
pub(crate) fn of_choice(fault: ChoiceFault) -> Error
    ensures { result ≡ form.of_choice fault }
{
    match fault {
        ChoiceFault::BadGlob(place) => Error::BadGlob(place),
        ChoiceFault::RootMissing => Error::RootMissing,
        ChoiceFault::Walk(failed) => Error::Walk(failed),
        ChoiceFault::TooMany => Error::TooMany,
        ChoiceFault::NoMemory => Error::NoMemory,
    }
}

/// The fault of files that are rewritten.
pub(crate) fn of_files(fault: FilesFault) -> Error
    ensures { result ≡ form.of_files fault }
{
    match fault {
        FilesFault::Failed(jobs) => Error::FailedProcessing(jobs),
        FilesFault::NoMemory => Error::NoMemory,
    }
}

/// The fault of a stream.
pub(crate) fn of_stream(fault: StreamFault) -> Error
    ensures { result ≡ form.of_stream fault }
{
    match fault {
        StreamFault::Failed => Error::File(DiskFault::Failed),
        StreamFault::InputTooLong => Error::InputTooLong,
        StreamFault::NoMemory => Error::NoMemory,
    }
}

/// The fault of a preview.
pub(crate) fn of_preview(fault: PreviewFault) -> Error
    ensures { result ≡ form.of_preview fault }
{
    match fault {
        PreviewFault::File(fault) => Error::File(fault),
        PreviewFault::InvalidPath(path) => Error::InvalidPath(path),
        PreviewFault::NoMemory => Error::NoMemory,
    }
}

/// The fault of a file that isn't read.
pub(crate) fn of_disk(fault: DiskFault) -> Error
    ensures { result ≡ form.of_disk fault }
{
    match fault {
        DiskFault::NoMemory => Error::NoMemory,
        fault => Error::File(fault),
    }
}

/// The fault of a text that is no plan.
pub(crate) fn of_plan(fault: PlanFault) -> Error
    ensures { result ≡ form.of_plan fault }
{
    match fault {
        PlanFault::NotAPlan => Error::NotAPlan,
        PlanFault::NoMemory => Error::NoMemory,
    }
}

/// The fault of a plan that is applied.
pub(crate) fn of_apply(fault: ApplyFault) -> Error
    ensures { result ≡ form.of_apply fault }
{
    match fault {
        ApplyFault::File(fault) => Error::File(fault),
        ApplyFault::Stale {
            path,
            planned,
            found,
        } => Error::Stale {
            path,
            planned,
            found,
        },
        ApplyFault::Differs {
            path,
            planned,
            found,
        } => Error::Differs {
            path,
            planned,
            found,
        },
        ApplyFault::Failed(jobs) => Error::FailedProcessing(jobs),
        ApplyFault::NoMemory => Error::NoMemory,
    }
}

/// The fault of a text that has no rules.
pub(crate) fn of_ignore(fault: IgnoreFault) -> Error
    ensures { result ≡ form.of_ignore fault }
{
    match fault {
        IgnoreFault::BadRule(number) => Error::BadRule(number),
        IgnoreFault::NoMemory => Error::NoMemory,
    }
}
