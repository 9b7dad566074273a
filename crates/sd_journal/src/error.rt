//! Why a journalled sweep isn't made, or isn't recovered.

ghost use Rattle.std.specs.Prelude.{◌≡◌};
ghost use Rattle.sd_journal.specs.Errors as form;
ghost use Rattle.sd_journal.specs.declared.error.JournalError.TheVariants as error;

use file_rewrite::JobFault;
use journal::JournalFault;
use sd_base::{NoMemory, Text};
use sd_core::Error as SweepError;
use sd_plan::Digest;
use std::fmt;
use thiserror::Error;

/// Why a journalled sweep isn't made, or isn't recovered.
#[derive(Drop, Error)]
pub enum JournalError {
    /// A sweep would be refused so, or the disk failed before the journal got its name. No file was changed.
    #[error("{0}")]
    Sweep(SweepError),
    /// A journal stands in the root. Nothing was written.
    #[error("a journal is pending")]
    Pending,
    /// Each reserved name of this folder is taken. No file was changed.
    #[error("{}: no free temporary name", .0.as_str())]
    TempName(Text),
    /// The sweep is to be recovered: this hindered it when the journal got its name, or later.
    #[error("unfinished: {0}")]
    Unfinished(JobFault),
    /// What stands in the journal's place is no regular file with the text of a journal. Nothing was written.
    #[error("not a journal")]
    BadJournal,
    /// No regular file stands at the stage of the file at this path. Nothing was written.
    #[error("{}: no stage", .0.as_str())]
    StageMissing(Text),
    /// The stage of the file at this path has another digest than its line tells. Nothing was written.
    #[error("{}: stage differs: planned {planned}, found {found}", .path.as_str())]
    StageDiffers {
        /// The path of the file.
        path: Text,
        /// The digest that its line tells.
        planned: Digest,
        /// The digest of what stands at the stage.
        found: Digest,
    },
    /// There is no memory left. No file was changed.
    #[error("out of memory")]
    NoMemory,
}

/// An error shows as its text.
impl fmt::Debug for JournalError {
    fn fmt<W: fmt::Write>(&self, f: &mut fmt::Formatter<W>) -> fmt::Result {
        write!(f, "{self}")
    }
}

impl From<NoMemory> for JournalError {
    ghost from_gives = { λ _ e. e ≡ error.NoMemory };

    fn from(_error: NoMemory) -> JournalError {
        JournalError::NoMemory
    }
}

/// The error of a sweep that isn't planned. Want of memory is an answer of its own.
pub fn of_sweep(refused: SweepError) -> JournalError
    ensures { result ≡ form.of_sweep refused }
{
    match refused {
        SweepError::NoMemory => JournalError::NoMemory,
        refused => JournalError::Sweep(refused),
    }
}

/// The error of a change that isn't made, or isn't recovered. What a sweep could answer too is told as its error.
pub fn of_change(fault: JournalFault) -> JournalError
    ensures { result ≡ form.of_change fault }
{
    match fault {
        JournalFault::RootMissing => JournalError::Sweep(SweepError::RootMissing),
        JournalFault::File(refused) => JournalError::Sweep(SweepError::File(refused)),
        JournalFault::Pending => JournalError::Pending,
        JournalFault::TempName(folder) => JournalError::TempName(folder),
        JournalFault::Unfinished(job) => JournalError::Unfinished(job),
        JournalFault::BadJournal => JournalError::BadJournal,
        JournalFault::StageMissing(path) => JournalError::StageMissing(path),
        JournalFault::StageDiffers {
            path,
            planned,
            found,
        } => JournalError::StageDiffers {
            path,
            planned,
            found,
        },
        JournalFault::NoMemory => JournalError::NoMemory,
    }
}
