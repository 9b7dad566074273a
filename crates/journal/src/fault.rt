//! Why a journalled change isn't made, or isn't recovered.

ghost use Rattle.std.specs.Prelude.{◌≡◌};
ghost use Rattle.journal.specs.declared.fault.JournalFault.TheVariants as fault;
ghost use Rattle.journal.specs.Faults.{of_disk, of_text};

use file_rewrite::JobFault;
use journal_text::JournalTextFault;
use sd_base::{NoMemory, Text};
use sd_io::DiskFault;
use sd_plan::Digest;
use std::fmt;
use thiserror::Error;

/// Why a journalled change isn't made, or isn't recovered.
#[derive(Drop, Error)]
pub enum JournalFault {
    /// The root leads to no node. Nothing was written.
    #[error("the root leads to nothing")]
    RootMissing,
    /// The disk failed, and counted it, before the journal got its name, or before a recovery wrote.
    #[error("{0}")]
    File(DiskFault),
    /// A journal stands in the root. Nothing was written.
    #[error("a journal is pending")]
    Pending,
    /// Each reserved name of this folder is taken. The journal didn't get its name.
    #[error("{}: no free temporary name", .0.as_str())]
    TempName(Text),
    /// The change is to be recovered: this hindered it when the journal got its name, or later.
    #[error("unfinished: {0}")]
    Unfinished(JobFault),
    /// What stands in the journal's place is no regular file with the text of a journal. Nothing was written.
    #[error("not a journal")]
    BadJournal,
    /// No regular file stands at the stage of the file at this path. Nothing was written.
    #[error("{}: no stage", .0.as_str())]
    StageMissing(Text),
    /// The stage of the file at this path has another digest than its line tells. Nothing was written.
    #[error("{}: stage differs: planned {planned}, found {found}", .path.as_str())]
    StageDiffers {
        path: Text,
        planned: Digest,
        found: Digest,
    },
    /// There is no memory left. The journal didn't get its name; a recovery didn't write.
    #[error("out of memory")]
    NoMemory,
}

/// A fault shows as its text.
impl fmt::Debug for JournalFault {
    fn fmt<W: fmt::Write>(&self, f: &mut fmt::Formatter<W>) -> fmt::Result {
        write!(f, "{self}")
    }
}

impl From<NoMemory> for JournalFault {
    ghost from_gives = { λ _ e. e ≡ fault.NoMemory };

    fn from(_error: NoMemory) -> JournalFault {
        JournalFault::NoMemory
    }
}

/// Of a step before the journal gets its name, or before a recovery writes.
impl From<DiskFault> for JournalFault {
    ghost from_gives = { λ refused e. e ≡ of_disk refused };

    fn from(refused: DiskFault) -> JournalFault {
        match refused {
            DiskFault::NoMemory => JournalFault::NoMemory,
            _ => JournalFault::File(refused),
        }
    }
}

impl From<JournalTextFault> for JournalFault {
    ghost from_gives = { λ refused e. e ≡ of_text refused };

    fn from(refused: JournalTextFault) -> JournalFault {
        match refused {
            JournalTextFault::NotAJournal => JournalFault::BadJournal,
            JournalTextFault::NoMemory => JournalFault::NoMemory,
        }
    }
}
