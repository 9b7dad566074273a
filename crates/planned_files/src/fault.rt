//! Why a plan isn't applied.

ghost use Rattle.std.specs.Prelude.{◌≡◌};
ghost use Rattle.planned_files.specs.declared.fault.ApplyFault.TheVariants as fault;
ghost use Rattle.planned_files.specs.Faults.{of_disk, of_files};

use many_files::{FailedJobs, FilesFault};
use sd_base::{NoMemory, Text};
use sd_io::DiskFault;
use sd_plan::Digest;
use std::alloc::{AllocError, AllocFailed};
use std::fmt;
use thiserror::Error;

/// Why a plan isn't applied.
#[derive(Drop, Error)]
pub enum ApplyFault {
    /// The disk failed, and counted it; or no regular file stands at the path of a line. Nothing was written.
    #[error("{0}")]
    File(DiskFault),
    /// The bytes of a line's file have another digest than was planned. Nothing was written.
    #[error("{} has changed since the plan: planned {planned}, found {found}", .path.as_str())]
    Stale {
        /// The path of the line.
        path: Text,
        /// The digest that the plan tells of the file's bytes.
        planned: Digest,
        /// The digest of its bytes.
        found: Digest,
    },
    /// The new bytes of a line's file have another digest than was planned. Nothing was written.
    #[error("{} would not become what was planned: planned {planned}, found {found}", .path.as_str())]
    Differs {
        /// The path of the line.
        path: Text,
        /// The digest that the plan tells of the file's new bytes.
        planned: Digest,
        /// The digest of its new bytes.
        found: Digest,
    },
    /// These files could not be processed. All others are rewritten.
    #[error("failed processing files:\n\t{0}")]
    Failed(FailedJobs),
    /// There is no memory left. Nothing was written.
    #[error("out of memory")]
    NoMemory,
}

/// A fault shows as its text.
impl fmt::Debug for ApplyFault {
    fn fmt<W: fmt::Write>(&self, f: &mut fmt::Formatter<W>) -> fmt::Result {
        write!(f, "{self}")
    }
}

impl From<DiskFault> for ApplyFault {
    ghost from_gives = { λ failed e. e ≡ of_disk failed };

    fn from(failed: DiskFault) -> ApplyFault {
        match failed {
            DiskFault::NoMemory => ApplyFault::NoMemory,
            _ => ApplyFault::File(failed),
        }
    }
}

impl From<NoMemory> for ApplyFault {
    ghost from_gives = { λ _ e. e ≡ fault.NoMemory };

    fn from(_error: NoMemory) -> ApplyFault {
        ApplyFault::NoMemory
    }
}

impl From<AllocError> for ApplyFault {
    ghost from_gives = { λ _ e. e ≡ fault.NoMemory };

    fn from(_error: AllocError) -> ApplyFault {
        ApplyFault::NoMemory
    }
}

impl<T: Drop> From<AllocFailed<T>> for ApplyFault {
    ghost from_gives = { λ _ e. e ≡ fault.NoMemory };

    fn from(_error: AllocFailed<T>) -> ApplyFault {
        ApplyFault::NoMemory
    }
}

impl From<FilesFault> for ApplyFault {
    ghost from_gives = { λ failed e. e ≡ of_files failed };

    fn from(failed: FilesFault) -> ApplyFault {
        match failed {
            FilesFault::Failed(jobs) => ApplyFault::Failed(jobs),
            FilesFault::NoMemory => ApplyFault::NoMemory,
        }
    }
}
