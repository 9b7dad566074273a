//! Why one file isn't rewritten.

ghost use Rattle.std.specs.Prelude.{◌≡◌};
ghost use Rattle.file_rewrite.specs.declared.fault.JobFault.TheVariants as job;
ghost use Rattle.file_rewrite.specs.Faults.{as_job, as_exchange_job};

use file_exchange::ExchangeFault;
use sd_base::NoMemory;
use sd_io::DiskFault;
use thiserror::Error;

/// Why one file isn't rewritten.
#[derive(Clone, Copy, Debug, PartialEq, Eq, Error)]
pub enum JobFault {
    /// The disk failed, and counted it; or no regular file stands at the path. The file is old.
    #[error("{0}")]
    File(DiskFault),
    /// The new file wasn't put in the file's place, or that not on the medium. The file is old or new.
    #[error("failed to move file: {0}")]
    TempfilePersist(DiskFault),
    /// The path names no file: it is empty, or nothing but `/`. The disk wasn't called.
    #[error("file doesn't have parent path")]
    InvalidPath,
    /// Each reserved name of the file's folder is taken. The file is old.
    #[error("no free temporary name")]
    TempName,
    /// There is no memory left. The file is old or new.
    #[error("out of memory")]
    NoMemory,
}

/// Of a step before the file's move.
impl From<DiskFault> for JobFault {
    ghost from_gives = { λ fault e. e ≡ as_job fault };

    fn from(fault: DiskFault) -> JobFault {
        match fault {
            DiskFault::NoMemory => JobFault::NoMemory,
            _ => JobFault::File(fault),
        }
    }
}

impl From<NoMemory> for JobFault {
    ghost from_gives = { λ _ e. e ≡ job.NoMemory };

    fn from(_error: NoMemory) -> JobFault {
        JobFault::NoMemory
    }
}

impl From<ExchangeFault> for JobFault {
    ghost from_gives = { λ fault e. e ≡ as_exchange_job fault };

    fn from(fault: ExchangeFault) -> JobFault {
        match fault {
            ExchangeFault::NoName => JobFault::TempName,
            ExchangeFault::Disk(fault) => JobFault::from(fault),
            ExchangeFault::Move(fault) => JobFault::TempfilePersist(fault),
        }
    }
}
