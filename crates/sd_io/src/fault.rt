//! Why a call on the outside is refused.

ghost use Rattle.sd_io.specs.declared.fault.DiskFault.TheVariants as disk;
ghost use Rattle.std.specs.Prelude.{◌≡◌};

use sd_base::NoMemory;
use std::alloc::{AllocError, AllocFailed};
use thiserror::Error;

/// A stream refuses.
#[derive(Clone, Copy, Debug, PartialEq, Eq, Error)]
#[error("input or output failed")]
pub struct Failed;

/// Why a disk refuses a call.
#[derive(Clone, Copy, Debug, PartialEq, Eq, Error)]
pub enum DiskFault {
    /// Nothing stands at the path that the call can work on.
    #[error("no such file or directory")]
    Absent,
    /// Something stands at the path where a new file is to stand.
    #[error("already exists")]
    Taken,
    /// The disk failed, and counted it.
    #[error("input or output failed")]
    Failed,
    /// There is no memory left.
    #[error("out of memory")]
    NoMemory,
}

impl From<NoMemory> for DiskFault {
    ghost from_gives = { λ _ fault. fault ≡ disk.NoMemory };

    fn from(_error: NoMemory) -> DiskFault {
        DiskFault::NoMemory
    }
}

impl From<AllocError> for DiskFault {
    ghost from_gives = { λ _ fault. fault ≡ disk.NoMemory };

    fn from(_error: AllocError) -> DiskFault {
        DiskFault::NoMemory
    }
}

impl<T: Drop> From<AllocFailed<T>> for DiskFault {
    ghost from_gives = { λ _ fault. fault ≡ disk.NoMemory };

    fn from(_error: AllocFailed<T>) -> DiskFault {
        DiskFault::NoMemory
    }
}
