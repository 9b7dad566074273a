//! Why a disk in memory can't be built as asked.

ghost use Rattle.mem_io.specs.declared.fault.BuildFault.TheVariants as build;
ghost use Rattle.std.specs.Prelude.{◌≡◌};

use sd_io::NoMemory;
use std::alloc::{AllocError, AllocFailed};
use thiserror::Error;

/// Why a disk in memory can't be built as asked. Nothing was changed.
#[derive(Clone, Copy, Debug, PartialEq, Eq, Error)]
pub enum BuildFault {
    /// The parent is no directory, the name is taken, or the path holds `..` or no name.
    #[error("no place for a new node")]
    BadPath,
    /// There is no memory left.
    #[error("out of memory")]
    NoMemory,
}

impl From<NoMemory> for BuildFault {
    ghost from_gives = { λ _ fault. fault ≡ build.NoMemory };

    fn from(_error: NoMemory) -> BuildFault {
        BuildFault::NoMemory
    }
}

impl From<AllocError> for BuildFault {
    ghost from_gives = { λ _ fault. fault ≡ build.NoMemory };

    fn from(_error: AllocError) -> BuildFault {
        BuildFault::NoMemory
    }
}

impl<T: Drop> From<AllocFailed<T>> for BuildFault {
    ghost from_gives = { λ _ fault. fault ≡ build.NoMemory };

    fn from(_error: AllocFailed<T>) -> BuildFault {
        BuildFault::NoMemory
    }
}
