//! Why globs are not read, or no files are chosen.

ghost use Rattle.std.specs.Prelude.{◌≡◌};
ghost use Rattle.chosen_files.specs.declared.fault.ChoiceFault.TheVariants as choice_fault;
ghost use Rattle.chosen_files.specs.Choice.{fault_of};

use sd_io::NoMemory;
use std::alloc::{AllocError, AllocFailed};
use thiserror::Error;
use walkdir::Error as WalkError;

/// Why globs are not read, or the files that are to be worked on are not chosen.
#[derive(Debug, Drop, Error)]
pub enum ChoiceFault {
    /// The glob at this place among the globs, counted from 0, is the first that is invalid. No choice by globs that were read
    /// is refused for it.
    #[error("invalid glob at place {0}")]
    BadGlob(usize),
    /// The root leads to no node.
    #[error("the root leads to nothing")]
    RootMissing,
    /// The walk met a failure of the disk, which counted it.
    #[error("{0}")]
    Walk(WalkError),
    /// As many entries lie below the root as the caller's cap, or more.
    #[error("too many entries")]
    TooMany,
    /// There is no memory left.
    #[error("out of memory")]
    NoMemory,
}

impl From<WalkError> for ChoiceFault {
    ghost from_gives = { λ failed fault. fault ≡ fault_of failed };

    fn from(failed: WalkError) -> ChoiceFault {
        match failed {
            WalkError::NoMemory => ChoiceFault::NoMemory,
            WalkError::TooMany => ChoiceFault::TooMany,
            failed => ChoiceFault::Walk(failed),
        }
    }
}

impl From<NoMemory> for ChoiceFault {
    ghost from_gives = { λ _ fault. fault ≡ choice_fault.NoMemory };

    fn from(_error: NoMemory) -> ChoiceFault {
        ChoiceFault::NoMemory
    }
}

impl From<AllocError> for ChoiceFault {
    ghost from_gives = { λ _ fault. fault ≡ choice_fault.NoMemory };

    fn from(_error: AllocError) -> ChoiceFault {
        ChoiceFault::NoMemory
    }
}

impl<T: Drop> From<AllocFailed<T>> for ChoiceFault {
    ghost from_gives = { λ _ fault. fault ≡ choice_fault.NoMemory };

    fn from(_error: AllocFailed<T>) -> ChoiceFault {
        ChoiceFault::NoMemory
    }
}
