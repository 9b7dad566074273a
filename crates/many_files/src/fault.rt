//! Why not all files are rewritten.

ghost use Rattle.std.specs.Prelude.{◌≡◌};
ghost use Rattle.many_files.specs.declared.fault.FilesFault.TheVariants as fault;

use crate::FailedJobs;
use sd_base::NoMemory;
use std::fmt;
use thiserror::Error;

/// Why not all files are rewritten.
#[derive(Drop, Error)]
pub enum FilesFault {
    /// These files could not be processed. All others are rewritten.
    #[error("failed processing files:\n\t{0}")]
    Failed(FailedJobs),
    /// There is no memory left. Nothing was written.
    #[error("out of memory")]
    NoMemory,
}

/// A fault shows as its text.
impl fmt::Debug for FilesFault {
    fn fmt<W: fmt::Write>(&self, f: &mut fmt::Formatter<W>) -> fmt::Result {
        write!(f, "{self}")
    }
}

impl From<NoMemory> for FilesFault {
    ghost from_gives = { λ _ e. e ≡ fault.NoMemory };

    fn from(_error: NoMemory) -> FilesFault {
        FilesFault::NoMemory
    }
}
