//! Why a preview ends early.

ghost use Rattle.std.specs.Prelude.{◌≡◌};
ghost use Rattle.sd_io.specs.declared.fault.DiskFault.TheVariants as disk;
ghost use Rattle.named_files.specs.declared.fault.PreviewFault.TheVariants as preview;
ghost use Rattle.named_files.specs.Preview.{as_preview};

use sd_base::{NoMemory, Text};
use sd_io::{DiskFault, Failed};
use std::fmt;
use thiserror::Error;

/// Why a preview ends early. Nothing on the disk has changed.
#[derive(Drop, Error)]
pub enum PreviewFault {
    /// The disk or the sink failed, and counted it; or no regular file stands at a path.
    #[error("{0}")]
    File(DiskFault),
    /// The path names no file: it is empty, or nothing but `/`.
    #[error("file doesn't have parent path: {}", .0.as_str())]
    InvalidPath(Text),
    /// There is no memory left.
    #[error("out of memory")]
    NoMemory,
}

/// A fault shows as its text.
impl fmt::Debug for PreviewFault {
    fn fmt<W: fmt::Write>(&self, f: &mut fmt::Formatter<W>) -> fmt::Result {
        write!(f, "{self}")
    }
}

impl From<DiskFault> for PreviewFault {
    ghost from_gives = { λ fault e. e ≡ as_preview fault };

    fn from(fault: DiskFault) -> PreviewFault {
        match fault {
            DiskFault::NoMemory => PreviewFault::NoMemory,
            _ => PreviewFault::File(fault),
        }
    }
}

impl From<NoMemory> for PreviewFault {
    ghost from_gives = { λ _ e. e ≡ preview.NoMemory };

    fn from(_error: NoMemory) -> PreviewFault {
        PreviewFault::NoMemory
    }
}

impl From<Failed> for PreviewFault {
    ghost from_gives = { λ _ e. e ≡ preview.File disk.Failed };

    fn from(_error: Failed) -> PreviewFault {
        PreviewFault::File(DiskFault::Failed)
    }
}
