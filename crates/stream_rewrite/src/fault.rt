//! Why a stream isn't replaced.

ghost use Rattle.std.specs.Prelude.{◌≡◌};
ghost use Rattle.stream_rewrite.specs.declared.fault.StreamFault.TheVariants as stream;

use sd_base::NoMemory;
use sd_io::Failed;
use std::alloc::AllocError;
use thiserror::Error;

/// Why a stream isn't replaced.
#[derive(Clone, Copy, Debug, PartialEq, Eq, Error)]
pub enum StreamFault {
    /// The source failed before the first write, or the sink after a prefix of the new bytes. It was counted.
    #[error("input or output failed")]
    Failed,
    /// More bytes than the cap were left in the source. Nothing was written.
    #[error("input too long")]
    InputTooLong,
    /// There is no memory left. Nothing was written.
    #[error("out of memory")]
    NoMemory,
}

impl From<Failed> for StreamFault {
    ghost from_gives = { λ _ e. e ≡ stream.Failed };

    fn from(_fault: Failed) -> StreamFault {
        StreamFault::Failed
    }
}

impl From<NoMemory> for StreamFault {
    ghost from_gives = { λ _ e. e ≡ stream.NoMemory };

    fn from(_fault: NoMemory) -> StreamFault {
        StreamFault::NoMemory
    }
}

impl From<AllocError> for StreamFault {
    ghost from_gives = { λ _ e. e ≡ stream.NoMemory };

    fn from(_fault: AllocError) -> StreamFault {
        StreamFault::NoMemory
    }
}
