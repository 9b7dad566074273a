//! Why a text is refused as a pattern.

ghost use Rattle.std.specs.Prelude.{◌≡◌};
ghost use Rattle.pattern_core.specs.declared.fault.PatternFault.TheVariants as pattern;

use sd_base::NoMemory;
use std::alloc::{AllocError, AllocFailed};
use thiserror::Error;

/// Why a text is refused as a pattern, in the order of testing.
#[derive(Clone, Copy, Debug, PartialEq, Eq, Error)]
pub enum PatternFault {
    /// The grammar reads nothing in the text.
    #[error("regex parse error")]
    Grammar,
    /// The pattern nests deeper than its limit.
    #[error("regex nests too deep")]
    Nest,
    /// Two groups have one name.
    #[error("duplicate group name")]
    DoubleName,
    /// There is no memory left.
    #[error("out of memory")]
    NoMemory,
}

impl From<NoMemory> for PatternFault {
    ghost from_gives = { λ _ fault. fault ≡ pattern.NoMemory };

    fn from(_error: NoMemory) -> PatternFault {
        PatternFault::NoMemory
    }
}

impl From<AllocError> for PatternFault {
    ghost from_gives = { λ _ fault. fault ≡ pattern.NoMemory };

    fn from(_error: AllocError) -> PatternFault {
        PatternFault::NoMemory
    }
}

impl<T: Drop> From<AllocFailed<T>> for PatternFault {
    ghost from_gives = { λ _ fault. fault ≡ pattern.NoMemory };

    fn from(_error: AllocFailed<T>) -> PatternFault {
        PatternFault::NoMemory
    }
}
