//! Why a file's bytes aren't exchanged.

ghost use Rattle.std.specs.Prelude.{◌≡◌};
ghost use Rattle.file_exchange.specs.declared.fault.ExchangeFault.TheVariants as exchange_fault;
ghost use Rattle.file_exchange.specs.Exchange.{as_move};

use sd_io::DiskFault;
use thiserror::Error;

/// Why a file's bytes aren't exchanged.
#[derive(Clone, Copy, Debug, PartialEq, Eq, Error)]
pub enum ExchangeFault {
    /// Every reserved name of the file's folder is taken. Nothing was written.
    #[error("no free temporary name")]
    NoName,
    /// The disk refused a step before the move, and the file is its old one; or there is no memory left.
    #[error("{0}")]
    Disk(DiskFault),
    /// The disk refused to put the new file in the file's place, or to put that on the medium. The file is old or new.
    /// Never for want of memory.
    #[error("failed to move file: {0}")]
    Move(DiskFault),
}

impl From<DiskFault> for ExchangeFault {
    ghost from_gives = { λ fault e. e ≡ exchange_fault.Disk fault };

    fn from(fault: DiskFault) -> ExchangeFault {
        ExchangeFault::Disk(fault)
    }
}

impl ExchangeFault {
    /// The fault of a move that the disk refused, or of putting it on the medium.
    pub(crate) fn of_move(fault: DiskFault) -> ExchangeFault
        ensures { result ≡ as_move fault }
    {
        match fault {
            DiskFault::NoMemory => ExchangeFault::Disk(fault),
            _ => ExchangeFault::Move(fault),
        }
    }
}
