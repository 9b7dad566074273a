//! The count of the faults of the host's disk.

ghost use Rattle.std.specs.Prelude.{◌≡◌, ◌≢◌, ◌<◌, ◌≤◌, ◌⊎◌, Ok, Err, IfOk};
ghost use Rattle.sd_io.specs.Count.{HasRisen};
ghost use Rattle.host_io.specs.HostDisk.{IsCounted, Tells};
ghost use Rattle.sd_io.specs.Calls.{count_after};

use host_known::FileStatus;
use sd_io::{DiskFault, Kind};
use std::io;
use std::io::ErrorKind;

/// Counts the refusals of the host's disk, but those for want of memory.
#[derive(Clone, Copy)]
pub struct FaultCounter {
    pub faults: u64,
}

impl FaultCounter {
    pub fn new() -> FaultCounter
        ensures { result.faults ≡ 0 }
    {
        FaultCounter { faults: 0 }
    }

    /// Counts a refusal. Where the count can't rise, the answer is `Failed`.
    pub fn refusal(&mut self, fault: DiskFault) -> DiskFault
        ensures answer { (result ≡ fault) ⊎ (result ≡ DiskFault.Failed) }
        ensures same { self.old.faults < self.new.faults → result ≡ fault }
        ensures faults { self.new.faults ≡ count_after self.old.faults }
        ensures risen { HasRisen self.old.faults self.new.faults }
        ensures rises { result ≢ DiskFault.Failed → self.old.faults < self.new.faults }
        ensures later { self.old.faults ≤ self.new.faults }
    {
        if self.faults == u64::MAX {
            return DiskFault::Failed;
        }
        self.faults += 1;
        fault
    }

    /// The host's answer, its error as a fault.
    pub fn counted<T: Drop>(&mut self, answer: io::Result<T>) -> Result<T, DiskFault>
        ensures counted { IsCounted self.old.faults self.new.faults result }
        ensures tells { Tells answer result }
        ensures not_taken { result ≢ Err DiskFault.Taken }
    {
        match answer {
            Ok(told) => Ok(told),
            Err(error) => match error.kind() {
                ErrorKind::OutOfMemory => Err(DiskFault::NoMemory),
                ErrorKind::NotFound | ErrorKind::NotADirectory | ErrorKind::FilesystemLoop => {
                    Err(self.refusal(DiskFault::Absent))
                }
                _ => Err(self.refusal(DiskFault::Failed)),
            },
        }
    }

    /// What the host tells of a regular file. Where it tells of something else, that is refused.
    pub fn regular(&mut self, answer: io::Result<FileStatus>) -> Result<FileStatus, DiskFault>
        ensures told { IfOk result (λ status. answer ≡ Ok status) }
        ensures regular { IfOk result (λ status. status.kind ≡ Kind.File) }
        ensures counted { IsCounted self.old.faults self.new.faults result }
        ensures not_taken { result ≢ Err DiskFault.Taken }
    {
        let status = self.counted(answer)?;
        if status.kind == Kind::File {
            Ok(status)
        } else {
            Err(self.refusal(DiskFault::Absent))
        }
    }
}
