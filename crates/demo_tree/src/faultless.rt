//! A disk in memory on which no call fails.

ghost use Rattle.std.specs.Prelude.{◌≡◌, [], None};
ghost use Rattle.mem_io.specs.MemDisk.{mem_state, failing_calls, stop_of, IsUncalled};

use mem_io::MemDisk;
use sd_io::{Disk, DiskFault, Ident, ListId, Meta, RawEntry, Text};
use std::alloc::Global;

/// A disk in memory on which no call fails, so that its count of faults stands at 0 for good. A call is refused only where
/// the tree is in its way or memory is out; out of numbers for listed entries is out of memory.
#[derive(Drop)]
pub struct FaultlessDisk {
    disk: MemDisk,
    /// How many entries the lists have given.
    listed: u64,
    ghost none_failing: { failing_calls disk ≡ [] },
    ghost not_stopped: { stop_of disk ≡ None },
    ghost no_faults: { (mem_state disk).faults ≡ 0 },
    ghost listed_so_far: { (mem_state disk).listed ≡ listed },
}

impl FaultlessDisk {
    ghost use Rattle.demo_tree.specs.FaultlessDisk.{faultless_state};

    /// A disk of which no call was made or is to fail.
    pub fn new(disk: MemDisk) -> FaultlessDisk
        requires { IsUncalled disk }
        ensures { faultless_state result ≡ mem_state disk }
    {
        FaultlessDisk { disk, listed: 0 }
    }
}

impl Disk for FaultlessDisk {
    ghost use Rattle.std.specs.Prelude.{true};
    ghost use Rattle.demo_tree.specs.FaultlessDisk.{faultless_state, is_tree, holds};

    ghost tells = { true };

    ghost state = { faultless_state };

    ghost is_tree = { λ disk told. is_tree disk };

    ghost holds_present = { λ disk told. holds disk };

    fn stat(&mut self, path: &str, follow: bool) -> Result<Meta, DiskFault> {
        self.disk.stat(path, follow)
    }

    fn ident(&mut self, path: &str) -> Result<Ident, DiskFault> {
        self.disk.ident(path)
    }

    fn resolve(&mut self, alloc: Global, path: &str) -> Result<Text, DiskFault> {
        self.disk.resolve(alloc, path)
    }

    fn open_dir(&mut self, path: &str) -> Result<ListId, DiskFault> {
        self.disk.open_dir(path)
    }

    fn next_entry(&mut self, alloc: Global, list: ListId) -> Result<Option<RawEntry>, DiskFault> {
        if self.listed == u64::MAX {
            return Err(DiskFault::NoMemory);
        }
        match self.disk.next_entry(alloc, list)? {
            None => Ok(None),
            Some(entry) => {
                self.listed += 1;
                Ok(Some(entry))
            }
        }
    }

    fn close_dir(&mut self, list: ListId) {
        self.disk.close_dir(list);
    }

    fn read_file(&mut self, alloc: Global, path: &str) -> Result<Vec<u8>, DiskFault> {
        self.disk.read_file(alloc, path)
    }

    fn create_like(&mut self, path: &str, like: &str) -> Result<(), DiskFault> {
        self.disk.create_like(path, like)
    }

    fn write_file(&mut self, path: &str, bytes: &[u8]) -> Result<(), DiskFault> {
        self.disk.write_file(path, bytes)
    }

    fn sync(&mut self, path: &str) -> Result<(), DiskFault> {
        self.disk.sync(path)
    }

    fn rename(&mut self, from: &str, to: &str) -> Result<(), DiskFault> {
        self.disk.rename(from, to)
    }

    fn remove(&mut self, path: &str) -> Result<(), DiskFault> {
        self.disk.remove(path)
    }

    fn sync_dir(&mut self, path: &str) -> Result<(), DiskFault> {
        self.disk.sync_dir(path)
    }
}
