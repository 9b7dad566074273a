//! A disk on which steps want memory.

ghost use Rattle.std.specs.Prelude.{◌≡◌};

use mem_io::MemDisk;
use sd_io::{Disk, DiskFault, Ident, ListId, Meta, RawEntry, Text};
use std::alloc::Global;
use std::mem;

/// Which calls want memory, each once.
#[derive(Clone, Copy)]
pub struct Wanting {
    pub write: bool,
    pub sync: bool,
    pub rename: bool,
    pub remove: bool,
}

impl Wanting {
    /// No call does.
    pub const NONE: Wanting = Wanting {
        write: false,
        sync: false,
        rename: false,
        remove: false,
    };
}

/// A disk in memory on which some calls want memory, each once.
#[derive(Drop)]
pub struct ScarceDisk {
    pub disk: MemDisk,
    pub wanting: Wanting,
}

/// Refuses where a call wants memory, which it does no more afterwards.
fn spend(wanting: &mut bool) -> Result<(), DiskFault>
    ensures { (fault : DiskFault) → result ≡ Err fault → fault ≡ DiskFault.NoMemory }
{
    if mem::replace(wanting, false) {
        Err(DiskFault::NoMemory)
    } else {
        Ok(())
    }
}

impl Disk for ScarceDisk {
    ghost use Rattle.std.specs.Prelude.{true};
    ghost use Rattle.mem_io.specs.MemDisk.{mem_state};
    ghost use Rattle.mem_io.specs.MemHolds.{holds};

    ghost tells = { true };

    ghost state = { λ scarce. mem_state scarce.disk };

    ghost is_tree = { λ scarce told. scarce.disk.medium.tree.sound.is_tree };

    ghost holds_present = { λ scarce told. holds scarce.disk };

    fn stat(&mut self, path: &str, follow: bool) -> Result<Meta, DiskFault> {
        self.disk.stat(path, follow)
    }

    fn ident(&mut self, path: &str) -> Result<Ident, DiskFault> {
        self.disk.ident(path)
    }

    fn resolve(&mut self, alloc: Global, path: &str) -> Result<Text, DiskFault> {
        self.disk.resolve(alloc, path)
    }

    fn open_dir(&mut self, path: &str) -> Result<ListId, DiskFault> {
        self.disk.open_dir(path)
    }

    fn next_entry(&mut self, alloc: Global, list: ListId) -> Result<Option<RawEntry>, DiskFault> {
        self.disk.next_entry(alloc, list)
    }

    fn close_dir(&mut self, list: ListId) {
        self.disk.close_dir(list);
    }

    fn read_file(&mut self, alloc: Global, path: &str) -> Result<Vec<u8>, DiskFault> {
        self.disk.read_file(alloc, path)
    }

    fn create_like(&mut self, path: &str, like: &str) -> Result<(), DiskFault> {
        self.disk.create_like(path, like)
    }

    fn write_file(&mut self, path: &str, bytes: &[u8]) -> Result<(), DiskFault> {
        spend(&mut self.wanting.write)?;
        self.disk.write_file(path, bytes)
    }

    fn sync(&mut self, path: &str) -> Result<(), DiskFault> {
        spend(&mut self.wanting.sync)?;
        self.disk.sync(path)
    }

    fn rename(&mut self, from: &str, to: &str) -> Result<(), DiskFault> {
        spend(&mut self.wanting.rename)?;
        self.disk.rename(from, to)
    }

    fn remove(&mut self, path: &str) -> Result<(), DiskFault> {
        spend(&mut self.wanting.remove)?;
        self.disk.remove(path)
    }

    fn sync_dir(&mut self, path: &str) -> Result<(), DiskFault> {
        self.disk.sync_dir(path)
    }
}
