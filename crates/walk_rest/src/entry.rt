//! The entries that a walk gives.

ghost use Rattle.std.specs.Prelude.{◌≡◌, ◌≤◌, ◌⊎◌, ◌↔◌, ℕ, IsTrue, IfOk, IfErr};
ghost use Rattle.sd_io.specs.Disk.{SameTree, SameLists};
ghost use Rattle.sd_io.specs.Files.{Describes};
ghost use Rattle.walk_rest.specs.Names.{file_name};
ghost use Rattle.walk_rest.specs.Errors.{refusal_of, IsRefusedFor};

use crate::Error;
use crate::names::file_name;
use sd_io::{Disk, DiskFault, Kind, Meta, NoMemory, Text};
use std::alloc::Global;
use std::fmt;

/// An entry of a walk.
#[derive(Drop)]
pub struct DirEntry {
    /// The path of its directory, `/` unless that ends with it, and its name; the root's as it was given.
    pub path: Text,
    /// Its kind; the kind of the target, where the entry is a link that was followed.
    pub kind: Kind,
    /// How many directories it lies below the root, which has 0.
    pub depth: usize,
    /// The inode that its directory's list gave, also where it is a followed link; 0 for the root.
    pub ino: u64,
    /// Whether it is a link that was followed.
    pub followed: bool,
}

impl DirEntry {
    /// Its path: that of its directory, `/` unless that ends with it, and its name.
    pub fn path(&self) -> &str
        ensures { result.now ≡ self.now.path }
    {
        self.path.as_str()
    }

    /// Its path, with the entry given up.
    pub fn into_path(self) -> Text
        ensures { result ≡ self.path }
    {
        self.path
    }

    /// Whether it is a link, followed or not.
    pub fn path_is_symlink(&self) -> bool
        ensures { IsTrue result ↔ (IsTrue self.now.followed ⊎ (self.now.kind ≡ Kind.Link)) }
    {
        self.followed || self.kind.is_symlink()
    }

    /// The kind of its node, and a regular file's number of bytes; the target's, where it is a link that was followed.
    ///
    /// Refuses with its path and depth: `Absent`, on a disk that tells its tree only where its path leads nowhere, `Disk` with a
    /// counted fault; and for want of memory.
    pub fn metadata<D: Disk>(&self, alloc: Global, disk: &mut D) -> Result<Meta, Error>
        ensures answer { IsTrue D.tells → IfOk result (Describes (D.state disk.old) self.now.path self.now.followed) }
        ensures refused { IfErr result (IsRefusedFor D.tells (D.state disk.old) (D.state disk.new) self.now) }
        ensures never_falls { (D.state disk.old).faults ≤ (D.state disk.new).faults }
        ensures tree { SameTree (D.state disk.old) (D.state disk.new) }
        ensures lists { SameLists (D.state disk.old) (D.state disk.new) }
    {
        match disk.stat(self.path.as_str(), self.followed) {
            Ok(meta) => Ok(meta),
            Err(fault) => Err(self.refusal(alloc, fault)),
        }
    }

    /// Its kind; the kind of the target, where it is a link that was followed.
    pub fn file_type(&self) -> Kind
        ensures { result ≡ self.now.kind }
    {
        self.kind
    }

    /// The last part of its path, without `/`; the whole path where that part is `..` or there is none.
    pub fn file_name(&self) -> &str
        ensures { result.now ≡ file_name self.now.path }
    {
        file_name(self.path.as_str())
    }

    /// How many directories it lies below the root, which has 0.
    pub fn depth(&self) -> usize
        ensures { result ≡ self.now.depth }
    {
        self.depth
    }

    /// A copy of it. Refuses for want of memory alone.
    pub fn try_clone(&self, alloc: Global) -> Result<DirEntry, NoMemory>
        ensures { IfOk result (λ copy. copy ≡ self.now) }
    {
        Ok(DirEntry {
            path: Text::new(alloc, self.path.as_str())?,
            ..*self
        })
    }

    /// The error that stands for the disk's refusal of a call on it, or want of memory.
    fn refusal(&self, alloc: Global, fault: DiskFault) -> Error
        ensures { (result ≡ Error.NoMemory) ⊎ (result ≡ refusal_of self.now fault) }
    {
        let Ok(path) = Text::new(alloc, self.path.as_str()) else {
            return Error::NoMemory;
        };
        let depth = self.depth;
        match fault {
            DiskFault::Absent => Error::Absent { path, depth },
            DiskFault::Failed | DiskFault::Taken => Error::Disk {
                path: Some(path),
                depth,
            },
            DiskFault::NoMemory => Error::NoMemory,
        }
    }
}

/// What the host's file systems tell of an entry besides.
pub trait DirEntryExt {
    /// The inode.
    ghost inode: { Self → ℕ };

    /// The inode that its directory's list gave, also where it is a followed link; 0 for the root.
    fn ino(&self) -> u64
        ensures { result ≡ inode self.now };
}

impl DirEntryExt for DirEntry {
    ghost inode = { λ entry. entry.ino };

    fn ino(&self) -> u64 {
        self.ino
    }
}

impl fmt::Debug for DirEntry {
    fn fmt<W: fmt::Write>(&self, f: &mut fmt::Formatter<W>) -> fmt::Result {
        write!(f, "DirEntry({:?})", self.path())
    }
}
