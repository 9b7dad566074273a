//! Files and directories.

ghost use Rattle.std.specs.Prelude.{◌≡◌, ◌≢◌, Bool, true, IsTrue, IfOk, IfErr, OnOk, OnErr, IsErrOf, IfSome, IfNone, ◌⊎◌};
ghost use Rattle.sd_io.specs.Tree.{IsTree};
ghost use Rattle.sd_io.specs.Disk.{DiskState, SameTree, SameLists, HasCause, HoldsPresent};
ghost use Rattle.sd_io.specs.Files.{LeadsNowhere, Describes, Identifies, Resolves, IsNoFile, Reads, Creates, CannotCreate, IsTaken, Writes, MayHaveWritten, Syncs, Renames, CannotRename, MayHaveRenamed, Removes, CannotRemove};
ghost use Rattle.sd_io.specs.Lists.{IsOpen, IsUnfinished, SameOtherLists, SameOpen, Opens, IsNoDirectory, ListsDirectory, SyncsFolder, Ends, Gives, GivesNext, HasNoneLeft, PassesOver, PassesOverNext, IsFull, Closes};

use crate::{DiskFault, Ident, ListId, Meta, RawEntry, Text};
use std::alloc::Global;

/// A disk, as the program sees it.
///
/// What a call does is said of the disk's *tree*, where the disk tells it: a disk in memory does, the host's doesn't.
/// Every disk tells its lists and its counts: of faults, of listed entries, of open lists. Each refusal has its cause:
/// on a told disk `Absent` and `Taken` come from the tree alone, on any other only with a counted fault, and `Failed`
/// comes with a counted fault everywhere. `NoMemory` may come from every call but `close_dir`, and changes nothing.
///
/// To create, rename or remove a file may change the order of the directories in which its paths name it, and of no
/// other; to write one changes none.
///
/// A path is split at `/`; empty parts and `.` are dropped, `..` goes to the parent of the node reached, and at most
/// forty links are followed. In memory a path without a leading `/` begins at the top.
pub trait Disk {
    /// Whether it tells its tree.
    ghost tells: { Bool };

    /// What it tells.
    ghost state: { Self → DiskState };

    /// The kind of the node that a path leads to, and a file's number of bytes. A link in the place of the last name is
    /// followed where `follow` says so. Refuses `Absent` exactly where the path leads nowhere.
    fn stat(&mut self, path: &str, follow: bool) -> Result<Meta, DiskFault>
        ensures answer { IsTrue tells → IfOk result (Describes (state self.old) path.now follow) }
        ensures absent { IsTrue tells → IsErrOf result DiskFault.Absent → LeadsNowhere (state self.old) path.now follow }
        ensures not_taken { result ≢ Err DiskFault.Taken }
        ensures tree { SameTree (state self.old) (state self.new) }
        ensures lists { SameLists (state self.old) (state self.new) }
        ensures cause { HasCause tells (state self.old) (state self.new) result };

    /// The device and the inode of the node that a path leads to. Refuses `Absent` exactly where it leads nowhere.
    fn ident(&mut self, path: &str) -> Result<Ident, DiskFault>
        ensures answer { IsTrue tells → IfOk result (Identifies (state self.old) path.now) }
        ensures absent { IsTrue tells → IsErrOf result DiskFault.Absent → LeadsNowhere (state self.old) path.now true }
        ensures not_taken { result ≢ Err DiskFault.Taken }
        ensures tree { SameTree (state self.old) (state self.new) }
        ensures lists { SameLists (state self.old) (state self.new) }
        ensures cause { HasCause tells (state self.old) (state self.new) result };

    /// The path of the node that a path leads to, without links, `.` and `..`: `/` and the names joined by `/`.
    /// Refuses `Absent` exactly where the path leads nowhere.
    fn resolve(&mut self, alloc: Global, path: &str) -> Result<Text, DiskFault>
        ensures answer { IsTrue tells → IfOk result (Resolves (state self.old) path.now) }
        ensures absent { IsTrue tells → IsErrOf result DiskFault.Absent → LeadsNowhere (state self.old) path.now true }
        ensures not_taken { result ≢ Err DiskFault.Taken }
        ensures tree { SameTree (state self.old) (state self.new) }
        ensures lists { SameLists (state self.old) (state self.new) }
        ensures cause { HasCause tells (state self.old) (state self.new) result };

    /// Opens a list of the entries of the directory that a path leads to, as they stand then, in the directory's order.
    /// Refuses `Absent` exactly where no directory stands there.
    fn open_dir(&mut self, path: &str) -> Result<ListId, DiskFault>
        ensures opened { IfOk result (λ list. Opens (state self.old) list.number (state self.new)) }
        ensures entries { IsTrue tells → IfOk result (λ list. ListsDirectory (state self.old) path.now list.number (state self.new)) }
        ensures absent { IsTrue tells → IsErrOf result DiskFault.Absent → IsNoDirectory (state self.old) path.now }
        ensures not_taken { result ≢ Err DiskFault.Taken }
        ensures refused { OnErr result (SameLists (state self.old) (state self.new)) }
        ensures tree { SameTree (state self.old) (state self.new) }
        ensures cause { HasCause tells (state self.old) (state self.new) result };

    /// The next entry of an open list, or `None` at its end. `Failed` passes over one entry, or puts the list at its
    /// end. A list at its end answers `None` or `NoMemory` for good.
    fn next_entry(&mut self, alloc: Global, list: ListId) -> Result<Option<RawEntry>, DiskFault>
        requires { IsOpen (state self.old) list.number }
        ensures given { IfOk result (λ given. IfSome given (λ _. Gives (state self.old) list.number (state self.new))) }
        ensures next { IsTrue tells → IfOk result (λ given. IfSome given (λ entry. GivesNext (state self.old) list.number entry (state self.new))) }
        ensures ended { IfOk result (λ given. IfNone given (Ends (state self.old) list.number (state self.new))) }
        ensures none_left { IsTrue tells → IfOk result (λ given. IfNone given (HasNoneLeft (state self.old) list.number)) }
        ensures failed { IsErrOf result DiskFault.Failed → PassesOver (state self.old) list.number (state self.new) }
        ensures passed_over { IsTrue tells → IsErrOf result DiskFault.Failed → PassesOverNext (state self.old) list.number (state self.new) }
        ensures full { IsFull (state self.old) → IsUnfinished (state self.old) list.number → IsErrOf result DiskFault.Failed ⊎ IsErrOf result DiskFault.NoMemory }
        ensures full_ends { IsFull (state self.old) → IsErrOf result DiskFault.Failed → Ends (state self.old) list.number (state self.new) }
        ensures not_absent { result ≢ Err DiskFault.Absent }
        ensures not_taken { result ≢ Err DiskFault.Taken }
        ensures no_memory { IsErrOf result DiskFault.NoMemory → SameLists (state self.old) (state self.new) }
        ensures others { SameOtherLists (state self.old) list.number (state self.new) }
        ensures open { SameOpen (state self.old) (state self.new) }
        ensures tree { SameTree (state self.old) (state self.new) }
        ensures cause { HasCause tells (state self.old) (state self.new) result };

    /// Closes a list. One that isn't open is left alone.
    fn close_dir(&mut self, list: ListId)
        ensures closed { Closes (state self.old) list.number (state self.new) }
        ensures tree { SameTree (state self.old) (state self.new) }
        ensures faults { (state self.new).faults ≡ (state self.old).faults };

    /// The bytes of the regular file that a path leads to. Refuses `Absent` exactly where there is none.
    fn read_file(&mut self, alloc: Global, path: &str) -> Result<Vec<u8>, DiskFault>
        ensures bytes { IsTrue tells → IfOk result (λ bytes. Reads (state self.old) path.now bytes.items) }
        ensures absent { IsTrue tells → IsErrOf result DiskFault.Absent → IsNoFile (state self.old) path.now }
        ensures not_taken { result ≢ Err DiskFault.Taken }
        ensures tree { SameTree (state self.old) (state self.new) }
        ensures lists { SameLists (state self.old) (state self.new) }
        ensures cause { HasCause tells (state self.old) (state self.new) result };

    /// Makes a new empty file at `path` with the mode of the regular file that `like` leads to. Refuses `Absent` exactly
    /// where the folder of `path` is no directory or `like` leads to no regular file, and `Taken` exactly where
    /// otherwise something stands at `path`.
    fn create_like(&mut self, path: &str, like: &str) -> Result<(), DiskFault>
        ensures created { IsTrue tells → OnOk result (Creates (state self.old) path.now like.now (state self.new)) }
        ensures absent { IsTrue tells → IsErrOf result DiskFault.Absent → CannotCreate (state self.old) path.now like.now }
        ensures taken { IsTrue tells → IsErrOf result DiskFault.Taken → IsTaken (state self.old) path.now like.now }
        ensures refused { OnErr result (SameTree (state self.old) (state self.new)) }
        ensures lists { SameLists (state self.old) (state self.new) }
        ensures cause { HasCause tells (state self.old) (state self.new) result };

    /// Gives the regular file that a path leads to these bytes; its mode, device and inode and each directory's order are
    /// kept. Refuses `Absent` exactly where there is none. After `Failed` the file may hold any bytes.
    fn write_file(&mut self, path: &str, bytes: &[u8]) -> Result<(), DiskFault>
        ensures written { IsTrue tells → OnOk result (Writes (state self.old) path.now bytes.now (state self.new)) }
        ensures absent { IsTrue tells → IsErrOf result DiskFault.Absent → IsNoFile (state self.old) path.now }
        ensures not_taken { result ≢ Err DiskFault.Taken }
        ensures failed { IsTrue tells → IsErrOf result DiskFault.Failed → MayHaveWritten (state self.old) path.now (state self.new) }
        ensures refused { IfErr result (λ fault. fault ≢ DiskFault.Failed → SameTree (state self.old) (state self.new)) }
        ensures lists { SameLists (state self.old) (state self.new) }
        ensures cause { HasCause tells (state self.old) (state self.new) result };

    /// Puts the bytes of the regular file that a path leads to on the medium. Refuses `Absent` exactly where there is
    /// none. After `Failed` the file may hold any bytes.
    fn sync(&mut self, path: &str) -> Result<(), DiskFault>
        ensures synced { IsTrue tells → OnOk result (Syncs (state self.old) path.now (state self.new)) }
        ensures absent { IsTrue tells → IsErrOf result DiskFault.Absent → IsNoFile (state self.old) path.now }
        ensures not_taken { result ≢ Err DiskFault.Taken }
        ensures failed { IsTrue tells → IsErrOf result DiskFault.Failed → MayHaveWritten (state self.old) path.now (state self.new) }
        ensures refused { IfErr result (λ fault. fault ≢ DiskFault.Failed → SameTree (state self.old) (state self.new)) }
        ensures lists { SameLists (state self.old) (state self.new) }
        ensures cause { HasCause tells (state self.old) (state self.new) result };

    /// Puts the regular file at `from` in the place of `to`, where nothing or a regular file stands. Neither last name
    /// is followed. Refuses `Absent` exactly where no regular file stands at `from`, the folder of `to` is no directory,
    /// or something else than a regular file stands at `to`. After `Failed` both names are as before or as after.
    fn rename(&mut self, from: &str, to: &str) -> Result<(), DiskFault>
        ensures renamed { IsTrue tells → OnOk result (Renames (state self.old) from.now to.now (state self.new)) }
        ensures absent { IsTrue tells → IsErrOf result DiskFault.Absent → CannotRename (state self.old) from.now to.now }
        ensures not_taken { result ≢ Err DiskFault.Taken }
        ensures failed { IsTrue tells → IsErrOf result DiskFault.Failed → MayHaveRenamed (state self.old) from.now to.now (state self.new) }
        ensures refused { IfErr result (λ fault. fault ≢ DiskFault.Failed → SameTree (state self.old) (state self.new)) }
        ensures lists { SameLists (state self.old) (state self.new) }
        ensures cause { HasCause tells (state self.old) (state self.new) result };

    /// Removes the regular file at a path, whose last name isn't followed. Refuses `Absent` exactly where none stands there.
    fn remove(&mut self, path: &str) -> Result<(), DiskFault>
        ensures removed { IsTrue tells → OnOk result (Removes (state self.old) path.now (state self.new)) }
        ensures absent { IsTrue tells → IsErrOf result DiskFault.Absent → CannotRemove (state self.old) path.now }
        ensures not_taken { result ≢ Err DiskFault.Taken }
        ensures refused { OnErr result (SameTree (state self.old) (state self.new)) }
        ensures lists { SameLists (state self.old) (state self.new) }
        ensures cause { HasCause tells (state self.old) (state self.new) result };

    /// Puts the names in the directory that a path leads to on the medium. From then on a crash leaves each file directly
    /// in it as its own outcomes say, and nothing where nothing stands. Refuses `Absent` exactly where no directory
    /// stands there.
    fn sync_dir(&mut self, path: &str) -> Result<(), DiskFault>
        ensures synced { IsTrue tells → OnOk result (SyncsFolder (state self.old) path.now (state self.new)) }
        ensures absent { IsTrue tells → IsErrOf result DiskFault.Absent → IsNoDirectory (state self.old) path.now }
        ensures not_taken { result ≢ Err DiskFault.Taken }
        ensures refused { OnErr result (SameTree (state self.old) (state self.new)) }
        ensures lists { SameLists (state self.old) (state self.new) }
        ensures cause { HasCause tells (state self.old) (state self.new) result };

    /// The tree that it tells is one: parents are directories, names are names, each directory has its own identity,
    /// and its order has each of its names once.
    ghost is_tree: { (disk : Self) → IsTrue tells → IsTree (state disk).tree };

    /// What stands at a place is one of the outcomes that it tells.
    ghost holds_present: { (disk : Self) → IsTrue tells → HoldsPresent (state disk) };
}
