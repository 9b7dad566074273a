//! One file's exchange.

ghost use Rattle.std.specs.Prelude.{◌≡◌, ◌≢◌, ◌⊎◌, ◌≤◌, false, IsTrue, IfOk, IfErr, OnOk, OnErr, IsErrOf, IfSome, IfNone};
ghost use Rattle.sd_io.specs.Tree.{node_at};
ghost use Rattle.sd_io.specs.Paths.{parts_of, parent_of, SameWays};
ghost use Rattle.sd_io.specs.Disk.{SameLists, SameTree};
ghost use Rattle.sd_io.specs.Files.{Removes};
ghost use Rattle.sd_io.specs.Crashes.{IsDurable, KeepsSettled};
ghost use Rattle.file_exchange.specs.Causes.{HasCauseOf, HasRisenBy};
ghost use Rattle.file_exchange.specs.Reserved.{NoneFree, reserved_names};
ghost use Rattle.file_exchange.specs.Exchange.{IsFilePath, IsPathIn, FileHolds, Exchanges, LeavesBytes, IsCleared, HasFailed};
ghost use Rattle.file_exchange.specs.Temporary.{CreatesTemporary, IsReady, ChangesOnly, Moves, MayHaveMoved, FillLeaves, SettlesFolder, IsRemoved};
ghost use Rattle.file_exchange.specs.Crash.{IsNewFile, ExchangeLeaves, IsPutForGood};

use crate::reserved::{folder_path, temporary_path};
use crate::{ExchangeFault, Temporary};
use sd_io::{Disk, DiskFault};
use std::alloc::Global;

/// Gives the regular file at a path these bytes; its mode is kept. They are written to a temporary file under the first
/// reserved name that is free beside it, which is put on the medium and then in the file's place, and that on the medium
/// too. After a refusal the temporary file is removed, also where a step wants memory; it stays where its removal is refused, or
/// wants memory itself.
///
/// On a disk that tells its tree the path has no links, `.` or `..`, and leads to a regular file. Refuses with a counted
/// fault, where no reserved name of the folder is free, or for want of memory; the file is then old, or new where the
/// answer is `Move` or want of memory. Where one fault alone was counted, and no step wanted memory, no temporary file is left.
///
/// There a crash at any moment leaves the file as one at entry could have left it, or with its mode and the new bytes; it
/// may leave anything at that reserved name; and all else as one at entry could have left it. After `Ok` each
/// crash leaves the new bytes, and all else as one at entry could have left it.
pub fn exchange<D: Disk>(
    alloc: Global,
    disk: &mut D,
    path: &str,
    bytes: &[u8],
) -> Result<(), ExchangeFault>
    requires { IsTrue D.tells → IsFilePath (D.state disk.old).tree path.now }
    ensures exchanged { IsTrue D.tells → OnOk result (Exchanges (D.state disk.old).tree (parts_of path.now) bytes.now (D.state disk.new).tree) }
    ensures refused { IsTrue D.tells → OnErr result (LeavesBytes (D.state disk.old).tree (parts_of path.now) bytes.now (D.state disk.new).tree) }
    ensures crash { IsTrue D.tells → ExchangeLeaves (parts_of path.now) bytes.now (D.state disk.old) (D.state disk.new) }
    ensures durable { IsTrue D.tells → OnOk result (IsDurable (IsNewFile (D.state disk.old).tree (parts_of path.now) bytes.now) (D.state disk.old) (D.state disk.new)) }
    ensures settled { IsTrue D.tells → KeepsSettled (D.state disk.old) (D.state disk.new) }
    ensures old { IsTrue D.tells → IsErrOf result (ExchangeFault.Disk DiskFault.Failed)
        → node_at (D.state disk.new).tree (parts_of path.now) ≡ node_at (D.state disk.old).tree (parts_of path.now) }
    ensures cleared { IsTrue D.tells → IfErr result (λ fault. HasFailed fault → IsCleared (D.state disk.old) (parts_of path.now) (D.state disk.new)) }
    ensures none_free { IsTrue D.tells → IsErrOf result ExchangeFault.NoName → NoneFree (D.state disk.old).tree (parent_of (parts_of path.now)) }
    ensures not_written { IsTrue D.tells → IsErrOf result ExchangeFault.NoName → SameTree (D.state disk.old) (D.state disk.new) }
    ensures none_free_untold { D.tells ≡ false → IsErrOf result ExchangeFault.NoName → HasRisenBy reserved_names (D.state disk.old).faults (D.state disk.new).faults }
    ensures lists { SameLists (D.state disk.old) (D.state disk.new) }
    ensures cause { HasCauseOf ExchangeFault.Disk D.tells (D.state disk.old) (D.state disk.new) result }
    ensures move_cause { HasCauseOf ExchangeFault.Move D.tells (D.state disk.old) (D.state disk.new) result }
    ensures memory { IsErrOf result (ExchangeFault.Move DiskFault.NoMemory) → ⊥ }
{
    let Some(temporary) = create_temporary(alloc, disk, path, path)? else {
        return Err(ExchangeFault::NoName);
    };
    let temporary = temporary.path.as_str();
    match fill_and_rename(disk, temporary, path, bytes) {
        Ok(()) => settle(disk, path),
        Err(fault) => Err(clear(disk, temporary, fault)),
    }
}

/// Gives the regular file at a path these bytes for good. They are exchanged, or, where the file holds them already, the
/// names in its folder are put on the medium alone. So after `Ok` a crash leaves the file by its own outcomes alone.
///
/// All else is as `exchange` says.
pub fn put<D: Disk>(
    alloc: Global,
    disk: &mut D,
    path: &str,
    held: &[u8],
    bytes: &[u8],
) -> Result<(), ExchangeFault>
    requires path { IsTrue D.tells → IsFilePath (D.state disk.old).tree path.now }
    requires held { IsTrue D.tells → FileHolds (D.state disk.old).tree path.now held.now }
    ensures exchanged { IsTrue D.tells → OnOk result (Exchanges (D.state disk.old).tree (parts_of path.now) bytes.now (D.state disk.new).tree) }
    ensures refused { IsTrue D.tells → OnErr result (LeavesBytes (D.state disk.old).tree (parts_of path.now) bytes.now (D.state disk.new).tree) }
    ensures crash { IsTrue D.tells → ExchangeLeaves (parts_of path.now) bytes.now (D.state disk.old) (D.state disk.new) }
    ensures for_good { IsTrue D.tells → OnOk result (IsPutForGood (parts_of path.now) (D.state disk.old) (D.state disk.new)) }
    ensures settled { IsTrue D.tells → KeepsSettled (D.state disk.old) (D.state disk.new) }
    ensures old { IsTrue D.tells → IsErrOf result (ExchangeFault.Disk DiskFault.Failed)
        → node_at (D.state disk.new).tree (parts_of path.now) ≡ node_at (D.state disk.old).tree (parts_of path.now) }
    ensures cleared { IsTrue D.tells → IfErr result (λ fault. HasFailed fault → IsCleared (D.state disk.old) (parts_of path.now) (D.state disk.new)) }
    ensures none_free { IsTrue D.tells → IsErrOf result ExchangeFault.NoName → NoneFree (D.state disk.old).tree (parent_of (parts_of path.now)) }
    ensures not_written { IsTrue D.tells → IsErrOf result ExchangeFault.NoName → SameTree (D.state disk.old) (D.state disk.new) }
    ensures none_free_untold { D.tells ≡ false → IsErrOf result ExchangeFault.NoName → HasRisenBy reserved_names (D.state disk.old).faults (D.state disk.new).faults }
    ensures lists { SameLists (D.state disk.old) (D.state disk.new) }
    ensures cause { HasCauseOf ExchangeFault.Disk D.tells (D.state disk.old) (D.state disk.new) result }
    ensures move_cause { HasCauseOf ExchangeFault.Move D.tells (D.state disk.old) (D.state disk.new) result }
    ensures memory { IsErrOf result (ExchangeFault.Move DiskFault.NoMemory) → ⊥ }
{
    if held == bytes {
        settle(disk, path)
    } else {
        exchange(alloc, disk, path, bytes)
    }
}

/// Creates a file under the first reserved name that is free in the folder of the path `beside`, with the mode of the file `like`. `None`
/// where none is free. On a disk that tells its tree both paths have no links, `.` or `..`; `beside` is that of a name in a directory, where
/// something stands or not, and `like` leads to a regular file.
pub fn create_temporary<D: Disk>(
    alloc: Global,
    disk: &mut D,
    beside: &str,
    like: &str,
) -> Result<Option<Temporary>, DiskFault>
    requires beside { IsTrue D.tells → IsPathIn (D.state disk.old).tree beside.now }
    requires like { IsTrue D.tells → IsFilePath (D.state disk.old).tree like.now }
    ensures created { IsTrue D.tells → IfOk result (λ made. IfSome made (λ temporary.
        CreatesTemporary (D.state disk.old) (parent_of (parts_of beside.now)) (parts_of like.now) temporary (D.state disk.new))) }
    ensures none_free { IsTrue D.tells → IfOk result (λ made. IfNone made (NoneFree (D.state disk.old).tree (parent_of (parts_of beside.now)))) }
    ensures not_created { IsTrue D.tells → IfOk result (λ made. IfNone made (SameTree (D.state disk.old) (D.state disk.new))) }
    ensures refused { IsTrue D.tells → OnErr result (SameTree (D.state disk.old) (D.state disk.new)) }
    ensures risen { D.tells ≡ false → IfOk result (λ made. IfNone made (HasRisenBy reserved_names (D.state disk.old).faults (D.state disk.new).faults)) }
    ensures lists { SameLists (D.state disk.old) (D.state disk.new) }
    ensures cause { HasCauseOf (λ fault. fault) D.tells (D.state disk.old) (D.state disk.new) result }
{
    for number in 0..=u16::MAX {
        let path = temporary_path(alloc, beside, number)?;
        match disk.create_like(path.as_str(), like) {
            Ok(()) => return Ok(Some(Temporary { number, path })),
            Err(fault) if fault != DiskFault::Taken => return Err(fault),
            Err(_) => {}
        }
    }
    Ok(None)
}

/// Writes bytes to a temporary file, puts it on the medium, and renames it onto the path of a file in its folder: the middle of
/// an exchange, after [`create_temporary`] and before [`settle`].
///
/// Refuses `Disk` before the renaming, where the file at the path is as it was, and `Move` where that is refused, where it is
/// old or new: with a counted fault each, `Disk` for want of memory too. The temporary file may be left.
pub fn fill_and_rename<D: Disk>(
    disk: &mut D,
    temporary: &str,
    path: &str,
    bytes: &[u8],
) -> Result<(), ExchangeFault>
    requires { IsTrue D.tells → IsReady (D.state disk.old) temporary.now path.now }
    ensures moved { IsTrue D.tells → OnOk result (Moves (D.state disk.old) temporary.now path.now bytes.now (D.state disk.new)) }
    ensures refused { IsTrue D.tells → OnErr result (MayHaveMoved (D.state disk.old) temporary.now path.now bytes.now (D.state disk.new)) }
    ensures crash { IsTrue D.tells → FillLeaves (D.state disk.old) temporary.now path.now bytes.now (D.state disk.new) }
    ensures old { IsTrue D.tells → IsErrOf result (ExchangeFault.Disk DiskFault.Failed) → ChangesOnly temporary.now (D.state disk.old).tree (D.state disk.new).tree }
    ensures ways { IsTrue D.tells → SameWays (D.state disk.old).tree (D.state disk.new).tree }
    ensures lists { SameLists (D.state disk.old) (D.state disk.new) }
    ensures cause { HasCauseOf ExchangeFault.Disk D.tells (D.state disk.old) (D.state disk.new) result }
    ensures move_cause { HasCauseOf ExchangeFault.Move D.tells (D.state disk.old) (D.state disk.new) result }
    ensures memory { IsErrOf result (ExchangeFault.Move DiskFault.NoMemory) → ⊥ }
    ensures not_no_name { IsErrOf result ExchangeFault.NoName → ⊥ }
{
    disk.write_file(temporary, bytes)?;
    disk.sync(temporary)?;
    disk.rename(temporary, path).map_err(ExchangeFault::of_move)
}

/// Removes the temporary file after a fault. Answers with the fault, or with want of memory where
/// the removal has it.
fn clear<D: Disk>(disk: &mut D, temporary: &str, fault: ExchangeFault) -> ExchangeFault
    ensures tree { IsTrue D.tells → SameTree (D.state disk.old) (D.state disk.new) ⊎ Removes (D.state disk.old) temporary.now (D.state disk.new) }
    ensures cleared { IsTrue D.tells → result ≢ ExchangeFault.Disk DiskFault.NoMemory → IsRemoved (D.state disk.old) temporary.now (D.state disk.new) }
    ensures fault { (result ≡ ExchangeFault.Disk DiskFault.NoMemory) ⊎ (result ≡ fault) }
    ensures faults { (D.state disk.old).faults ≤ (D.state disk.new).faults }
    ensures lists { SameLists (D.state disk.old) (D.state disk.new) }
{
    match disk.remove(temporary) {
        Err(DiskFault::NoMemory) => ExchangeFault::Disk(DiskFault::NoMemory),
        _ => fault,
    }
}

/// Puts the names in the folder of the file at a path on the medium. On a disk that tells its tree the path has no links, `.` or
/// `..`, and leads to a regular file. Refuses `Move` with a counted fault, or for want of memory; the tree stays.
pub fn settle<D: Disk>(disk: &mut D, path: &str) -> Result<(), ExchangeFault>
    requires { IsTrue D.tells → IsFilePath (D.state disk.old).tree path.now }
    ensures settled { IsTrue D.tells → OnOk result (SettlesFolder (D.state disk.old) path.now (D.state disk.new)) }
    ensures refused { IsTrue D.tells → OnErr result (SameTree (D.state disk.old) (D.state disk.new)) }
    ensures moved { IsErrOf result (ExchangeFault.Disk DiskFault.Failed) → ⊥ }
    ensures not_no_name { IsErrOf result ExchangeFault.NoName → ⊥ }
    ensures lists { SameLists (D.state disk.old) (D.state disk.new) }
    ensures cause { HasCauseOf ExchangeFault.Disk D.tells (D.state disk.old) (D.state disk.new) result }
    ensures move_cause { HasCauseOf ExchangeFault.Move D.tells (D.state disk.old) (D.state disk.new) result }
    ensures memory { IsErrOf result (ExchangeFault.Move DiskFault.NoMemory) → ⊥ }
{
    disk.sync_dir(folder_path(path))
        .map_err(ExchangeFault::of_move)
}
