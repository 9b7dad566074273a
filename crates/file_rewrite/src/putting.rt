//! One file gets given bytes.

ghost use Rattle.std.specs.Prelude.{◌≡◌, ◌≤◌, IsTrue, IfErr, OnOk, Err};
ghost use Rattle.sd_io.specs.Disk.{SameLists};
ghost use Rattle.sd_io.specs.Crashes.{LeavesSince, KeepsSettled};
ghost use Rattle.sd_course.specs.Course.{course};
ghost use Rattle.file_rewrite.specs.Paths.{IsNoPath};
ghost use Rattle.file_rewrite.specs.OneFile.{HasFileCause, IsFirstFreeBy};
ghost use Rattle.file_rewrite.specs.Putting.{PutsFile, LeavesPutFile, IsPutAt};

use crate::JobFault;
use crate::path::is_no_path;
use crate::rewriting::find_file;
use file_exchange::put;
use sd_io::Disk;
use std::alloc::Global;

/// Gives the regular file that a path leads to, links followed, these bytes; its mode is kept. They are written whole under
/// a reserved name beside it, which is put on the medium and then takes its place, and that is put there too. A file that
/// holds them already isn't rewritten, but the names in its folder are put on the medium all the same.
///
/// Refuses as `replace_file`. On a disk that tells its tree a crash at any moment leaves the file as one at entry could
/// have left it, or with its mode and these bytes; anything at the first reserved name that was free in its folder; and all else as
/// one at entry could have left it. After `Ok` a crash leaves the file by its own outcomes alone. What was settled at entry is so
/// at every exit.
pub fn put_file<D: Disk>(
    alloc: Global,
    disk: &mut D,
    path: &str,
    bytes: &[u8],
) -> Result<(), JobFault>
    ensures done { IsTrue D.tells → OnOk result (PutsFile path.now bytes.now (D.state disk.old) (D.state disk.new)) }
    ensures left { IsTrue D.tells → IfErr result (λ fault. LeavesPutFile path.now bytes.now fault (D.state disk.old) (D.state disk.new)) }
    ensures cause { IfErr result (λ fault. HasFileCause (course D.tells (D.state disk.old) (D.state disk.new)) path.now fault) }
    ensures no_path { IsNoPath path.now → (disk.new ≡ disk.old) × (result ≡ Err JobFault.InvalidPath) }
    ensures crash { IsTrue D.tells → LeavesSince (IsPutAt bytes.now (D.state disk.old).tree path.now) (IsFirstFreeBy (D.state disk.old).tree path.now)
        (D.state disk.old) (D.state disk.new) }
    ensures settled { IsTrue D.tells → KeepsSettled (D.state disk.old) (D.state disk.new) }
    ensures lists { SameLists (D.state disk.old) (D.state disk.new) }
    ensures never_falls { (D.state disk.old).faults ≤ (D.state disk.new).faults }
{
    if is_no_path(path) {
        return Err(JobFault::InvalidPath);
    }
    let found = find_file(alloc, disk, path)?;
    put(alloc, disk, found.path.as_str(), &found.bytes, bytes)?;
    Ok(())
}
