//! One file's rewriting.

ghost use Rattle.std.specs.Prelude.{◌≡◌, ◌≤◌, ◌^◌, IsTrue, IfOk, IfErr, OnOk, Err};
ghost use Rattle.sd_io.specs.Disk.{SameTree, SameLists};
ghost use Rattle.sd_io.specs.Crashes.{LeavesSince, IsDurable};
ghost use Rattle.sd_change.specs.Change.{FileChange, TellsRewritten, AreFewIn};
ghost use Rattle.sd_course.specs.Course.{course};
ghost use Rattle.file_rewrite.specs.Paths.{IsNoPath};
ghost use Rattle.file_rewrite.specs.Reading.{FindsFile};
ghost use Rattle.file_rewrite.specs.OneFile.{RewritesFile, LeavesFile, HasFileCause, IsNewAt, IsChangedAt, IsFirstFreeBy};

use crate::path::is_no_path;
use crate::{JobFault, Rewrite};
use file_exchange::exchange;
use sd_base::{NoMemory, Text};
use sd_change::{Replaces, Rewritten};
use sd_io::Disk;
use std::alloc::Global;

/// Rewrites the regular file that a path leads to, links followed: it gets the new bytes that the replacer makes of its
/// bytes. An empty file, and one whose bytes don't change, is left alone. Every other is written whole under a reserved
/// name beside it, which is put on the medium and then takes its place, and that is put there too.
///
/// Refuses `InvalidPath` before all else, where the path is empty or nothing but `/`; `File` and `TempfilePersist` with a
/// counted fault, `File` also where no regular file stands at the path; `TempName` where no reserved name of the file's
/// folder is free; and for want of memory. The file is then old, or new where the answer is `TempfilePersist` or
/// `NoMemory`. Where one fault alone was counted, and no step wanted memory, no temporary file is left.
///
/// On a disk that tells its tree a crash at any moment leaves the file as one at entry could have left it, or with its mode
/// and its new bytes; it may leave anything at the first reserved name that was free in its folder; and all else as one at
/// entry could have left it. After `Ok` each crash leaves the new bytes of a file whose bytes change, and all else as one at
/// entry could have left it.
pub fn replace_file<D: Disk, R: Replaces>(
    alloc: Global,
    disk: &mut D,
    replacer: &R,
    path: &str,
) -> Result<Rewrite, JobFault>
    ensures rewritten { IsTrue D.tells → IfOk result (λ rewrite. RewritesFile (R.change replacer.now) path.now rewrite (D.state disk.old) (D.state disk.new)) }
    ensures few { IfOk result (λ rewrite. rewrite.replaced ≤ 2 ^ 64) }
    ensures left { IsTrue D.tells → IfErr result (λ fault. LeavesFile (R.change replacer.now) path.now fault (D.state disk.old) (D.state disk.new)) }
    ensures cause { IfErr result (λ fault. HasFileCause (course D.tells (D.state disk.old) (D.state disk.new)) path.now fault) }
    ensures no_path { IsNoPath path.now → (disk.new ≡ disk.old) × (result ≡ Err JobFault.InvalidPath) }
    ensures crash { IsTrue D.tells → LeavesSince (IsNewAt (R.change replacer.now) (D.state disk.old).tree path.now) (IsFirstFreeBy (D.state disk.old).tree path.now)
        (D.state disk.old) (D.state disk.new) }
    ensures durable { IsTrue D.tells → OnOk result (IsDurable (IsChangedAt (R.change replacer.now) (D.state disk.old).tree path.now)
        (D.state disk.old) (D.state disk.new)) }
    ensures lists { SameLists (D.state disk.old) (D.state disk.new) }
    ensures never_falls { (D.state disk.old).faults ≤ (D.state disk.new).faults }
{
    if is_no_path(path) {
        return Err(JobFault::InvalidPath);
    }
    let found = find_file(alloc, disk, path)?;
    let rewritten = file_change(replacer, found.bytes)?;
    match rewritten {
        Rewritten::Same { count, .. } => Ok(Rewrite {
            changed: false,
            replaced: count,
        }),
        Rewritten::Other(changed) => {
            exchange(alloc, disk, found.path.as_str(), &changed.new_bytes)?;
            Ok(Rewrite {
                changed: true,
                replaced: changed.count,
            })
        }
    }
}

/// A regular file that was read.
#[derive(Drop)]
pub struct FoundFile {
    /// Its own path: `/` and the names that lead to it, without links.
    pub path: Text,
    /// All that it holds.
    pub bytes: Vec<u8>,
}

/// Reads the regular file that a path leads to, links followed.
///
/// Refuses `File` with a counted fault, or where no regular file stands at the path; and for want of memory. Nothing changes.
pub fn find_file<D: Disk>(alloc: Global, disk: &mut D, path: &str) -> Result<FoundFile, JobFault>
    ensures found { IsTrue D.tells → IfOk result (λ found. FindsFile (D.state disk.old).tree path.now found.path found.bytes.items) }
    ensures tree { SameTree (D.state disk.old) (D.state disk.new) }
    ensures cause { IfErr result (λ fault. HasFileCause (course D.tells (D.state disk.old) (D.state disk.new)) path.now fault) }
    ensures lists { SameLists (D.state disk.old) (D.state disk.new) }
    ensures never_falls { (D.state disk.old).faults ≤ (D.state disk.new).faults }
{
    let own = disk.resolve(alloc, path)?;
    let bytes = disk.read_file(alloc, own.as_str())?;
    Ok(FoundFile { path: own, bytes })
}

/// What a file's bytes become. An empty file is left alone. Refuses for want of memory alone.
pub fn file_change<R: Replaces>(replacer: &R, bytes: Vec<u8>) -> Result<Rewritten, NoMemory>
    ensures told { IfOk result (TellsRewritten (FileChange (R.change replacer.now)) bytes.items) }
    ensures few { IfOk result (AreFewIn bytes.items) }
{
    if bytes.is_empty() {
        return Ok(Rewritten::Same { bytes, count: 0 });
    }
    replacer.rewrite(bytes)
}
