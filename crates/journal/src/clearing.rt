//! The journal and its stages, removed.

ghost use Rattle.std.specs.Prelude.{◌≡◌, ◌≤◌, [], ◌∷◌, List, IsTrue, IfErr, OnOk};
ghost use Rattle.sd_io.specs.Disk.{SameLists};
ghost use Rattle.journal_text.specs.declared.line.Line.{Line};
ghost use Rattle.change_phases.specs.Between.{Work};
ghost use Rattle.change_phases.specs.Phases.{removing, cleared, IsIn};
ghost use Rattle.journal.specs.Keeping.{AreRootPaths, IsSettledIn, KeepsPhase};
ghost use Rattle.sd_course.specs.Course.{course};
ghost use Rattle.journal.specs.Clearing.{HaveFolders, RemovesAt, RemovalFails, RemovesStages, KeepsOrRemoves, AreGone, ClearingFails, LeavesNoMore, ArePutOnMedium, SyncingFails};

use crate::stages::{line_folder, stage_path};
use journal_text::{Journal, Line};
use sd_io::{Disk, DiskFault};
use std::alloc::Global;

/// Removes the journal of a root, and puts the names in the root on the medium.
///
/// On a disk that tells its tree, where each crash leaves the files of some work new, every crash at any moment leaves them
/// new, and the journal with its stages or none. After `Ok` the journal is gone for good.
pub(crate) fn remove_journal<D: Disk>(
    disk: &mut D,
    root: &str,
    journal: &str,
) -> Result<(), DiskFault>
    ensures kept { IsTrue D.tells → (work : Work) (lines : List Line) → AreRootPaths work root.now journal.now → IsSettledIn removing work lines (D.state disk.old)
        → KeepsPhase removing work lines (D.state disk.old) (D.state disk.new) }
    ensures cleared { IsTrue D.tells → (work : Work) (lines : List Line) → AreRootPaths work root.now journal.now → IsSettledIn removing work lines (D.state disk.old)
        → OnOk result (IsIn cleared work lines (D.state disk.new)) }
    ensures tree { IsTrue D.tells → OnOk result (RemovesAt journal.now (D.state disk.old) (D.state disk.new)) }
    ensures fails { IfErr result (RemovalFails (course D.tells (D.state disk.old) (D.state disk.new)) root.now journal.now) }
    ensures lists { SameLists (D.state disk.old) (D.state disk.new) }
    ensures never_falls { (D.state disk.old).faults ≤ (D.state disk.new).faults }
{
    disk.remove(journal)?;
    disk.sync_dir(root)
}

/// Removes the stages of the lines, in order; one at which no regular file stands is passed over.
///
/// On a disk that tells its tree, where the folder of each line's file is one, a crash at any moment leaves anything at the stages, and elsewhere
/// what it could before. After `Ok` no stage stands where a file did.
pub(crate) fn remove_stages<D: Disk>(
    alloc: Global,
    disk: &mut D,
    journal: &Journal,
) -> Result<(), DiskFault>
    ensures removed { IsTrue D.tells → HaveFolders (D.state disk.old).tree journal.now → RemovesStages journal.now (D.state disk.old) (D.state disk.new) }
    ensures gone { IsTrue D.tells → HaveFolders (D.state disk.old).tree journal.now → OnOk result (AreGone journal.now (D.state disk.old) (D.state disk.new)) }
    ensures tree { IsTrue D.tells → KeepsOrRemoves (D.state disk.old).tree (D.state disk.new).tree }
    ensures fails { IfErr result (ClearingFails (course D.tells (D.state disk.old) (D.state disk.new))) }
    ensures lists { SameLists (D.state disk.old) (D.state disk.new) }
    ensures never_falls { (D.state disk.old).faults ≤ (D.state disk.new).faults }
{
    for line in journal.lines() {
        remove_stage(alloc, disk, line)?;
    }
    Ok(())
}

/// Removes one stage, or passes it over where it isn't there.
fn remove_stage<D: Disk>(alloc: Global, disk: &mut D, line: &Line) -> Result<(), DiskFault>
    ensures removed { IsTrue D.tells → HaveFolders (D.state disk.old).tree (line.now ∷ []) → RemovesStages (line.now ∷ []) (D.state disk.old) (D.state disk.new) }
    ensures gone { IsTrue D.tells → HaveFolders (D.state disk.old).tree (line.now ∷ []) → OnOk result (AreGone (line.now ∷ []) (D.state disk.old) (D.state disk.new)) }
    ensures tree { IsTrue D.tells → KeepsOrRemoves (D.state disk.old).tree (D.state disk.new).tree }
    ensures fails { IfErr result (ClearingFails (course D.tells (D.state disk.old) (D.state disk.new))) }
    ensures lists { SameLists (D.state disk.old) (D.state disk.new) }
    ensures never_falls { (D.state disk.old).faults ≤ (D.state disk.new).faults }
{
    let stage = stage_path(alloc, line)?;
    match disk.remove(stage.as_str()) {
        Err(DiskFault::Absent) => Ok(()),
        answer => answer,
    }
}

/// Puts the names in the folder of each line's file on the medium, in order.
///
/// On a disk that tells its tree a crash at any moment leaves no more than before. After `Ok` it leaves in these folders nothing where nothing
/// stands, and each settled file as it stands.
pub(crate) fn sync_folders<D: Disk>(disk: &mut D, journal: &Journal) -> Result<(), DiskFault>
    ensures kept { IsTrue D.tells → LeavesNoMore (D.state disk.old) (D.state disk.new) }
    ensures synced { IsTrue D.tells → HaveFolders (D.state disk.old).tree journal.now → OnOk result (ArePutOnMedium journal.now (D.state disk.old) (D.state disk.new)) }
    ensures fails { IfErr result (SyncingFails (course D.tells (D.state disk.old) (D.state disk.new)) journal.now) }
    ensures lists { SameLists (D.state disk.old) (D.state disk.new) }
    ensures never_falls { (D.state disk.old).faults ≤ (D.state disk.new).faults }
{
    for line in journal.lines() {
        disk.sync_dir(line_folder(line))?;
    }
    Ok(())
}
