//! The recovery of a change that was cut off.

ghost use Rattle.std.specs.Prelude.{◌≡◌, ◌≤◌, ◌⊎◌, ◌↔◌, List, ◌++◌, ◌∷◌, [], true, IsTrue, IsSome, Some, None, IfOk, IfErr, OnOk};
ghost use Rattle.sd_io.specs.Count.{HasRisen};
ghost use Rattle.sd_io.specs.Tree.{NameList, node_at};
ghost use Rattle.sd_io.specs.Disk.{SameTree, SameLists};
ghost use Rattle.sd_io.specs.Paths.{reached};
ghost use Rattle.sd_io.specs.Lists.{directory_of};
ghost use Rattle.sd_course.specs.Course.{course};
ghost use Rattle.journal_text.specs.declared.line.Line.{Line};
ghost use Rattle.change_phases.specs.Between.{Work, AllOld, AllNew, journal_name};
ghost use Rattle.journal.specs.Faults.{WantsMemory};
ghost use Rattle.journal.specs.Keeping.{KeepsBetween};
ghost use Rattle.journal.specs.Clearing.{LeavesNoMore};
ghost use Rattle.journal.specs.Finding.{LeavesLists};
ghost use Rattle.journal.specs.Reading.{JournalStands};
ghost use Rattle.journal.specs.Recovering.{MayRecover, IsMisread, IsRecovered, IsCarriedOut, RecoverFails, IsBeforeWriting, HaveFreeNames, RootFails};

use crate::JournalFault;
use crate::finishing::finish;
use crate::reading::read_in_root;
use sd_io::{Disk, DiskFault};
use std::alloc::Global;

/// The name under which the journal of a change stands in its root.
pub(crate) const JOURNAL_NAME: &str = ".sd-journal";

/// Recovers the change of files below a root that was cut off or refused once its journal had its name: reads the journal and all
/// stages, and then puts each file in place, removes the journal and its stages. Answers how many files the journal has, and 0 where none
/// stands, or the root leads to a node that is no directory. May be called again after any refusal.
///
/// Refuses `RootMissing` where the root leads to no node; `BadJournal` where what stands in the journal's place is no regular file with the text of
/// one; `StageMissing` or `StageDiffers` at the first line whose stage is no regular file, or has another digest; and `Unfinished` where a step that
/// writes was refused. `File` comes with a counted fault alone. After every refusal but `Unfinished` nothing was written.
///
/// On a disk that tells its tree, whatever a crash left of a change, or a refusal, or any number of recoveries that were cut off: every image
/// that a crash at any moment leaves is between old and new again; after `Ok` all files are old or all are new, each with its mode; and it
/// never answers `BadJournal`, `StageMissing` or `StageDiffers`.
pub fn recover<D: Disk>(alloc: Global, disk: &mut D, root: &str) -> Result<u128, JournalFault>
    ensures kept { IsTrue D.tells → (work : Work) → MayRecover work root.now (D.state disk.old) → KeepsBetween work (D.state disk.old) (D.state disk.new) }
    ensures recovered { IsTrue D.tells → (work : Work) → MayRecover work root.now (D.state disk.old)
        → OnOk result (AllOld work (D.state disk.new).tree ⊎ AllNew work (D.state disk.new).tree) }
    ensures carried_out { IsTrue D.tells → (work : Work) → MayRecover work root.now (D.state disk.old) → (lines : List Line)
        → JournalStands (D.state disk.old).tree root.now lines → OnOk result (IsCarriedOut work lines (D.state disk.new)) }
    ensures readable { IsTrue D.tells → (work : Work) → MayRecover work root.now (D.state disk.old) → IfErr result (λ fault. IsMisread fault → ⊥) }
    ensures answer { IsTrue D.tells → IfOk result (λ count. IsRecovered (D.state disk.old) root.now count (D.state disk.new)) }
    ensures fails { IfErr result (RecoverFails (course D.tells (D.state disk.old) (D.state disk.new)) root.now) }
    ensures unwritten { IsTrue D.tells → IfErr result (λ fault. IsBeforeWriting fault → LeavesNoMore (D.state disk.old) (D.state disk.new)) }
    ensures gone { IsTrue D.tells → (folder : NameList) → reached (D.state disk.old).tree root.now true ≡ Some folder
        → OnOk result (node_at (D.state disk.new).tree (folder ++ journal_name ∷ []) ≡ None) }
    ensures complete { IsTrue D.tells → (work : Work) → MayRecover work root.now (D.state disk.old) → HaveFreeNames work (D.state disk.old).tree
        → (HasRisen (D.state disk.old).faults (D.state disk.new).faults → ⊥) → IfErr result WantsMemory }
    ensures lists { LeavesLists (D.state disk.old) (D.state disk.new) }
    ensures never_falls { (D.state disk.old).faults ≤ (D.state disk.new).faults }
{
    if !is_directory(disk, root)? {
        return Ok(0);
    }
    disk.sync_dir(root)?;
    let Some(standing) = read_in_root(alloc, disk, root)? else {
        return Ok(0);
    };
    let path = standing.path.as_str();
    finish(alloc, disk, root, path, &standing.journal).map_err(JournalFault::Unfinished)?;
    Ok(standing.journal.len() as u128)
}

/// Whether a root leads to a directory. Refuses `RootMissing` where it leads to no node.
pub(crate) fn is_directory<D: Disk>(disk: &mut D, root: &str) -> Result<bool, JournalFault>
    ensures kind { IsTrue D.tells → IfOk result (λ is. IsTrue is ↔ IsSome (directory_of (D.state disk.old).tree root.now)) }
    ensures leads { IsTrue D.tells → OnOk result (IsSome (reached (D.state disk.old).tree root.now true)) }
    ensures fails { IfErr result (RootFails (course D.tells (D.state disk.old) (D.state disk.new)) root.now) }
    ensures tree { SameTree (D.state disk.old) (D.state disk.new) }
    ensures lists { SameLists (D.state disk.old) (D.state disk.new) }
    ensures never_falls { (D.state disk.old).faults ≤ (D.state disk.new).faults }
{
    match disk.stat(root, true) {
        Ok(meta) => Ok(meta.kind.is_dir()),
        Err(DiskFault::Absent) => Err(JournalFault::RootMissing),
        Err(fault) => Err(JournalFault::from(fault)),
    }
}
