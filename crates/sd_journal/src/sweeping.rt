//! A command on a tree that is done whole, or not at all.

ghost use Rattle.std.specs.Prelude.{◌≡◌, ◌≤◌, true, IsTrue, IsSome, IfOk, IfErr, IsErrAnd, OnOk, None};
ghost use Rattle.sd_io.specs.Disk.{SameTree};
ghost use Rattle.sd_io.specs.Lists.{directory_of};
ghost use Rattle.sd_io.specs.Paths.{reached};
ghost use Rattle.sd_course.specs.Course.{course, DiskFailed};
ghost use Rattle.change_phases.specs.Between.{Work};
ghost use Rattle.journal.specs.Faults.{WantsMemory};
ghost use Rattle.journal.specs.Clearing.{LeavesNoMore};
ghost use Rattle.journal.specs.Changing.{IsChangeBelow, IsChanged, ExchangesFiles, ChangeFails, IsPending, ComesFirst, HasRoomFor};
ghost use Rattle.journal.specs.Finding.{LeavesLists};
ghost use Rattle.journal.specs.Keeping.{KeepsBetween};
ghost use Rattle.sd_journal.specs.Recover.{Recovers};
ghost use Rattle.sd_journal.specs.Refused.{IsFaultOf};
ghost use Rattle.sd_journal.specs.Sweep.{SweepsJournalled, CountsPlan};
ghost use Rattle.sd_journal.specs.Work as form;

use crate::error::{JournalError, of_change, of_sweep};
use sd_base::{Globs, NoMemory, Text};
use sd_change::Replaces;
use sd_core::{Plan, PlanLine, Report, plan};
use sd_io::Disk;
use std::alloc::Global;

/// Rewrites each chosen file below a root, all of them or none: whatever a crash at any moment leaves, [`recover`] of the same root makes
/// all of them old, or all of them new. The tree is planned first; then the files whose bytes change are changed by a journal in the root. The
/// report counts the plan's lines.
///
/// Refuses `Sweep`, with each file as it was, by the error of a sweep that isn't planned, or where the disk failed before the journal got its
/// name; `Pending` where a journal stands in the root; `TempName` where each reserved name of a folder is taken; and for want of memory. Refuses
/// `Unfinished` from the journal's name on: then the root is to be recovered.
pub fn sweep_journalled<D: Disk, R: Replaces>(
    alloc: Global,
    disk: &mut D,
    root: &str,
    globs: &Globs,
    replacer: &R,
) -> Result<Report, JournalError>
    ensures { SweepsJournalled (R.change replacer.now) root.now globs.now (disk.new ≡ disk.old) result (course D.tells (D.state disk.old) (D.state disk.new)) }
{
    match plan(alloc, disk, root, globs, replacer) {
        Err(refused) => Err(of_sweep(refused)),
        Ok(planned) => change_planned(alloc, disk, root, &planned, replacer),
    }
}

/// Changes the files of a plan whose bytes change, and reports what the plan counts.
fn change_planned<D: Disk, R: Replaces>(
    alloc: Global,
    disk: &mut D,
    root: &str,
    planned: &Plan,
    replacer: &R,
) -> Result<Report, JournalError>
    ensures kept { IsTrue D.tells → (work : Work) → IsChangeBelow (R.change replacer.now) work root.now (form.changed_paths planned.now) (D.state disk.old)
        → KeepsBetween work (D.state disk.old) (D.state disk.new) }
    ensures changed { IsTrue D.tells → (work : Work) → IsChangeBelow (R.change replacer.now) work root.now (form.changed_paths planned.now) (D.state disk.old)
        → OnOk result (IsChanged work (D.state disk.new)) }
    ensures tree { IsTrue D.tells → (work : Work) → IsChangeBelow (R.change replacer.now) work root.now (form.changed_paths planned.now) (D.state disk.old)
        → OnOk result (ExchangesFiles work.files (D.state disk.old).tree (D.state disk.new).tree) }
    ensures no_directory { IsTrue D.tells → directory_of (D.state disk.old).tree root.now ≡ None → OnOk result (SameTree (D.state disk.old) (D.state disk.new)) }
    ensures counted { IfOk result (CountsPlan planned.now) }
    ensures fails { IfErr result (IsFaultOf (ChangeFails (R.change replacer.now) root.now (form.changed_paths planned.now)
        (course D.tells (D.state disk.old) (D.state disk.new)))) }
    ensures pending { IsTrue D.tells → IsPending (D.state disk.old).tree root.now → IsErrAnd result (IsFaultOf ComesFirst) }
    ensures unwritten { IsTrue D.tells → IsPending (D.state disk.old).tree root.now → LeavesNoMore (D.state disk.old) (D.state disk.new) }
    ensures complete { IsTrue D.tells → (work : Work) → IsChangeBelow (R.change replacer.now) work root.now (form.changed_paths planned.now) (D.state disk.old)
        → HasRoomFor (R.change replacer.now) (D.state disk.old).tree root.now (form.changed_paths planned.now)
        → (DiskFailed (course D.tells (D.state disk.old) (D.state disk.new)) → ⊥) → IfErr result (IsFaultOf WantsMemory) }
    ensures elsewhere { IsTrue D.tells → IsSome (reached (D.state disk.old).tree root.now true) → directory_of (D.state disk.old).tree root.now ≡ None
        → (DiskFailed (course D.tells (D.state disk.old) (D.state disk.new)) → ⊥) → IfErr result (IsFaultOf WantsMemory) }
    ensures lists { LeavesLists (D.state disk.old) (D.state disk.new) }
    ensures never_falls { (D.state disk.old).faults ≤ (D.state disk.new).faults }
{
    let paths = changed_paths(alloc, planned.lines())?;
    match journal::change_files(alloc, disk, root, &paths, replacer) {
        Err(fault) => Err(of_change(fault)),
        Ok(()) => Ok(report_of(planned)),
    }
}

/// The paths of the lines whose files change, in order. Refuses for want of memory alone.
fn changed_paths(alloc: Global, lines: &[PlanLine]) -> Result<Vec<Text>, NoMemory>
    ensures { IfOk result (λ paths. paths.items ≡ form.changed_paths lines.now) }
{
    let mut paths = Vec::new(alloc);
    for line in lines {
        if line.changed {
            paths.push(Text::new(alloc, line.path.as_str())?)?;
        }
    }
    Ok(paths)
}

/// What the sweep of a plan does: its lines, those whose files change, and the spans that are replaced in all of them.
fn report_of(planned: &Plan) -> Report
    ensures { CountsPlan planned.now result }
{
    Report {
        chosen: planned.len() as u128,
        changed: planned.changed(),
        replaced: planned.replaced(),
    }
}

/// Recovers a sweep below a root that was cut off or refused once its journal had its name. Answers how many files the journal has, and 0 where
/// none stands, or the root leads to a node that is no directory. May be called again after any refusal.
///
/// Refuses `Sweep` where the root leads to no node, or the disk failed before the first write; `BadJournal`, `StageMissing` and `StageDiffers`
/// where what stands isn't what a sweep wrote; and for want of memory: then nothing was written. Refuses `Unfinished` from then on.
pub fn recover<D: Disk>(alloc: Global, disk: &mut D, root: &str) -> Result<u128, JournalError>
    ensures { Recovers root.now result (course D.tells (D.state disk.old) (D.state disk.new)) }
{
    match journal::recover(alloc, disk, root) {
        Err(fault) => Err(of_change(fault)),
        Ok(files) => Ok(files),
    }
}
