//! How a plan is applied.

ghost use Rattle.std.specs.Prelude.{◌≡◌, ◌≤◌, IsTrue, IfOk, IfErr, OnOk, All, map};
ghost use Rattle.sd_io.specs.Disk.{SameTree, SameLists};
ghost use Rattle.sd_course.specs.Course.{course};
ghost use Rattle.planned_files.specs.Planned.{path_of};
ghost use Rattle.planned_files.specs.Checked.{IsRight, LineFails, CheckFails};
ghost use Rattle.planned_files.specs.Applied.{Applies};

use crate::ApplyFault;
use crate::planning::plan_file;
use many_files::{Report, rewrite_each};
use sd_base::Text;
use sd_change::Replaces;
use sd_io::Disk;
use sd_plan::{Plan, PlanLine};
use std::alloc::Global;

/// Applies a plan. First each planned file is read, in order, and its line checked: a regular file whose bytes have the planned
/// digest stands at its path, and its new bytes have the planned digest. The marks and the counts of the lines aren't checked.
/// Then the files are rewritten in order, each as the one before left it, so a file to which two lines lead is rewritten twice.
/// The report counts the lines, and what was done: the files that were written, and the spans that were replaced.
///
/// Refuses, with nothing written, by the first line whose check fails: `File` with a counted fault, or where no regular file
/// stands at its path; `Stale` where its file's bytes have another digest; `Differs` where the file's new bytes have another
/// digest. Refuses for want of memory, with nothing written. Refuses `Failed` with the jobs where files failed: all others are
/// rewritten, and each job's file is as its fault says.
///
/// On a disk that tells its tree, where no two lines lead to one place, a crash at any moment leaves each planned file as one at
/// entry could have left it, or with its mode and its new bytes; it may leave anything at the reserved names that were free in
/// their folders; and all else as one at entry could have left it. After `Ok` each crash leaves the new bytes of the files whose
/// bytes change, and all else as one at entry could have left it.
pub fn apply_plan<D: Disk, R: Replaces>(
    alloc: Global,
    disk: &mut D,
    plan: &Plan,
    replacer: &R,
) -> Result<Report, ApplyFault>
    ensures { Applies (R.change replacer.now) plan.now result (course D.tells (D.state disk.old) (D.state disk.new)) }
{
    let paths = check_lines(alloc, disk, plan.lines(), replacer)?;
    let report = rewrite_each(alloc, disk, paths, replacer)?;
    Ok(report)
}

/// Checks each line, in order, and gives their paths. Changes nothing.
fn check_lines<D: Disk, R: Replaces>(
    alloc: Global,
    disk: &mut D,
    lines: &[PlanLine],
    replacer: &R,
) -> Result<Vec<Text>, ApplyFault>
    ensures right { IsTrue D.tells → OnOk result (All (IsRight (R.change replacer.now) (D.state disk.old).tree) lines.now) }
    ensures paths { IfOk result (λ paths. paths.items ≡ map path_of lines.now) }
    ensures fails { IfErr result (CheckFails (R.change replacer.now) lines.now (course D.tells (D.state disk.old) (D.state disk.new))) }
    ensures tree { SameTree (D.state disk.old) (D.state disk.new) }
    ensures lists { SameLists (D.state disk.old) (D.state disk.new) }
    ensures never_falls { (D.state disk.old).faults ≤ (D.state disk.new).faults }
{
    let mut paths = Vec::with_capacity(alloc, lines.len())?;
    for line in lines {
        let path = check_line(alloc, disk, line, replacer)?;
        paths.push(path)?;
    }
    Ok(paths)
}

/// Checks a line, and gives its path. Changes nothing.
fn check_line<D: Disk, R: Replaces>(
    alloc: Global,
    disk: &mut D,
    line: &PlanLine,
    replacer: &R,
) -> Result<Text, ApplyFault>
    ensures right { IsTrue D.tells → OnOk result (IsRight (R.change replacer.now) (D.state disk.old).tree line.now) }
    ensures path { IfOk result (λ path. path ≡ line.now.path) }
    ensures fails { IfErr result (LineFails (R.change replacer.now) line.now (course D.tells (D.state disk.old) (D.state disk.new))) }
    ensures tree { SameTree (D.state disk.old) (D.state disk.new) }
    ensures lists { SameLists (D.state disk.old) (D.state disk.new) }
    ensures never_falls { (D.state disk.old).faults ≤ (D.state disk.new).faults }
{
    let path = Text::new(alloc, line.path.as_str())?;
    let found = plan_file(alloc, disk, path, replacer)?;
    if found.before != line.before {
        return Err(ApplyFault::Stale {
            path: found.path,
            planned: line.before,
            found: found.before,
        });
    }
    if found.after != line.after {
        return Err(ApplyFault::Differs {
            path: found.path,
            planned: line.after,
            found: found.after,
        });
    }
    Ok(found.path)
}
