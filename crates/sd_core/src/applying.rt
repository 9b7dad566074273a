//! The applying of a plan.

ghost use Rattle.std.specs.Prelude.{◌≡◌};
ghost use Rattle.sd_course.specs.Course.{course};
ghost use Rattle.sd_core.specs.Apply.{AppliesFile, AppliesLines, ReadsPlan};

use crate::error::{of_apply, of_disk, of_plan};
use crate::{Report, Result};
use sd_change::Replaces;
use sd_io::Disk;
use sd_plan::{Plan, read_plan};
use std::alloc::Global;

/// Does exactly what a plan says: each of its files is what it was when the plan was made, and gets the new bytes that were planned.
/// All files are read and looked at before the first write. Then each is rewritten in turn; one that fails is a job, and the others
/// go on. The report counts the lines, the files that were rewritten and the spans that were replaced in them.
///
/// Refuses, with the tree as it was, `File` with a counted fault, or where no regular file stands at a line's path; `Stale` where
/// the first line that is wrong has another digest of its file's bytes, `Differs` where it has another of its new bytes; and for
/// want of memory. Refuses `FailedProcessing` with the jobs where files failed: all others are rewritten.
pub fn apply_plan<D: Disk, R: Replaces>(
    alloc: Global,
    disk: &mut D,
    plan: &Plan,
    replacer: &R,
) -> Result<Report>
    ensures { AppliesLines (R.change replacer.now) plan.now result (course D.tells (D.state disk.old) (D.state disk.new)) }
{
    planned_files::apply_plan(alloc, disk, plan, replacer).map_err(of_apply)
}

/// Applies the plan that a file holds. The file is read before those of the plan.
///
/// Refuses as [`apply_plan`], `File` also with a counted fault of the reading, or where no regular file stands at the path, and
/// `NotAPlan` where its bytes are the text of no plan.
pub(crate) fn apply_file<D: Disk, R: Replaces>(
    alloc: Global,
    disk: &mut D,
    path: &str,
    replacer: &R,
) -> Result<Report>
    ensures { AppliesFile (R.change replacer.now) path.now result (course D.tells (D.state disk.old) (D.state disk.new)) }
{
    let plan = plan_of_file(alloc, disk, path)?;
    apply_plan(alloc, disk, &plan, replacer)
}

/// The plan that a file holds. Changes nothing.
fn plan_of_file<D: Disk>(alloc: Global, disk: &mut D, path: &str) -> Result<Plan>
    ensures { ReadsPlan path.now result (course D.tells (D.state disk.old) (D.state disk.new)) }
{
    let text = disk.read_file(alloc, path).map_err(of_disk)?;
    read_plan(alloc, &text).map_err(of_plan)
}
