//! The plan of a tree.

ghost use Rattle.std.specs.Prelude.{◌≡◌};
ghost use Rattle.sd_course.specs.Course.{course};
ghost use Rattle.sd_core.specs.Plan.{PlansTree};
ghost use Rattle.sd_core.specs.Selection.{by_globs};
ghost use Rattle.sd_core.specs.Sweep.{sweep_cap};

use crate::Result;
use crate::error::of_disk;
use crate::selecting::select;
use crate::sweeping::SWEEP_CAP;
use planned_files::plan_files;
use sd_change::Replaces;
use sd_io::{Disk, Globs};
use sd_plan::Plan;
use std::alloc::Global;

/// The plan of what [`sweep`](crate::sweep) would do: a line for each chosen file, in the order of names, with its path from the
/// root as it was given, the digests of its bytes and of its new bytes, whether these differ, and how many spans would be
/// replaced. Each file is read, and nothing is changed.
///
/// Refuses `BadGlob` with the place of the first invalid glob, before the disk is called; `RootMissing` where the root leads to no
/// node; `Walk` and `File` with a counted fault; `TooMany` where 2^32 or more entries lie below the root; and for want of memory.
pub fn plan<D: Disk, R: Replaces>(
    alloc: Global,
    disk: &mut D,
    root: &str,
    globs: &Globs,
    replacer: &R,
) -> Result<Plan>
    ensures { PlansTree (R.change replacer.now) (by_globs root.now globs.now) sweep_cap (disk.new ≡ disk.old) result (course D.tells (D.state disk.old) (D.state disk.new)) }
{
    let paths = select(alloc, disk, root, globs, SWEEP_CAP)?;
    plan_files(alloc, disk, paths, replacer).map_err(of_disk)
}
