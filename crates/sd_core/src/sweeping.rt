//! A tree command on a disk.

ghost use Rattle.std.specs.Prelude.{◌≡◌, ◌<◌};
ghost use Rattle.sd_course.specs.Course.{course};
ghost use Rattle.sd_core.specs.Selection.{by_globs};
ghost use Rattle.sd_core.specs.Sweep.{Sweeps, sweep_cap};

use crate::error::of_files;
use crate::selecting::select;
use crate::{Report, Result};
use many_files::rewrite_each;
use sd_change::Replaces;
use sd_io::{Disk, Globs};
use std::alloc::Global;

/// As many entries below a root as this, or more, are too many for [`sweep`].
pub(crate) const SWEEP_CAP: u64 = 1 << 32;

/// Rewrites each chosen file below a root, where fewer than `cap` entries lie there: each regular nonempty file whose path from
/// the root fits a glob, in the order of names. A file that fails is a job, and the others go on. The path of a job is the root
/// as it was given, `/` unless it ends with it, and the file's names from there, joined by `/`.
///
/// Refuses, with the tree as it was, `BadGlob` with the place of the first invalid glob, before the disk is called;
/// `RootMissing` where the root leads to no node; `Walk` with a counted fault; `TooMany` where the cap or more entries lie
/// below the root; and for want of memory. Refuses `FailedProcessing` with the jobs where files failed: on a disk that tells its
/// tree all others are rewritten.
///
/// On a disk that tells its tree a crash at any moment leaves each chosen file as one at entry could have left it, or with its
/// mode and its new bytes; it may leave anything at the reserved names that were free in their folders; and all else as one at
/// entry could have left it. After `Ok` each crash leaves the new bytes of the chosen files whose bytes change, and all else as
/// one at entry could have left it.
pub fn sweep_capped<D: Disk, R: Replaces>(
    alloc: Global,
    disk: &mut D,
    root: &str,
    globs: &Globs,
    replacer: &R,
    cap: u64,
) -> Result<Report>
    requires { 0 < cap }
    ensures { Sweeps (R.change replacer.now) (by_globs root.now globs.now) cap (disk.new ≡ disk.old) result (course D.tells (D.state disk.old) (D.state disk.new)) }
{
    let paths = select(alloc, disk, root, globs, cap)?;
    rewrite_each(alloc, disk, paths, replacer).map_err(of_files)
}

/// [`sweep_capped`] for trees with fewer than 2^32 entries below the root.
pub fn sweep<D: Disk, R: Replaces>(
    alloc: Global,
    disk: &mut D,
    root: &str,
    globs: &Globs,
    replacer: &R,
) -> Result<Report>
    ensures { Sweeps (R.change replacer.now) (by_globs root.now globs.now) sweep_cap (disk.new ≡ disk.old) result (course D.tells (D.state disk.old) (D.state disk.new)) }
{
    sweep_capped(alloc, disk, root, globs, replacer, SWEEP_CAP)
}
