//! A tree command that leaves out what rules ignore.

ghost use Rattle.std.specs.Prelude.{◌≡◌};
ghost use Rattle.sd_course.specs.Course.{course};
ghost use Rattle.sd_core.specs.Ignoring.{ReadsRules, SweepsByFile, SweepsKept};

use crate::error::{of_disk, of_files, of_ignore};
use crate::selecting::select_kept;
use crate::sweeping::SWEEP_CAP;
use crate::{Error, Report, Result};
use many_files::rewrite_each;
use sd_change::Replaces;
use sd_ignore::Ignore;
use sd_io::{Disk, Globs};
use std::alloc::Global;

/// Rewrites each chosen file below a root that the rules don't ignore, as [`sweep`](crate::sweep) does without rules. On a disk
/// that tells its tree a directory that is ignored isn't read; all below it is ignored.
///
/// Refuses as [`sweep`](crate::sweep) does; `TooMany` where 2^32 or more entries lie in the root and in directories below it that aren't
/// ignored.
pub fn sweep_ignoring<D: Disk, R: Replaces>(
    alloc: Global,
    disk: &mut D,
    root: &str,
    globs: &Globs,
    rules: &Ignore,
    replacer: &R,
) -> Result<Report>
    ensures { SweepsKept (R.change replacer.now) root.now globs.now rules.now (disk.new ≡ disk.old) result (course D.tells (D.state disk.old) (D.state disk.new)) }
{
    let paths = select_kept(alloc, disk, root, globs, rules, SWEEP_CAP)?;
    rewrite_each(alloc, disk, paths, replacer).map_err(of_files)
}

/// The same under the rules that a file holds, which is read first.
///
/// Refuses as [`sweep_ignoring`] does, and before the globs are looked at `File` with a counted fault, or where no regular file stands
/// at the path; `RulesNotText` where its bytes aren't UTF-8; and `BadRule` with the number of the first bad line.
pub(crate) fn sweep_by_file<D: Disk, R: Replaces>(
    alloc: Global,
    disk: &mut D,
    root: &str,
    globs: &Globs,
    path: &str,
    replacer: &R,
) -> Result<Report>
    ensures { SweepsByFile (R.change replacer.now) root.now globs.now path.now result (course D.tells (D.state disk.old) (D.state disk.new)) }
{
    let rules = rules_of_file(alloc, disk, path)?;
    sweep_ignoring(alloc, disk, root, globs, &rules, replacer)
}

/// The rules that a file holds. Changes nothing.
fn rules_of_file<D: Disk>(alloc: Global, disk: &mut D, path: &str) -> Result<Ignore>
    ensures { ReadsRules path.now result (course D.tells (D.state disk.old) (D.state disk.new)) }
{
    let bytes = disk.read_file(alloc, path).map_err(of_disk)?;
    match str::from_utf8(&bytes) {
        Ok(text) => Ignore::read(alloc, text).map_err(of_ignore),
        Err(_) => Err(Error::RulesNotText),
    }
}
