//! How files are planned.

ghost use Rattle.std.specs.Prelude.{◌≡◌, ◌≢◌, ◌≤◌, ◌^◌, [], false, IsTrue, IfOk, IfErr, All};
ghost use Rattle.sd_io.specs.Disk.{SameTree, SameLists};
ghost use Rattle.sd_course.specs.Course.{course};
ghost use Rattle.planned_files.specs.Planned.{BecomesLine, IsLineOf, IsUnreadBy, Plans};

use file_rewrite::file_change;
use sd_base::{NoMemory, Text};
use sd_change::{Replaces, Rewritten};
use sd_io::{Disk, DiskFault};
use sd_plan::{Plan, PlanLine, digest};
use std::alloc::Global;

/// The plan of the files that the paths lead to, links followed: a line for each, in their order. Reads each file, and changes
/// nothing.
///
/// Refuses at the first file that isn't read: with a counted fault, or where no regular file stands at its path; and for want of
/// memory. Where all are regular files and no fault is counted, it refuses for want of memory alone.
pub fn plan_files<D: Disk, R: Replaces>(
    alloc: Global,
    disk: &mut D,
    paths: Vec<Text>,
    replacer: &R,
) -> Result<Plan, DiskFault>
    requires { All (λ path. path ≢ []) paths.items }
    ensures { Plans (R.change replacer.now) paths.items result (course D.tells (D.state disk.old) (D.state disk.new)) }
{
    let mut plan = Plan::new(alloc);
    for path in paths {
        let line = plan_file(alloc, disk, path, replacer)?;
        plan.push(line)?;
    }
    Ok(plan)
}

/// The line of the regular file that a path leads to. Reads it, and changes nothing.
///
/// Refuses with a counted fault, or where no regular file stands at the path; and for want of memory.
pub(crate) fn plan_file<D: Disk, R: Replaces>(
    alloc: Global,
    disk: &mut D,
    path: Text,
    replacer: &R,
) -> Result<PlanLine, DiskFault>
    ensures line { IsTrue D.tells → IfOk result (IsLineOf (R.change replacer.now) (D.state disk.old).tree path) }
    ensures path { IfOk result (λ line. line.path ≡ path) }
    ensures unchanged { IfOk result (λ line. line.changed ≡ false → line.before ≡ line.after) }
    ensures few { IfOk result (λ line. line.replaced ≤ 2 ^ 64) }
    ensures cause { IfErr result (IsUnreadBy (course D.tells (D.state disk.old) (D.state disk.new)) path) }
    ensures tree { SameTree (D.state disk.old) (D.state disk.new) }
    ensures lists { SameLists (D.state disk.old) (D.state disk.new) }
    ensures never_falls { (D.state disk.old).faults ≤ (D.state disk.new).faults }
{
    let bytes = disk.read_file(alloc, path.as_str())?;
    let line = line_of(path, bytes, replacer)?;
    Ok(line)
}

/// The line of a file with these bytes. Refuses for want of memory alone.
fn line_of<R: Replaces>(path: Text, bytes: Vec<u8>, replacer: &R) -> Result<PlanLine, NoMemory>
    ensures line { IfOk result (BecomesLine (R.change replacer.now) bytes.items) }
    ensures path { IfOk result (λ line. line.path ≡ path) }
    ensures unchanged { IfOk result (λ line. line.changed ≡ false → line.before ≡ line.after) }
    ensures few { IfOk result (λ line. line.replaced ≤ 2 ^ 64) }
{
    let before = digest(&bytes);
    match file_change(replacer, bytes)? {
        Rewritten::Same { count, .. } => Ok(PlanLine {
            before,
            after: before,
            changed: false,
            replaced: count,
            path,
        }),
        Rewritten::Other(other) => Ok(PlanLine {
            before,
            after: digest(&other.new_bytes),
            changed: true,
            replaced: other.count,
            path,
        }),
    }
}
