//! The choice of the files that a command on a tree works on.

ghost use Rattle.std.specs.Prelude.{◌≡◌, ◌<◌, ◌≤◌, ℕ, List, true, IsTrue, IsSome, IfOk, IfErr, OnOk, All};
ghost use Rattle.sd_io.specs.Count.{HasRisen};
ghost use Rattle.sd_io.specs.Disk.{SameLists, SameTree};
ghost use Rattle.sd_io.specs.Files.{Resolves};
ghost use Rattle.sd_io.specs.Paths.{reached};
ghost use Rattle.sd_course.specs.Course.{course, DiskFailed};
ghost use Rattle.sd_ignore.specs.declared.rule.Rule.{Rule};
ghost use Rattle.chosen_files.specs.declared.fault.ChoiceFault.TheVariants as choice_fault;
ghost use Rattle.chosen_files.specs.Below.{HasFewerBelow};
ghost use Rattle.chosen_files.specs.Choice.{Chooses, ChoiceFails, KeepFails, KeepsLists};
ghost use Rattle.chosen_files.specs.Chosen.{IsPathBelow, ListsChosen};
ghost use Rattle.chosen_files.specs.Kept.{ListsKept};
ghost use Rattle.chosen_files.specs.Seen.{HasFewerSeen, ListsOnlySeen};

use crate::ChoiceFault;
use crate::left_out::RulesBelow;
use crate::pick::Picking;
use glob_match::Glob;
use sd_ignore::Ignore;
use sd_io::{Disk, DiskFault, Text};
use std::alloc::Global;
use walkdir::{Error, WalkDir};

/// How many lists of directories are open at once at most.
const MOST_LISTS: usize = 10;

/// The files that a command on a tree works on.
#[derive(Drop)]
pub struct Choice {
    /// Their paths: the root as it was given, `/` unless it ends with it, and their names from there, joined by `/`.
    pub paths: Vec<Text>,
}

/// Chooses the regular files below a root that have at least one byte, whose path from the root fits one of the globs, and which
/// the rules don't ignore, in the order of their names. A link below the root is neither followed nor chosen; the root may be
/// one, and is never ignored. No globs choose nothing. On a disk that tells its tree these are chosen and no others, and a
/// directory that is ignored isn't read. At most ten directories are listed at once.
///
/// Refuses `RootMissing`, `Walk` with a counted fault of the disk, `TooMany`, and for want of memory. On a disk that tells its
/// tree `RootMissing` comes exactly where the root leads to no node, and `TooMany` only where the cap or more entries lie below
/// the root in directories that aren't ignored.
pub fn choose_kept<D: Disk>(
    alloc: Global,
    disk: &mut D,
    root: &str,
    globs: &[Glob],
    rules: &Ignore,
    cap: u64,
) -> Result<Choice, ChoiceFault>
    requires { 0 < cap }
    ensures { Chooses root.now globs.now rules.now cap (course D.tells (D.state disk.old) (D.state disk.new)) result }
{
    let top = resolve_root(alloc, disk, root)?;
    let paths = pick_below(alloc, disk, root, top.as_str(), globs, rules, cap)?;
    Ok(Choice { paths })
}

/// Chooses the regular files below a root that have at least one byte and whose path from the root fits one of the globs, in the
/// order of their names, as `choose_kept` does where nothing is ignored, and refuses as that does.
pub fn choose_capped<D: Disk>(
    alloc: Global,
    disk: &mut D,
    root: &str,
    globs: &[Glob],
    cap: u64,
) -> Result<Choice, ChoiceFault>
    requires { 0 < cap }
    ensures chosen { IsTrue D.tells → IfOk result (λ choice. ListsChosen (D.state disk.old).tree root.now globs.now choice.paths.items) }
    ensures below_root { IfOk result (λ choice. All (IsPathBelow root.now) choice.paths.items) }
    ensures few { IsTrue D.tells → OnOk result (HasFewerBelow cap (D.state disk.old).tree root.now) }
    ensures refused { IfErr result (ChoiceFails root.now cap (course D.tells (D.state disk.old) (D.state disk.new))) }
    ensures complete { IsTrue D.tells → IsSome (reached (D.state disk.old).tree root.now true)
        → HasFewerBelow cap (D.state disk.old).tree root.now
        → ¬ DiskFailed (course D.tells (D.state disk.old) (D.state disk.new)) → IfErr result (λ fault. fault ≡ ChoiceFault.NoMemory) }
    ensures tree { SameTree (D.state disk.old) (D.state disk.new) }
    ensures lists { KeepsLists 10 (D.state disk.old) (D.state disk.new) }
    ensures faults { (D.state disk.old).faults ≤ (D.state disk.new).faults }
    ensures later { (D.state disk.old).listed ≤ (D.state disk.new).listed }
{
    choose_kept(alloc, disk, root, globs, &Ignore::new(alloc), cap)
}

/// The path of the node that the root leads to, without links.
fn resolve_root<D: Disk>(alloc: Global, disk: &mut D, root: &str) -> Result<Text, ChoiceFault>
    ensures top { IsTrue D.tells → IfOk result (Resolves (D.state disk.old) root.now) }
    ensures refused { (rules : List Rule) (cap : ℕ) → IfErr result (KeepFails root.now rules cap (course D.tells (D.state disk.old) (D.state disk.new))) }
    ensures tree { SameTree (D.state disk.old) (D.state disk.new) }
    ensures lists { SameLists (D.state disk.old) (D.state disk.new) }
    ensures faults { (D.state disk.old).faults ≤ (D.state disk.new).faults }
{
    match disk.resolve(alloc, root) {
        Ok(top) => Ok(top),
        Err(DiskFault::Absent) => Err(ChoiceFault::RootMissing),
        Err(DiskFault::NoMemory) => Err(ChoiceFault::NoMemory),
        Err(DiskFault::Failed | DiskFault::Taken) => {
            let path = Some(Text::new(alloc, root)?);
            Err(ChoiceFault::Walk(Error::Disk { path, depth: 0 }))
        }
    }
}

/// The paths of the files that are chosen, picked of the entries below the top that the rules don't ignore.
fn pick_below<'x, D: Disk>(
    alloc: Global,
    disk: &mut D,
    root: &'x str,
    top: &'x str,
    globs: &'x [Glob],
    rules: &'x Ignore,
    cap: u64,
) -> Result<Vec<Text>, ChoiceFault>
    requires { 0 < cap }
    ensures kept { IsTrue D.tells → Resolves (D.state disk.old) root.now top.now
        → IfOk result (λ paths. ListsKept (D.state disk.old).tree root.now globs.now rules.now paths.items) }
    ensures below_root { IfOk result (λ paths. All (IsPathBelow root.now) paths.items) }
    ensures few { IsTrue D.tells → Resolves (D.state disk.old) root.now top.now
        → OnOk result (HasFewerSeen cap (D.state disk.old).tree root.now rules.now) }
    ensures listed { IsTrue D.tells → Resolves (D.state disk.old) root.now top.now → ¬ HasRisen (D.state disk.old).faults (D.state disk.new).faults
        → OnOk result (ListsOnlySeen (D.state disk.old).tree root.now rules.now (D.state disk.old).listed (D.state disk.new).listed) }
    ensures refused { (IsTrue D.tells → Resolves (D.state disk.old) root.now top.now)
        → IfErr result (KeepFails root.now rules.now cap (course D.tells (D.state disk.old) (D.state disk.new))) }
    ensures tree { SameTree (D.state disk.old) (D.state disk.new) }
    ensures lists { KeepsLists 10 (D.state disk.old) (D.state disk.new) }
    ensures faults { (D.state disk.old).faults ≤ (D.state disk.new).faults }
    ensures later { (D.state disk.old).listed ≤ (D.state disk.new).listed }
{
    let walk = WalkDir::new(alloc, top)?
        .max_open(MOST_LISTS)
        .sort_by_file_name();
    let mut picking = Picking {
        root,
        top,
        globs,
        paths: Vec::new(alloc),
    };
    let mut begun = walk.into_iter(disk);
    begun.gather(&RulesBelow { top, rules }, &mut picking, cap)?;
    Ok(picking.paths)
}
