//! The files that a command on a tree works on.

ghost use Rattle.std.specs.Prelude.{◌≡◌, ◌<◌, ◌≤◌, ℕ, List, All, IsTrue, IfOk, IfErr, OnOk};
ghost use Rattle.sd_io.specs.Count.{HasRisen};
ghost use Rattle.sd_io.specs.Disk.{SameTree};
ghost use Rattle.sd_course.specs.Course.{course};
ghost use Rattle.file_rewrite.specs.Paths.{IsNoPath};
ghost use Rattle.chosen_files.specs.Choice.{KeepsLists};
ghost use Rattle.chosen_files.specs.Chosen.{IsPathBelow};
ghost use Rattle.chosen_files.specs.Globs.{IsFirstInvalid, IsValid};
ghost use Rattle.chosen_files.specs.Seen.{ListsOnlySeen};
ghost use Rattle.sd_core.specs.Selection.{by_globs, by_rules, ListsSelected};
ghost use Rattle.sd_core.specs.Sweep.{SelectingFails, IsClear, IsErrOrMemory, may_name_file};

use crate::error::of_choice;
use crate::{Error, Result};
use chosen_files::{choose_capped, choose_kept, read_globs};
use file_rewrite::is_no_path;
use sd_base::Text;
use sd_ignore::Ignore;
use sd_io::{Disk, Globs};
use std::alloc::Global;

/// The paths of the chosen files below a root, where fewer than `cap` entries lie there: of each regular nonempty file whose path
/// from the root fits a glob, in the order of names. Changes nothing.
///
/// Refuses `BadGlob` with the place of the first invalid glob, before the disk is called; `RootMissing` where the root leads to no
/// node; `Walk` with a counted fault; `TooMany` where the cap or more entries lie below the root; and for want of memory.
pub(crate) fn select<D: Disk>(
    alloc: Global,
    disk: &mut D,
    root: &str,
    globs: &Globs,
    cap: u64,
) -> Result<Vec<Text>>
    requires { 0 < cap }
    ensures selected { IsTrue D.tells → IfOk result (λ paths. ListsSelected (by_globs root.now globs.now) (D.state disk.old).tree paths.items) }
    ensures few { IsTrue D.tells → OnOk result ((by_globs root.now globs.now).HasFewer cap (D.state disk.old).tree) }
    ensures below_root { IfOk result (λ paths. All (IsPathBelow root.now) paths.items) }
    ensures named { IfOk result (λ paths. All (λ path. IsNoPath path → ⊥) paths.items) }
    ensures valid { OnOk result (All IsValid globs.now) }
    ensures fails { IfErr result (SelectingFails (by_globs root.now globs.now) cap (course D.tells (D.state disk.old) (D.state disk.new))) }
    ensures bad_glob { (place : ℕ) → IsFirstInvalid globs.now place
        → (disk.new ≡ disk.old) × IsErrOrMemory (Error.BadGlob place) result }
    ensures tree { SameTree (D.state disk.old) (D.state disk.new) }
    ensures lists { KeepsLists 10 (D.state disk.old) (D.state disk.new) }
    ensures never_falls { (D.state disk.old).faults ≤ (D.state disk.new).faults }
    ensures later { (D.state disk.old).listed ≤ (D.state disk.new).listed }
    ensures complete { IsClear (by_globs root.now globs.now) cap (course D.tells (D.state disk.old) (D.state disk.new))
        → IfErr result (λ failed. failed ≡ Error.NoMemory) }
{
    let globs = read_globs(alloc, globs).map_err(of_choice)?;
    let choice = choose_capped(alloc, disk, root, &globs, cap).map_err(of_choice)?;
    Ok(keep_named(choice.paths))
}

/// The same of the files that the rules don't ignore; fewer than `cap` entries lie in the root and in directories below it that aren't
/// ignored. No ignored directory is read.
///
/// Refuses as [`select`] does, `TooMany` where the cap or more such entries lie there.
pub(crate) fn select_kept<D: Disk>(
    alloc: Global,
    disk: &mut D,
    root: &str,
    globs: &Globs,
    rules: &Ignore,
    cap: u64,
) -> Result<Vec<Text>>
    requires { 0 < cap }
    ensures selected { IsTrue D.tells → IfOk result (λ paths. ListsSelected (by_rules root.now globs.now rules.now) (D.state disk.old).tree paths.items) }
    ensures few { IsTrue D.tells → OnOk result ((by_rules root.now globs.now rules.now).HasFewer cap (D.state disk.old).tree) }
    ensures only_seen { IsTrue D.tells → (HasRisen (D.state disk.old).faults (D.state disk.new).faults → ⊥)
        → OnOk result (ListsOnlySeen (D.state disk.old).tree root.now rules.now (D.state disk.old).listed (D.state disk.new).listed) }
    ensures below_root { IfOk result (λ paths. All (IsPathBelow root.now) paths.items) }
    ensures named { IfOk result (λ paths. All (λ path. IsNoPath path → ⊥) paths.items) }
    ensures valid { OnOk result (All IsValid globs.now) }
    ensures fails { IfErr result (SelectingFails (by_rules root.now globs.now rules.now) cap (course D.tells (D.state disk.old) (D.state disk.new))) }
    ensures bad_glob { (place : ℕ) → IsFirstInvalid globs.now place
        → (disk.new ≡ disk.old) × IsErrOrMemory (Error.BadGlob place) result }
    ensures tree { SameTree (D.state disk.old) (D.state disk.new) }
    ensures lists { KeepsLists 10 (D.state disk.old) (D.state disk.new) }
    ensures never_falls { (D.state disk.old).faults ≤ (D.state disk.new).faults }
    ensures complete { IsClear (by_rules root.now globs.now rules.now) cap (course D.tells (D.state disk.old) (D.state disk.new))
        → IfErr result (λ failed. failed ≡ Error.NoMemory) }
{
    let globs = read_globs(alloc, globs).map_err(of_choice)?;
    let choice = choose_kept(alloc, disk, root, &globs, rules, cap).map_err(of_choice)?;
    Ok(keep_named(choice.paths))
}

/// The paths that name a file. On a disk that tells its tree all paths of chosen files do.
fn keep_named(mut paths: Vec<Text>) -> Vec<Text>
    ensures named { All (λ path. IsNoPath path → ⊥) result.items }
    ensures all { All (λ path. IsNoPath path → ⊥) paths.items → result.items ≡ paths.items }
    ensures below { (root : List ℕ) → All (IsPathBelow root) paths.items → All (IsPathBelow root) result.items }
{
    paths.retain(|path| names_file(path.as_str()));
    paths
}

/// Whether a path isn't empty, nor nothing but `/`.
fn names_file(path: &str) -> bool
    ensures { result ≡ may_name_file path.now }
{
    !is_no_path(path)
}
