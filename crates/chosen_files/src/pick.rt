//! Which of the entries of a walk are picked.

ghost use Rattle.std.specs.Prelude.{◌≡◌, ◌↔◌, ◌≤◌, ℕ, List, IsTrue, IfOk, IfErr};
ghost use Rattle.sd_io.specs.Disk.{SameLists, SameTree};
ghost use Rattle.walk_rest.specs.Errors.{IsRefusedFor};
ghost use Rattle.walk_rest.specs.Plan.{path_below};
ghost use Rattle.chosen_files.specs.Globs.{FitsAny};
ghost use Rattle.chosen_files.specs.Picking.{PicksOn};
ghost use Rattle.chosen_files.specs.Picks.{IsPicked};

use crate::below::{join, names_below};
use glob_match::Glob;
use sd_io::{Disk, NoMemory, Text};
use std::alloc::Global;
use walkdir::{DirEntry, Error, Gathers};

/// The paths that were picked so far of the entries of a walk below a top.
#[derive(Drop)]
pub(crate) struct Picking<'a> {
    /// The root, as it was given.
    pub root: &'a str,
    /// The path of the top, to which the root leads.
    pub top: &'a str,
    /// The globs, one of which has to fit.
    pub globs: &'a [Glob],
    /// Of each entry that was picked the root, and what the entry's path has after the top's.
    pub paths: Vec<Text>,
}

impl Gathers for Picking<'_> {
    ghost gathers = { PicksOn };

    fn gather<D: Disk>(
        &mut self,
        alloc: Global,
        disk: &mut D,
        entry: DirEntry,
    ) -> Result<(), Error> {
        let Some(names) = names_below(self.top, entry.path()) else {
            return Ok(());
        };
        if is_picked(alloc, disk, names, &entry, self.globs)? {
            self.paths.push(join(alloc, self.root, names)?)?;
        }
        Ok(())
    }
}

/// Whether an entry is picked whose path has these names after the top's: it is that of a regular file below the top, the names
/// fit a glob, and it has a byte.
fn is_picked<D: Disk>(
    alloc: Global,
    disk: &mut D,
    names: &str,
    entry: &DirEntry,
    globs: &[Glob],
) -> Result<bool, Error>
    ensures picked { IsTrue D.tells → (top : List ℕ) → entry.now.path ≡ path_below top names.now
        → IfOk result (λ picked. IsTrue picked ↔ IsPicked (D.state disk.old).tree top globs.now entry.now) }
    ensures refused { IfErr result (IsRefusedFor D.tells (D.state disk.old) (D.state disk.new) entry.now) }
    ensures tree { SameTree (D.state disk.old) (D.state disk.new) }
    ensures lists { SameLists (D.state disk.old) (D.state disk.new) }
    ensures faults { (D.state disk.old).faults ≤ (D.state disk.new).faults }
{
    if entry.depth() == 0 || !entry.file_type().is_file() {
        return Ok(false);
    }
    if !fits_any(alloc, globs, names)? {
        return Ok(false);
    }
    let meta = entry.metadata(alloc, disk)?;
    Ok(meta.len > 0)
}

/// Whether a path fits one of the globs.
fn fits_any(alloc: Global, globs: &[Glob], path: &str) -> Result<bool, NoMemory>
    ensures { IfOk result (λ fits. IsTrue fits ↔ FitsAny globs.now path.now) }
{
    for glob in globs {
        if glob.fits(alloc, path)? {
            return Ok(true);
        }
    }
    Ok(false)
}
