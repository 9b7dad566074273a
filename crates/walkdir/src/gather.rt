//! Gathering the entries of a walk as they come, but for some that are left out with what lies below them.

ghost use Rattle.std.specs.Prelude.{◌≡◌, ◌+◌, ◌<◌, ◌≤◌, ℕ, List, [], map, Bool, false, Some, Err, IsTrue, IfOk, IfErr, OnOk, IsErrOf, OnSome};
ghost use Rattle.std.specs.Bool.{MatchBool};
ghost use Rattle.sd_io.specs.Count.{HasRisen};
ghost use Rattle.sd_io.specs.Disk.{SameLists, SameTree};
ghost use Rattle.sd_io.specs.Tree.{Tree};
ghost use Rattle.walk_rest.specs.declared.entry.DirEntry as entry_type;
ghost use Rattle.walk_rest.specs.declared.entry.DirEntry.{DirEntry};
ghost use Rattle.walk_rest.specs.Errors.{IsRefusedFor};
ghost use Rattle.walk_steps.specs.Causes.{CountsFaults, faults_told};
ghost use Rattle.walk_steps.specs.Inside.{levels_of};
ghost use Rattle.walk_steps.specs.Listed.{GivesListed, waits_in};
ghost use Rattle.walk_steps.specs.Sound.{IsSound, KeepsWalk};
ghost use Rattle.walk_steps.specs.Steps.{ByEachRest};
ghost use Rattle.walk_steps.specs.Work.{left_to_do};
ghost use Rattle.walkdir.specs.Collect.{IsNoLoop, entry_item};
ghost use Rattle.walkdir.specs.Gather.{FitsPlain, Gathered, GathersAll, GathersWalk, GoesTo, IsNextError, IsPlainRest, ListsWhole, WhyNotGathered};
ghost use Rattle.walkdir.specs.Gather.{below_by, to_list_rest, told_by};

use crate::into_iter::lies_unread;
use sd_base::NoMemory;
use sd_io::Disk;
use std::alloc::Global;
use walk_rest::{DirEntry, Error, Order};
use walk_steps::{Inside, give_up, next_item, skip_top};

/// What a walk leaves out.
pub trait Prunes {
    /// Whether it leaves an entry out.
    ghost leaves_out: { Self → DirEntry → Bool };

    /// Whether an entry is left out, and with it what lies below it. Refuses for want of memory alone.
    fn leaves_out(&self, alloc: Global, entry: &DirEntry) -> Result<bool, NoMemory>
        ensures { IfOk result (λ out. out ≡ leaves_out self.now entry.now) };
}

/// What gathers the entries of a walk, each as it comes.
pub trait Gathers {
    /// What an entry makes of it, on a disk of this tree, which tells it or doesn't.
    ghost gathers: { Bool → Tree → Self → DirEntry → Self → Type 0 };

    /// Gathers an entry. It may ask the disk about it. Refuses what such a question does: with a counted fault, where the entry's
    /// path leads nowhere, and for want of memory.
    fn gather<D: Disk>(&mut self, alloc: Global, disk: &mut D, entry: DirEntry) -> Result<(), Error>
        ensures gathers { OnOk result (gathers D.tells (D.state disk.old).tree self.old entry self.new) }
        ensures refused { IfErr result (IsRefusedFor D.tells (D.state disk.old) (D.state disk.new) entry) }
        ensures tree { SameTree (D.state disk.old) (D.state disk.new) }
        ensures lists { SameLists (D.state disk.old) (D.state disk.new) }
        ensures faults { (D.state disk.old).faults ≤ (D.state disk.new).faults };
}

/// Gathers the entries of a walk that aren't left out, up to its first error, or `TooMany` at the entry below the root with this number that it
/// comes to. Closes every list that the walk holds, and ends it.
pub(crate) fn gather<D: Disk, S: Order, P: Prunes, G: Gathers>(
    disk: &mut D,
    inside: &mut Inside<S>,
    prune: &P,
    gatherer: &mut G,
    cap: u64,
) -> Result<(), Error>
    requires sound { IsSound (D.state disk.old) (S.sorts inside.old.order) inside.old }
    requires order { S.can_compare inside.old.order }
    requires cap { 0 < cap }
    ensures gathers { GathersWalk D.tells S.sorts S.compares_by (P.leaves_out prune.now) G.gathers (D.state disk.old) inside.old cap result (D.state disk.new) gatherer.old gatherer.new }
    ensures gone { levels_of inside.new ≡ [] }
{
    let gathered = gather_from(disk, inside, prune, gatherer, cap);
    give_up(disk, inside);
    gathered
}

/// Gathers the entries of a walk that aren't left out, up to its first error, or `TooMany` at the entry below the root with this number that it
/// comes to.
fn gather_from<D: Disk, S: Order, P: Prunes, G: Gathers>(
    disk: &mut D,
    inside: &mut Inside<S>,
    prune: &P,
    gatherer: &mut G,
    cap: u64,
) -> Result<(), Error>
    requires sound { IsSound (D.state disk.old) (S.sorts inside.old.order) inside.old }
    requires order { S.can_compare inside.old.order }
    requires cap { 0 < cap }
    ensures all { ByEachRest D.tells S.compares_by (D.state disk.old) (S.sorts inside.old.order) inside.old (λ by rest. IsPlainRest rest
        → OnOk result (GathersAll (P.leaves_out prune.now) (G.gathers D.tells (D.state disk.old).tree) rest cap gatherer.old gatherer.new)) }
    ensures some { OnOk result ((entries : List entry_type.DirEntry) × Gathered (G.gathers D.tells (D.state disk.old).tree) gatherer.old (map entry_item entries) gatherer.new) }
    ensures listed { ByEachRest D.tells S.compares_by (D.state disk.old) (S.sorts inside.old.order) inside.old (λ by rest. IsPlainRest rest
        → (count : ℕ) → ListsWhole D.tells S.compares_by (D.state disk.old) (S.sorts inside.old.order) inside.old count
        → ¬ HasRisen (D.state disk.old).faults (D.state disk.new).faults
        → OnOk result ((D.state disk.new).listed ≡ (D.state disk.old).listed + (count + to_list_rest (P.leaves_out prune.now) rest))) }
    ensures failed { ByEachRest D.tells S.compares_by (D.state disk.old) (S.sorts inside.old.order) inside.old (λ by rest. IsPlainRest rest
        → IfErr result (WhyNotGathered (P.leaves_out prune.now) (D.state disk.old) rest cap)) }
    ensures sound { IsSound (D.state disk.new) (S.sorts inside.new.order) inside.new }
    ensures keeps { KeepsWalk (D.state disk.old) inside.old (D.state disk.new) inside.new }
    ensures capped { IsErrOf result Error.TooMany → cap + (D.state disk.old).listed ≤ waits_in (levels_of inside.old) + (D.state disk.new).listed }
    ensures unlooped { inside.old.options.follow_links ≡ false → IfErr result IsNoLoop }
    ensures counted { FitsPlain D.tells S.compares_by (D.state disk.old) (S.sorts inside.old.order) inside.old → IfErr result (λ failed.
        CountsFaults (faults_told D.tells (Some (Err failed))) (D.state disk.old) (levels_of inside.old) (D.state disk.new) (levels_of inside.new)) }
{
    let mut below = 0u64;
    while let Some((entry, out)) = next_judged(disk, inside, prune)? {
        if entry.depth > 0 {
            below += 1;
            if below == cap {
                return Err(Error::TooMany);
            }
        }
        gather_unless(out, inside.alloc, disk, gatherer, entry)?;
    }
    Ok(())
}

/// Gathers an entry, unless it is left out.
fn gather_unless<D: Disk, G: Gathers>(
    out: bool,
    alloc: Global,
    disk: &mut D,
    gatherer: &mut G,
    entry: DirEntry,
) -> Result<(), Error>
    ensures gathers { OnOk result (MatchBool out (gatherer.new ≡ gatherer.old) (G.gathers D.tells (D.state disk.old).tree gatherer.old entry gatherer.new)) }
    ensures refused { IfErr result (IsRefusedFor D.tells (D.state disk.old) (D.state disk.new) entry) }
    ensures tree { SameTree (D.state disk.old) (D.state disk.new) }
    ensures lists { SameLists (D.state disk.old) (D.state disk.new) }
    ensures faults { (D.state disk.old).faults ≤ (D.state disk.new).faults }
{
    if out {
        return Ok(());
    }
    gatherer.gather(alloc, disk, entry)
}

/// The next entry of a walk, and whether it is left out; `None` where nothing is left. A directory that is left out isn't read.
fn next_judged<D: Disk, S: Order, P: Prunes>(
    disk: &mut D,
    inside: &mut Inside<S>,
    prune: &P,
) -> Result<Option<(DirEntry, bool)>, Error>
    requires sound { IsSound (D.state disk.old) (S.sorts inside.old.order) inside.old }
    requires order { S.can_compare inside.old.order }
    ensures goes { ByEachRest D.tells S.compares_by (D.state disk.old) (S.sorts inside.old.order) inside.old (λ by rest. IsPlainRest rest
        → GoesTo (P.leaves_out prune.now) (S.sorts inside.old.order) by rest result (D.state disk.new) inside.new) }
    ensures listed { (count : ℕ) → ListsWhole D.tells S.compares_by (D.state disk.old) (S.sorts inside.old.order) inside.old count
        → ¬ HasRisen (D.state disk.old).faults (D.state disk.new).faults
        → OnOk result ((D.state disk.new).listed ≡ (D.state disk.old).listed + count) }
    ensures sound { IsSound (D.state disk.new) (S.sorts inside.new.order) inside.new }
    ensures keeps { KeepsWalk (D.state disk.old) inside.old (D.state disk.new) inside.new }
    ensures less { IfOk result (λ given. OnSome given (left_to_do (D.state disk.new) inside.new < left_to_do (D.state disk.old) inside.old)) }
    ensures counted { FitsPlain D.tells S.compares_by (D.state disk.old) (S.sorts inside.old.order) inside.old
        → CountsFaults (told_by D.tells result) (D.state disk.old) (levels_of inside.old) (D.state disk.new) (levels_of inside.new) }
    ensures listed_each { GivesListed (below_by result) (D.state disk.old) (levels_of inside.old) (D.state disk.new) (levels_of inside.new) }
    ensures named { IfErr result (IsNextError inside.old.options.follow_links) }
{
    let Some(item) = next_item(disk, inside) else {
        return Ok(None);
    };
    let entry = item?;
    let out = prune.leaves_out(inside.alloc, &entry)?;
    if out && entry.kind.is_dir() && lies_unread(&inside.top) {
        skip_top(disk, inside);
    }
    Ok(Some((entry, out)))
}
