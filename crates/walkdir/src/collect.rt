//! Collecting the entries of a walk.

ghost use Rattle.std.specs.Prelude.{◌≡◌, ◌+◌, ◌<◌, ◌≤◌, [], false, Some, Err, IfOk, IfErr, IsErrOf};
ghost use Rattle.sd_io.specs.Disk.{SameTree};
ghost use Rattle.walk_steps.specs.Causes.{CountsFaults, FitsTree, faults_told};
ghost use Rattle.walk_steps.specs.Inside.{SameWalk, levels_of};
ghost use Rattle.walk_steps.specs.Listed.{waits_in};
ghost use Rattle.walk_steps.specs.Sound.{IsSound, SameOthers, StaysWithin, open_limit};
ghost use Rattle.walk_steps.specs.Steps.{ByEachRest};
ghost use Rattle.walkdir.specs.Collect.{Collects, IsAll, IsNoLoop, WhyNotAll, WhyNotCollected, below_root};

use sd_io::Disk;
use walk_rest::{DirEntry, Error, Order};
use walk_steps::{Inside, give_up, next_item};

/// All entries of a walk, or its first error, or `TooMany` at the entry below the root with this number. Closes every list that the walk holds.
pub(crate) fn collect<D: Disk, S: Order + Drop>(
    disk: &mut D,
    inside: Inside<S>,
    cap: u64,
) -> Result<Vec<DirEntry>, Error>
    requires sound { IsSound (D.state disk.old) (S.sorts inside.order) inside }
    requires order { S.can_compare inside.order }
    requires cap { 0 < cap }
    ensures { Collects D.tells S.sorts S.compares_by (D.state disk.old) inside cap result (D.state disk.new) }
{
    let mut inside = inside;
    let collected = collect_from(disk, &mut inside, cap);
    give_up(disk, &mut inside);
    collected
}

/// All entries of a walk, or its first error, or `TooMany` at the entry below the root with this number.
fn collect_from<D: Disk, S: Order>(
    disk: &mut D,
    inside: &mut Inside<S>,
    cap: u64,
) -> Result<Vec<DirEntry>, Error>
    requires sound { IsSound (D.state disk.old) (S.sorts inside.old.order) inside.old }
    requires order { S.can_compare inside.old.order }
    requires cap { 0 < cap }
    ensures all { ByEachRest D.tells S.compares_by (D.state disk.old) (S.sorts inside.old.order) inside.old (λ by rest.
        IfOk result (λ entries. IsAll rest entries.items)) }
    ensures few { IfOk result (λ entries. below_root entries.items < cap) }
    ensures capped { IsErrOf result Error.TooMany → cap + (D.state disk.old).listed ≤ waits_in (levels_of inside.old) + (D.state disk.new).listed }
    ensures failed { ByEachRest D.tells S.compares_by (D.state disk.old) (S.sorts inside.old.order) inside.old (λ by rest.
        IfErr result (WhyNotAll rest cap)) }
    ensures first_error { IfErr result (WhyNotCollected D.tells S.sorts S.compares_by (D.state disk.old) inside.old) }
    ensures unlooped { inside.old.options.follow_links ≡ false → IfErr result IsNoLoop }
    ensures counted { FitsTree D.tells S.compares_by (D.state disk.old) (S.sorts inside.old.order) inside.old → IfErr result (λ failed.
        CountsFaults (faults_told D.tells (Some (Err failed))) (D.state disk.old) (levels_of inside.old) (D.state disk.new) (levels_of inside.new)) }
    ensures others { SameOthers (D.state disk.old) (levels_of inside.old) (D.state disk.new) (levels_of inside.new) }
    ensures sound { IsSound (D.state disk.new) (S.sorts inside.new.order) inside.new }
    ensures same { SameWalk inside.old inside.new }
    ensures within { StaysWithin (open_limit inside.old.options) (D.state disk.old) (levels_of inside.old) (D.state disk.new) (levels_of inside.new) }
    ensures tree { SameTree (D.state disk.old) (D.state disk.new) }
    ensures faults { (D.state disk.old).faults ≤ (D.state disk.new).faults }
{
    let mut entries = Vec::new(inside.alloc);
    let mut below = 0u64;
    while let Some(item) = next_item(disk, inside) {
        let entry = item?;
        if entry.depth > 0 {
            below += 1;
            if below == cap {
                return Err(Error::TooMany);
            }
        }
        entries.push(entry)?;
    }
    Ok(entries)
}
