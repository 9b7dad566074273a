//! What holds of all calls of a walk together.

ghost use Rattle.std.specs.Prelude.{◌≡◌, ◌≢◌, ◌↔◌, ◌+◌, ◌≤◌, ℕ, Bool, true, IsTrue, All, List, Some, Ok, Err};
ghost use Rattle.sd_io.specs.Count.{HasRisen};
ghost use Rattle.sd_io.specs.Disk.{DiskState};
ghost use Rattle.sd_io.specs.Tree.{Tree};
ghost use Rattle.walk_rest.specs.declared.entry.DirEntry.{DirEntry};
ghost use Rattle.walk_rest.specs.declared.error.Error.TheVariants as error;
ghost use Rattle.walk_rest.specs.declared.options.Options.{Options};
ghost use Rattle.walk_rest.specs.Level.{IsAllowed};
ghost use Rattle.walk_rest.specs.Listing.{IsListing, IsRootPlan, manner_of};
ghost use Rattle.walk_rest.specs.Plan.{Comparison, Item, Plan};
ghost use Rattle.walk_rest.specs.Rest.{Rest, start};
ghost use Rattle.walk_steps.specs.declared.inside.Inside.{Inside};
ghost use Rattle.walk_steps.specs.Causes.{FitsTree, faults_due};
ghost use Rattle.walk_steps.specs.Inside.{HasRest, levels_of};
ghost use Rattle.walk_steps.specs.Listed.{waits_in};
ghost use Rattle.walk_steps.specs.Steps.{IsNextInto, StepsTo};
ghost use Rattle.walkdir.specs.Calls.{Calls, RunsOut, all_below, all_told};
ghost use Rattle.walkdir.specs.Steps.{lies_unread};

use sd_io::Disk;
use walk_rest::Order;

/// The failures of the disk that a walk gave since it began are at most as many as the disk counted, or its count stands at its last value.
pub fn failures_were_counted<D: Disk, S: Order>()
    ensures { (old new : DiskState) (before now : Inside S) (items : List Item) → faults_due (levels_of before) ≡ 0
        → FitsTree D.tells S.compares_by old (S.sorts before.order) before → Calls D.tells S.sorts S.compares_by old before items new now
        → IsAllowed (all_told D.tells items) old.faults new.faults }
{}

/// The entries below the root that a walk gave since it began, with those that it keeps, are at most as many as were listed.
pub fn entries_were_listed<D: Disk, S: Order>()
    ensures { (old new : DiskState) (before now : Inside S) (items : List Item) → waits_in (levels_of before) ≡ 0
        → Calls D.tells S.sorts S.compares_by old before items new now → all_below items + waits_in (levels_of now) + old.listed ≤ new.listed }
{}

/// A step gives the entry of a directory as it enters it exactly where it leaves that unread on top, where `just_entered` looks for it.
pub fn an_entered_directory_lies_unread<S>()
    ensures { (old new : DiskState) (sorts : Bool) (by : Comparison) (rest : Rest) (entry : DirEntry) (now : Inside S)
        → (step : StepsTo old sorts by rest (Some (Ok entry)) new now) → IsNextInto step.is_step.mid ↔ (lies_unread now.top ≡ true) }
{}

/// Calls of `next` down to `None`, with no skip, no failure of the disk and no want of memory, gave the listing of the root.
pub fn calls_give_the_listing<D: Disk, S: Order>()
    ensures { (old new : DiskState) (before now : Inside S) (items : List Item) (by : Comparison) (plan : Plan)
        → IsTrue D.tells → S.compares_by before.order by
        → IsRootPlan old.tree (manner_of old.tree before.options (S.sorts before.order) by before.root) before.root plan
        → HasRest old (S.sorts before.order) by before (start plan)
        → RunsOut D.tells S.sorts S.compares_by old before items new now
        → ¬ HasRisen old.faults new.faults → All (λ (item : Item). item ≢ Err error.NoMemory) items
        → IsListing old.tree before.options (S.sorts before.order) by before.root items }
{}

/// The listing of a root doesn't depend on how many lists may be open.
pub fn each_max_open_has_the_same_listing()
    ensures { (tree : Tree) (how : Options) (most : ℕ) (sorts : Bool) (compare : Comparison) (root : List ℕ) (items : List Item)
        → IsListing tree how sorts compare root items → IsListing tree (record how { max_open = most }) sorts compare root items }
{}
