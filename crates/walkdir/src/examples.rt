//! Examples of what walks are told and give.

ghost use Rattle.std.specs.Prelude.{◌≡◌, ◌∷◌, [], Bool, true, false, List, ℕ, Some, None, Ok};
ghost use Rattle.walk_rest.specs.declared.entry.DirEntry.{DirEntry};
ghost use Rattle.walk_rest.specs.declared.level.Folder.{Folder};
ghost use Rattle.walk_rest.specs.Listing.{first_options};
ghost use Rattle.walk_rest.specs.Plan.{Plan, done, into, past};
ghost use Rattle.walk_rest.specs.Rest.{Part, entered, start};
ghost use Rattle.walkdir.specs.Collect.{IsAll, below_root};
ghost use Rattle.walkdir.specs.Examples.{Gives, SkipsDirectory, has_entered};
ghost use Rattle.walkdir.specs.Filter.{Filters};

use crate::WalkDir;

/// The later of two bounds on depths gives way to the earlier.
pub fn depths_are_as_in_the_examples<S>(
    least: WalkDir<S>,
    greatest: WalkDir<S>,
) -> (WalkDir<S>, WalkDir<S>)
    requires first { (least.options ≡ first_options) × (greatest.options ≡ first_options) }
    ensures least { result.0.options ≡ record first_options { min_depth = 5; max_depth = 5 } }
    ensures greatest { result.1.options ≡ record first_options { min_depth = 3; max_depth = 3 } }
{
    (
        least.min_depth(5).max_depth(3),
        greatest.max_depth(3).min_depth(5),
    )
}

/// A filter that refuses a directory gives what comes after it, whatever lies in it; one that refuses a file gives the entry after it.
pub fn filters_are_as_in_the_examples()
    ensures directory { (root : Part) (top folder : Folder) (refused given : DirEntry) (contents : Plan) (path : List ℕ) (keeps : DirEntry → Bool)
        → keeps refused ≡ false → keeps given ≡ true
        → Filters Gives has_entered SkipsDirectory (λ entry answer. answer ≡ keeps entry)
        (false, root ∷ entered top (into folder (Some (Ok refused)) contents None (past path (Some (Ok given)) done)) ∷ [])
        (Some (Ok given)) (false, root ∷ entered top done ∷ []) }
    ensures file { (root : Part) (top : Folder) (refused given : DirEntry) (path other : List ℕ) (keeps : DirEntry → Bool)
        → keeps refused ≡ false → keeps given ≡ true
        → Filters Gives has_entered SkipsDirectory (λ entry answer. answer ≡ keeps entry)
        (false, root ∷ entered top (past path (Some (Ok refused)) (past other (Some (Ok given)) done)) ∷ [])
        (Some (Ok given)) (false, root ∷ entered top done ∷ []) }
{}

/// Collecting the walk of a file gives its entry, and the root counts for no cap.
pub fn collections_are_as_in_the_examples()
    ensures all { (path : List ℕ) (entry : DirEntry) → IsAll (start (past path (Some (Ok entry)) done)) (entry ∷ []) }
    ensures below { (root inner deeper : DirEntry) → root.depth ≡ 0 → inner.depth ≡ 1 → deeper.depth ≡ 2 → below_root (root ∷ inner ∷ deeper ∷ []) ≡ 2 }
{}
