//! Each root has a listing, and its directories lie only so deep in one another.

ghost use Rattle.std.specs.Prelude.{◌≡◌, ◌≤◌, ◌+◌, ◌*◌, ℕ, Bool, List, None};
ghost use Rattle.std.specs.FinMap.{len};
ghost use Rattle.std.specs.declared.cmp.Ordering as ordering;
ghost use Rattle.sd_io.specs.Tree.{Tree, IsTree};
ghost use Rattle.walk_rest.specs.declared.entry.DirEntry as entry;
ghost use Rattle.walk_rest.specs.declared.level.Folder as folder;
ghost use Rattle.walk_rest.specs.declared.options.Options as options;
ghost use Rattle.walk_rest.specs.Plan.{Item, Plan, done, past, into, Manner};
ghost use Rattle.walk_rest.specs.Listing.{IsListing, IsRootPlan};
ghost use Rattle.walk_rest.specs.Existence.{longest_chain};

/// Every path has a plan in every tree, and so a listing: with all options and orders, whatever the path leads to.
pub fn each_root_has_a_listing()
    ensures plan { (tree : Tree) (manner : Manner) (root : List ℕ) → IsTree tree → (plan : Plan) × IsRootPlan tree manner root plan }
    ensures listing { (tree : Tree) (how : options.Options) (sorts : Bool) (compare : entry.DirEntry → entry.DirEntry → ordering.Ordering)
        (root : List ℕ) → IsTree tree → (items : List Item) × IsListing tree how sorts compare root items }
{}

/// By the plan of a root in a tree of n nodes, never more than `(n + 1) * (n + 1)` directories are entered and not left, also
/// where links are followed.
pub fn chains_are_bounded()
    ensures { (tree : Tree) (manner : Manner) (root : List ℕ) (plan : Plan) → IsTree tree → IsRootPlan tree manner root plan
        → longest_chain plan ≤ (len tree.nodes + 1) * (len tree.nodes + 1) }
{}

/// The longest chains of small plans.
pub fn chains_are_as_in_the_examples()
    ensures file { (path : List ℕ) → longest_chain (past path None done) ≡ 0 }
    ensures inside { (a b : folder.Folder) → longest_chain (into a None (into b None done None done) None done) ≡ 2 }
    ensures beside { (a b c : folder.Folder) → longest_chain (into a None (into b None done None (into c None done None done)) None done) ≡ 2 }
{}
