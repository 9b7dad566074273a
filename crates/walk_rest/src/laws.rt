//! What holds of every listing.

ghost use Rattle.std.specs.Prelude.{◌≡◌, ◌++◌, ◌∷◌, [], ℕ, Bool, List, Some, None};
ghost use Rattle.std.specs.Cmp.{IsTotalOrder};
ghost use Rattle.std.specs.List.Sorted.{IsSorted, IsStable};
ghost use Rattle.sd_io.specs.Tree.{Tree, IsName, name_cmp};
ghost use Rattle.sd_io.specs.declared.meta.RawEntry.{RawEntry};
ghost use Rattle.walk_rest.specs.Names.{by_file_name};
ghost use Rattle.walk_rest.specs.declared.entry.DirEntry.{DirEntry};
ghost use Rattle.walk_rest.specs.declared.options.Options.{Options};
ghost use Rattle.walk_rest.specs.declared.level.Folder.{Folder};
ghost use Rattle.walk_rest.specs.declared.level.Level.{Level};
ghost use Rattle.walk_rest.specs.declared.level.Due.{Due};
ghost use Rattle.walk_rest.specs.declared.level.Entries.TheVariants as entries;
ghost use Rattle.walk_rest.specs.Plan.{Comparison, Item, Plan, Manner, IsPlan, IsContents, entry_below, sorted};
ghost use Rattle.walk_rest.specs.Rest.{Rest, Part, Runs, start, entered};
ghost use Rattle.walk_rest.specs.Level.{HasParts, chain_above, ReadsFolder, ReadsPart, SkipsTo, AllSameReads, IsOpenEntries, KeepsList, CutsTo};
ghost use Rattle.sd_io.specs.Disk.{DiskState};
ghost use Rattle.walk_rest.specs.Listing.{IsListing, IsRootPlan, manner_of};

/// A root has one listing at most.
pub fn listing_is_one()
    ensures { (tree : Tree) (how : Options) (sorts : Bool) (compare : Comparison) (root : List ℕ) (xs ys : List Item)
        → IsListing tree how sorts compare root xs → IsListing tree how sorts compare root ys → xs ≡ ys }
{}

/// Reading a directory whole is so many cuts of its part, and the plan that is left is that of the entries that came.
pub fn reading_a_directory_cuts_its_part()
    ensures { (old new : DiskState) (manner : Manner) (chain : List Folder) (below : List Part) (part : Part) (top : Folder)
        (before after : List Due) (inner left : List DirEntry)
        → part.folder ≡ Some top → IsPlan old.tree manner chain inner part.left → (reads : ReadsFolder old top before inner new after left)
        → ReadsPart old.tree manner chain below part reads.cuts reads.faults left }
{}

/// A directory that is entered and left unread has all that is due of it on top, with itself first in the chain.
pub fn an_unread_directory_is_due_whole()
    ensures { (state : DiskState) (manner : Manner) (root : List ℕ) (levels : List Level) (below : List Part) (top : Folder)
        (opened : Level) (contents : Plan)
        → HasParts state manner root [] levels below → opened.folder ≡ Some top → opened.first ≡ None → opened.entries ≡ entries.Unread
        → opened.faults.items ≡ []
        → ((inner : List DirEntry) × IsContents state.tree manner top inner × IsPlan state.tree manner (top ∷ chain_above [] levels) inner contents)
        → HasParts state manner root [] (levels ++ opened ∷ []) (below ++ entered top contents ∷ []) }
{}

/// A level that is left takes its part with it, read or not: nothing is opened for it.
pub fn skipping_takes_a_part_off()
    ensures { (state : DiskState) (manner : Manner) (root : List ℕ) (levels : List Level) (next top : Level) (rest : Rest)
        → HasParts state manner root [] ((levels ++ next ∷ []) ++ top ∷ []) rest → SkipsTo state manner root (levels ++ next ∷ []) rest }
{}

/// A whole run without a cut gives the listing.
pub fn items_of_run()
    ensures { (tree : Tree) (how : Options) (sorts : Bool) (compare : Comparison) (root : List ℕ)
        (plan : Plan) (items : List Item)
        → IsRootPlan tree (manner_of tree how sorts compare root) root plan → Runs (start plan) items → IsListing tree how sorts compare root items }
{}

/// Where an open list is read to its end and kept, on top or below, each failure is one cut of its own part.
pub fn keeping_a_list_cuts_its_part()
    ensures { (old new : DiskState) (manner : Manner) (root : List ℕ) (lower upper : List Level) (top : Folder)
        (opened kept : Level) (rest : Rest)
        → HasParts old manner root [] (lower ++ opened ∷ upper) rest → opened.folder ≡ Some top → IsOpenEntries opened.entries
        → AllSameReads old new lower → AllSameReads old new upper
        → (keeps : KeepsList old top opened new kept) → CutsTo new manner root (lower ++ kept ∷ upper) keeps.cuts rest }
{}

/// Entries of one directory are ordered by their file names as their names are, and that is a total preorder.
pub fn file_names_order_as_names()
    ensures names { (top : Folder) (a b : RawEntry) → IsName a.name → IsName b.name
        → by_file_name (entry_below top a) (entry_below top b) ≡ name_cmp a.name b.name }
    ensures total { IsTotalOrder by_file_name }
{}

/// A sorted list is in order and keeps equal entries as they stood, and no other list does both.
pub fn lists_are_sorted_in_one_way()
    ensures in_order { (compare : Comparison) (listed : List DirEntry) → IsTotalOrder compare → IsSorted compare (sorted compare listed) }
    ensures stable { (compare : Comparison) (listed : List DirEntry) → IsTotalOrder compare → IsStable compare listed (sorted compare listed) }
    ensures only { (compare : Comparison) (listed others : List DirEntry) → IsTotalOrder compare
        → IsSorted compare others → IsStable compare listed others → others ≡ sorted compare listed }
{}
