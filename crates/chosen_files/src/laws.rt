//! Laws of what a walk lists, and of what is chosen of it.

ghost use Rattle.std.specs.Prelude.{◌≡◌, ℕ, Bool, List, [], map, None, Some, true, false};
ghost use Rattle.sd_io.specs.Tree.{NameList, Tree, IsTree, is_directory_at};
ghost use Rattle.sd_io.specs.Paths.{reached};
ghost use Rattle.sd_io.specs.Files.{path_text};
ghost use Rattle.walk_rest.specs.declared.options.Options.{Options};
ghost use Rattle.walk_rest.specs.Plan.{Comparison, Item};
ghost use Rattle.walk_rest.specs.Listing.{IsListing};
ghost use Rattle.sd_ignore.specs.declared.rule.Rule.{Rule};
ghost use Rattle.chosen_files.specs.Below.{HasFewerBelow, HasManyBelow};
ghost use Rattle.chosen_files.specs.Chosen.{Chosen, ListsChosen};
ghost use Rattle.chosen_files.specs.Laws.{OneListOfKept, NoRulesKeepAll, KeptAreSeen};
ghost use Rattle.chosen_files.specs.Picks.{ListsAllIn, Picks, WalksWhole};
ghost use Rattle.chosen_files.specs.Seen.{HasFewerSeen, HasManySeen};
ghost use Rattle.chosen_files.specs.Walked.{WalkListsAllSeen, PickedAreKept};

/// A tree, a place and globs determine the list of the chosen files below the place. A tree, a root and globs determine
/// the list of their paths.
pub fn one_list_of_chosen_files()
    ensures places { (tree : Tree) (top : NameList) (globs : List (List ℕ)) (xs ys : List NameList) → Chosen tree top globs xs
        → Chosen tree top globs ys → xs ≡ ys }
    ensures paths { (tree : Tree) (root : List ℕ) (globs : List (List ℕ)) (xs ys : List (List ℕ)) → ListsChosen tree root globs xs
        → ListsChosen tree root globs ys → xs ≡ ys }
{}

/// A whole walk of the place that a path leads to gives each node at or below the place once, in the order of name lists:
/// every directory is listed whole.
pub fn a_whole_walk_lists_all()
    ensures { (tree : Tree) (how : Options) (root : List ℕ) (top : NameList) (items : List Item) → IsTree tree
        → WalksWhole tree how root top items → ListsAllIn tree top items }
{}

/// Of the entries of a whole walk, those that are picked are the chosen files in their order. Nothing is picked where the path
/// leads to no directory, nor of a walk of a path that leads nowhere.
pub fn chosen_is_the_listing()
    ensures chosen { (tree : Tree) (how : Options) (root : List ℕ) (top : NameList) (globs : List (List ℕ)) (items : List Item)
        (paths : List (List ℕ)) → IsTree tree → WalksWhole tree how root top items → Picks tree root (path_text top) globs items paths
        → ListsChosen tree root globs paths }
    ensures no_directory { (tree : Tree) (how : Options) (root : List ℕ) (top : NameList) (globs : List (List ℕ)) (items : List Item)
        (paths : List (List ℕ)) → IsTree tree → WalksWhole tree how root top items → is_directory_at tree top ≡ false
        → Picks tree root (path_text top) globs items paths → paths ≡ [] }
    ensures nowhere { (tree : Tree) (how : Options) (sorts : Bool) (compare : Comparison) (root : List ℕ) (globs : List (List ℕ))
        (items : List Item) (paths : List (List ℕ)) → reached tree root false ≡ None → IsListing tree how sorts compare root items
        → Picks tree root root globs items paths → paths ≡ [] }
{}

/// The path of each chosen file leads to it, links followed.
pub fn paths_lead_to_chosen_files()
    ensures { (tree : Tree) (root : List ℕ) (globs paths : List (List ℕ)) → IsTree tree → (listed : ListsChosen tree root globs paths)
        → map (λ path. reached tree path true) paths ≡ map (λ place. Some place) listed.places }
{}

/// Not both fewer than so many and so many or more entries lie below a root, or are seen there.
pub fn fewer_are_not_many()
    ensures below { (cap : ℕ) (tree : Tree) (root : List ℕ) → HasFewerBelow cap tree root → HasManyBelow cap tree root → ⊥ }
    ensures seen { (cap : ℕ) (tree : Tree) (root : List ℕ) (rules : List Rule) → HasFewerSeen cap tree root rules → HasManySeen cap tree root rules → ⊥ }
{}

/// A tree, a place, globs and rules determine the list of the kept files, and of their paths.
pub fn one_list_of_kept_files()
    ensures { OneListOfKept }
{}

/// Without rules the kept files are the chosen ones, and all that stands below is seen.
pub fn no_rules_keep_all()
    ensures { NoRulesKeepAll }
{}

/// A kept file is seen.
pub fn kept_files_are_seen()
    ensures { KeptAreSeen }
{}

/// A whole walk that leaves unread the directories that rules ignore gives the entries of all that is seen.
pub fn a_walk_lists_all_that_is_seen()
    ensures { WalkListsAllSeen }
{}

/// What is picked of its entries that the rules don't ignore are the kept files.
pub fn picked_files_are_kept()
    ensures { PickedAreKept }
{}
