//! Worked examples of walks, of what is picked of them, and of why nothing is chosen.

ghost use Rattle.std.specs.Prelude.{◌≡◌, ◌≤◌, ◌+◌, ℕ, List, [], ◌∷◌, codes, true, false, None};
ghost use Rattle.sd_io.specs.Disk.{DiskState};
ghost use Rattle.sd_io.specs.Lists.{IsOpen};
ghost use Rattle.sd_io.specs.declared.meta.Kind.TheVariants as kind;
ghost use Rattle.sd_course.specs.Course.{course, DiskFailed};
ghost use Rattle.walk_rest.specs.Examples.{tree_with, item};
ghost use Rattle.walk_rest.specs.Listing.{first_options};
ghost use Rattle.chosen_files.specs.declared.fault.ChoiceFault.TheVariants as choice_fault;
ghost use Rattle.chosen_files.specs.Below.{HasFewerBelow, HasManyBelow};
ghost use Rattle.chosen_files.specs.Choice.{ChoiceFails, GlobsFail, KeepsLists};
ghost use Rattle.chosen_files.specs.Examples.{d_nodes, d_items, in_p, p_nodes, p_rules};
ghost use Rattle.chosen_files.specs.Kept.{Kept};
ghost use Rattle.chosen_files.specs.Picks.{IsPlainWalk, Picks};
ghost use Rattle.chosen_files.specs.Seen.{HasFewerSeen, HasManySeen, ListsOnlySeen};

/// A walk goes plainly by the options that it has at first, and not where it follows links.
pub fn walks_are_plain_as_in_the_examples()
    ensures first { IsPlainWalk first_options }
    ensures links { ¬ IsPlainWalk (record first_options { follow_links = true }) }
{}

/// What is picked of a walk of a small directory: by all names, by one name, by a root that leads there otherwise, and where the
/// root is a file.
pub fn files_are_picked_as_in_the_examples()
    ensures any_depth { Picks (tree_with d_nodes) (codes "/d") (codes "/d") (codes "**" ∷ []) d_items (codes "/d/a" ∷ codes "/d/s/b" ∷ []) }
    ensures other_roots { Picks (tree_with d_nodes) (codes "d/./") (codes "/d") (codes "**" ∷ []) d_items (codes "d/./a" ∷ codes "d/./s/b" ∷ []) }
    ensures one_name { Picks (tree_with d_nodes) (codes "/d") (codes "/d") (codes "*" ∷ []) d_items (codes "/d/a" ∷ []) }
    ensures no_directory { Picks (tree_with d_nodes) (codes "/d/a") (codes "/d/a") (codes "**" ∷ []) (item (codes "/d/a") kind.File 0 0 ∷ []) [] }
{}

/// What is kept of a directory with three files and a directory `build` with a fourth, under the rules `build/`, `*.log` and `!k.log`, and how many
/// entries are seen there.
pub fn files_are_kept_as_in_the_examples()
    ensures kept { Kept (tree_with p_nodes) (in_p []) (codes "**" ∷ []) p_rules (in_p (codes "b.txt" ∷ []) ∷ in_p (codes "k.log" ∷ []) ∷ []) }
    ensures four_seen { HasFewerSeen 5 (tree_with p_nodes) (codes "/p") p_rules }
    ensures no_fewer_seen { ¬ HasFewerSeen 4 (tree_with p_nodes) (codes "/p") p_rules }
    ensures as_many_seen { HasManySeen 4 (tree_with p_nodes) (codes "/p") p_rules }
    ensures all_seen { HasManySeen 5 (tree_with p_nodes) (codes "/p") [] }
    ensures listed { ListsOnlySeen (tree_with p_nodes) (codes "/p") p_rules 7 11 }
    ensures no_more_listed { ¬ ListsOnlySeen (tree_with p_nodes) (codes "/p") p_rules 7 12 }
{}

/// How many entries lie below a directory of five, and below a file.
pub fn entries_are_counted_as_in_the_examples()
    ensures five { HasFewerBelow 6 (tree_with d_nodes) (codes "/d") }
    ensures no_fewer { ¬ HasFewerBelow 5 (tree_with d_nodes) (codes "/d") }
    ensures as_many { HasManyBelow 5 (tree_with d_nodes) (codes "/d") }
    ensures nowhere { ¬ HasFewerBelow 6 (tree_with d_nodes) (codes "/n") }
{}

/// Why nothing is chosen: a root that leads to nothing, a cap that is met, and no other cause; a glob is refused as it is read, and
/// by nothing else.
pub fn choices_fail_as_in_the_examples()
    ensures no_root { (old new : DiskState) → old.tree ≡ tree_with d_nodes → ChoiceFails (codes "/n") 6 (course true old new) choice_fault.RootMissing }
    ensures a_root { (old new : DiskState) → old.tree ≡ tree_with d_nodes → ¬ ChoiceFails (codes "/d") 6 (course true old new) choice_fault.RootMissing }
    ensures untold { (root : List ℕ) (old new : DiskState) → ¬ DiskFailed (course false old new)
        → ¬ ChoiceFails root 6 (course false old new) choice_fault.RootMissing }
    ensures cap_met { (old new : DiskState) → old.tree ≡ tree_with d_nodes → ChoiceFails (codes "/d") 5 (course true old new) choice_fault.TooMany }
    ensures below_cap { (old new : DiskState) → old.tree ≡ tree_with d_nodes → ¬ ChoiceFails (codes "/d") 6 (course true old new) choice_fault.TooMany }
    ensures globs_read { (root : List ℕ) (old new : DiskState) → ¬ ChoiceFails root 6 (course true old new) (choice_fault.BadGlob 0) }
    ensures globs_alone { (globs : List (List ℕ)) → ¬ GlobsFail globs choice_fault.RootMissing }
{}

/// What stays of the lists: all that were open, how many are, and how many may be at once meanwhile.
pub fn lists_are_kept_as_in_the_examples()
    ensures nothing_opened { (disk : DiskState) → KeepsLists 0 disk disk }
    ensures ten_at_once { (old : DiskState) → KeepsLists 10 old (record old { open_most = old.open_count + 10 }) }
    ensures eleven_at_once { (old : DiskState) → old.open_most ≤ old.open_count → ¬ KeepsLists 10 old (record old { open_most = old.open_count + 11 }) }
    ensures left_open { (old : DiskState) → ¬ KeepsLists 10 old (record old { open_count = old.open_count + 1 }) }
    ensures closed { (old : DiskState) (number : ℕ) → IsOpen old number → ¬ KeepsLists 10 old (record old { open_list = λ n. None }) }
{}
