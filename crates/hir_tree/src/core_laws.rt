//! Laws of the core of a pattern's tree.

ghost use Rattle.std.specs.Prelude.{◌≡◌, ◌≤◌, ◌<◌, ◌*◌, ℕ, Bool, List, Option, IsTrue, map};
ghost use Rattle.hir_tree.specs.Core.{choice_all, group, numbers, pair_all, repeat};
ghost use Rattle.hir_tree.specs.Cores.{core_of_tree, core_spots};
ghost use Rattle.hir_tree.specs.Sound.{is_sound_tree};
ghost use Rattle.hir_tree.specs.Spots.{spots_of_tree};
ghost use Rattle.hir_tree.specs.Tree.{Tree, alternation, capture, concat, repetition, trees};

/// The core of a tree with parts is made of the cores of the parts.
pub fn a_core_is_made_of_the_cores_of_the_parts()
    ensures repetition { (least : ℕ) (most : Option ℕ) (greedy : Bool) (part : Tree) → core_of_tree (repetition least most greedy part) ≡ repeat least most greedy (core_of_tree part) }
    ensures capture { (index : ℕ) (name : Option (List ℕ)) (part : Tree) → core_of_tree (capture index name part) ≡ group index (core_of_tree part) }
    ensures concat { (parts : List Tree) → core_of_tree (concat (trees parts)) ≡ pair_all (map core_of_tree parts) }
    ensures alternation { (parts : List Tree) → core_of_tree (alternation (trees parts)) ≡ choice_all (map core_of_tree parts) }
{}

/// The core of a tree takes no more spots than are counted on the tree.
pub fn a_core_takes_no_more_than_the_spots_of_its_tree()
    ensures { (tree : Tree) → core_spots (core_of_tree tree) ≤ spots_of_tree tree }
{}

/// The core of a tree has fewer numbers than twice the spots of the tree, where no literal is empty and no repetition ends
/// below its least.
pub fn a_core_has_fewer_numbers_than_twice_the_spots_of_its_tree()
    ensures { (tree : Tree) → IsTrue (is_sound_tree tree) → numbers (core_of_tree tree) < 2 * spots_of_tree tree }
{}
