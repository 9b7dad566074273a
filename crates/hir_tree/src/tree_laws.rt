//! Laws of trees.

ghost use Rattle.std.specs.Prelude.{◌≡◌, ◌+◌, ℕ, List, length, map, max, sum};
ghost use Rattle.std.specs.List.{list_all};
ghost use Rattle.hir_tree.specs.Hirs.{parts_of};
ghost use Rattle.hir_tree.specs.Sound.{is_sound_tree};
ghost use Rattle.hir_tree.specs.Spots.{greatest, groups_of_tree, spots_of_tree};
ghost use Rattle.hir_tree.specs.Tree as tree;
ghost use Rattle.hir_tree.specs.Tree.{Tree, alternation, concat, tree_of, trees};
ghost use Rattle.hir_tree.specs.declared.hir.Group.{Group};
ghost use Rattle.hir_tree.specs.declared.hir.Hir.TheVariants as hir;
ghost use Rattle.hir_tree.specs.declared.hir.Hirs.{Hirs};
ghost use Rattle.hir_tree.specs.declared.hir.Repeat.{Repeat};
ghost use Rattle.hir_tree.specs.declared.look.Look.{Look};

/// The tree of each form of a pattern is made of the trees of its parts.
pub fn a_tree_is_made_of_the_trees_of_the_parts()
    ensures empty { tree_of hir.Empty ≡ tree.empty }
    ensures literal { (bytes : List ℕ) → tree_of (hir.Literal bytes) ≡ tree.literal bytes }
    ensures class_chars { (ranges : List (ℕ × ℕ)) → tree_of (hir.ClassChars ranges) ≡ tree.class_chars ranges }
    ensures class_bytes { (ranges : List (ℕ × ℕ)) → tree_of (hir.ClassBytes ranges) ≡ tree.class_bytes ranges }
    ensures look { (kind : Look) → tree_of (hir.Look kind) ≡ tree.look kind }
    ensures repetition { (part : Repeat) → tree_of (hir.Repetition part) ≡ tree.repetition part.min part.max part.greedy (tree_of part.sub.value) }
    ensures capture { (part : Group) → tree_of (hir.Capture part) ≡ tree.capture part.index part.name (tree_of part.sub.value) }
    ensures concat { (hirs : Hirs) → tree_of (hir.Concat hirs) ≡ concat (trees (map tree_of (parts_of hirs))) }
    ensures alternation { (hirs : Hirs) → tree_of (hir.Alternation hirs) ≡ alternation (trees (map tree_of (parts_of hirs))) }
{}

/// Trees in a row take the spots of each, and an alternation one more for each; either takes one at least.
pub fn trees_in_a_row_take_the_spots_of_each()
    ensures concat { (parts : List Tree) → spots_of_tree (concat (trees parts)) ≡ max 1 (sum (map spots_of_tree parts)) }
    ensures alternation { (parts : List Tree) → spots_of_tree (alternation (trees parts)) ≡ max 1 (sum (map spots_of_tree parts) + length parts) }
{}

/// The greatest index of a group in trees in a row is the greatest of those in each.
pub fn trees_in_a_row_have_the_groups_of_each()
    ensures concat { (parts : List Tree) → groups_of_tree (concat (trees parts)) ≡ greatest (map groups_of_tree parts) }
    ensures alternation { (parts : List Tree) → groups_of_tree (alternation (trees parts)) ≡ greatest (map groups_of_tree parts) }
{}

/// Trees in a row are sound where each of them is.
pub fn trees_in_a_row_are_sound_where_each_is()
    ensures concat { (parts : List Tree) → is_sound_tree (concat (trees parts)) ≡ list_all is_sound_tree parts }
    ensures alternation { (parts : List Tree) → is_sound_tree (alternation (trees parts)) ≡ list_all is_sound_tree parts }
{}
