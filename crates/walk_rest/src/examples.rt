//! Worked examples of listings, of steps and of names.

ghost use Rattle.std.specs.Prelude.{◌≡◌, ℕ, true, false, Some, None, codes, [], ◌∷◌};
ghost use Rattle.std.specs.Ordering.{nat_cmp, on};
ghost use Rattle.sd_io.specs.declared.meta.Kind.TheVariants as kind;
ghost use Rattle.walk_rest.specs.Names.{file_name};
ghost use Rattle.walk_rest.specs.Listing.{first_options, IsListing};
ghost use Rattle.walk_rest.specs.Rest.{Rest, IsStep, Skips, start};
ghost use Rattle.walk_rest.specs.Plan.{done, sorted};
ghost use Rattle.walk_rest.specs.Examples.{tree_with, foo_nodes, loop_nodes, broken_nodes, by_path, item, item_followed, absent, looping, foo_item, a_item, b_item, b_left, both_left, a_hidden, at_foo, in_foo, opening, listing, at_a, failure};

/// The listings of small trees.
pub fn listings_are_as_in_the_examples()
    ensures contents_first { IsListing (tree_with (foo_nodes 0)) (record first_options { contents_first = true }) true by_path (codes "foo")
        (item (codes "foo/abc/qrs") kind.File 2 6 ∷ item (codes "foo/abc/tuv") kind.File 2 5 ∷ item (codes "foo/abc") kind.Directory 1 4
        ∷ item (codes "foo/def") kind.Directory 1 3 ∷ item (codes "foo") kind.Directory 0 0 ∷ []) }
    ensures unsorted { IsListing (tree_with (foo_nodes 0)) first_options false by_path (codes "foo")
        (item (codes "foo") kind.Directory 0 0 ∷ item (codes "foo/def") kind.Directory 1 3 ∷ item (codes "foo/abc") kind.Directory 1 4
        ∷ item (codes "foo/abc/tuv") kind.File 2 5 ∷ item (codes "foo/abc/qrs") kind.File 2 6 ∷ []) }
    ensures depth_one { IsListing (tree_with (foo_nodes 0)) (record first_options { min_depth = 1; max_depth = 1 }) true by_path (codes "foo")
        (item (codes "foo/abc") kind.Directory 1 4 ∷ item (codes "foo/def") kind.Directory 1 3 ∷ []) }
    ensures depth_two { IsListing (tree_with (foo_nodes 0)) (record first_options { min_depth = 2 }) true by_path (codes "foo")
        (item (codes "foo/abc/qrs") kind.File 2 6 ∷ item (codes "foo/abc/tuv") kind.File 2 5 ∷ []) }
    ensures other_device { IsListing (tree_with (foo_nodes 7)) (record first_options { same_file_system = true }) true by_path (codes "foo")
        (item (codes "foo") kind.Directory 0 0 ∷ item (codes "foo/abc") kind.Directory 1 4 ∷ item (codes "foo/def") kind.Directory 1 3 ∷ []) }
    ensures round { IsListing (tree_with loop_nodes) (record first_options { follow_links = true }) true by_path (codes "/r")
        (item (codes "/r") kind.Directory 0 0 ∷ item (codes "/r/a") kind.Directory 1 3 ∷ looping (codes "/r/a/l") 2 (codes "/r") 2 ∷ []) }
    ensures loop_at_max_depth { IsListing (tree_with loop_nodes) (record first_options { follow_links = true; max_depth = 1 }) true by_path (codes "/r")
        (item (codes "/r") kind.Directory 0 0 ∷ item (codes "/r/a") kind.Directory 1 3 ∷ []) }
    ensures link_not_followed { IsListing (tree_with loop_nodes) first_options true by_path (codes "/r")
        (item (codes "/r") kind.Directory 0 0 ∷ item (codes "/r/a") kind.Directory 1 3 ∷ item (codes "/r/a/l") kind.Link 2 4 ∷ []) }
    ensures slash { IsListing (tree_with loop_nodes) (record first_options { max_depth = 1 }) true by_path (codes "/")
        (item (codes "/") kind.Directory 0 0 ∷ item (codes "/r") kind.Directory 1 2 ∷ []) }
    ensures broken_root { IsListing (tree_with broken_nodes) (record first_options { follow_root_links = false }) true by_path (codes "b")
        (item (codes "b") kind.Link 0 0 ∷ []) }
    ensures broken_root_followed { IsListing (tree_with broken_nodes) (record first_options { follow_links = true; follow_root_links = false }) true by_path (codes "b")
        (absent (codes "b") 0 ∷ []) }
    ensures broken_root_entered { IsListing (tree_with broken_nodes) first_options true by_path (codes "b") (absent (codes "b") 0 ∷ []) }
    ensures broken_root_on_one_device { IsListing (tree_with broken_nodes) (record first_options { follow_root_links = false; same_file_system = true }) true by_path (codes "b")
        (absent (codes "b") 0 ∷ []) }
    ensures no_root { IsListing (tree_with broken_nodes) (record first_options { min_depth = 5 }) true by_path (codes "c") (absent (codes "c") 0 ∷ []) }
    ensures root_link { IsListing (tree_with broken_nodes) first_options true by_path (codes "d")
        (item (codes "d") kind.Link 0 0 ∷ item (codes "d/x") kind.Link 1 4 ∷ []) }
    ensures root_link_contents_first { IsListing (tree_with broken_nodes) (record first_options { contents_first = true }) true by_path (codes "d")
        (item (codes "d/x") kind.Link 1 4 ∷ item (codes "d") kind.Link 0 0 ∷ []) }
    ensures root_link_followed { IsListing (tree_with broken_nodes) (record first_options { follow_links = true }) true by_path (codes "d")
        (item_followed (codes "d") kind.Directory 0 0 ∷ absent (codes "d/x") 1 ∷ []) }
    ensures root_link_left { IsListing (tree_with broken_nodes) (record first_options { follow_root_links = false }) true by_path (codes "d")
        (item (codes "d") kind.Link 0 0 ∷ []) }
{}

/// Steps in a directory with two files.
pub fn steps_are_as_in_the_examples()
    ensures entered { IsStep 0 at_foo (Some foo_item) (in_foo both_left []) }
    ensures entry { IsStep 0 (in_foo both_left []) (Some a_item) (in_foo b_left []) }
    ensures hidden { IsStep 0 (in_foo a_hidden []) (Some b_item) (in_foo done []) }
    ensures ended { IsStep 0 (in_foo done []) None [] }
    ensures not_opened { IsStep 1 (in_foo both_left []) (failure (Some (codes "foo")) 0) (in_foo done []) }
    ensures not_listed { IsStep 1 (in_foo both_left []) (failure None 1) (in_foo b_left []) }
    ensures list_broken { IsStep 1 (in_foo both_left []) (failure None 1) (in_foo done []) }
    ensures entry_failed { IsStep 1 (in_foo both_left []) (failure (Some (codes "foo/a")) 1) (in_foo b_left []) }
    ensures twice { IsStep 2 (in_foo both_left []) (failure None 1) (in_foo done (listing ∷ [])) }
    ensures later { IsStep 0 (in_foo b_left (listing ∷ [])) (failure None 1) (in_foo b_left []) }
    ensures skipped { Skips (in_foo both_left (listing ∷ [])) (start done) }
    ensures root_stays { Skips at_foo at_foo }
{}

/// No entry is passed over without a fault, and none comes before a fault of its directory.
pub fn steps_are_refused_as_in_the_examples()
    ensures passed_over { (new : Rest) → IsStep 0 (in_foo both_left []) (Some b_item) new → ⊥ }
    ensures ended { (new : Rest) → IsStep 0 (in_foo both_left []) None new → ⊥ }
    ensures before_a_fault { (new : Rest) → IsStep 0 (in_foo both_left (listing ∷ [])) (Some a_item) new → ⊥ }
{}

/// The file names of paths.
pub fn file_names_are_as_in_the_examples()
    ensures below { file_name (codes "foo/abc") ≡ codes "abc" }
    ensures slash { file_name (codes "foo/") ≡ codes "foo" }
    ensures dot { file_name (codes "foo/.") ≡ codes "foo" }
    ensures up { file_name (codes "foo/..") ≡ codes "foo/.." }
    ensures top { file_name (codes "/") ≡ codes "/" }
    ensures empty { file_name [] ≡ [] }
{}

/// Lists are sorted stably.
pub fn lists_are_sorted_as_in_the_examples()
    ensures numbers { sorted nat_cmp (3 ∷ 1 ∷ 2 ∷ 1 ∷ []) ≡ 1 ∷ 1 ∷ 2 ∷ 3 ∷ [] }
    ensures stable { sorted (on (λ (pair : ℕ × ℕ). pair.0) nat_cmp) ((2, 5) ∷ (1, 6) ∷ (2, 4) ∷ []) ≡ (1, 6) ∷ (2, 5) ∷ (2, 4) ∷ [] }
{}
