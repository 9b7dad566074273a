//! Worked examples of paths.

ghost use Rattle.std.specs.Prelude.{◌≡◌, ℕ, true, false, Some, None, codes, [], ◌∷◌};
ghost use Rattle.sd_io.specs.Paths.{reached, named, followed, reached_plain};
ghost use Rattle.sd_io.specs.Files.{file_of};
ghost use Rattle.sd_io.specs.Examples.{small, chain, link_name};

/// Where paths lead in a small tree.
pub fn paths_lead_as_in_the_examples()
    ensures file { file_of small (codes "/t/a.txt") ≡ Some (codes "hello", 416) }
    ensures back_and_forth { reached small (codes "/l/..//t/a.txt") true ≡ Some (codes "t" ∷ codes "a.txt" ∷ []) }
    ensures no_leading_slash { reached small (codes "t/a.txt") true ≡ Some (codes "t" ∷ codes "a.txt" ∷ []) }
    ensures trailing_slash { reached small (codes "/t/a.txt/") true ≡ Some (codes "t" ∷ codes "a.txt" ∷ []) }
    ensures slash { reached small (codes "/") true ≡ Some [] }
    ensures dot { reached small (codes ".") true ≡ Some [] }
    ensures above_the_top { reached small (codes "/../..") true ≡ Some [] }
    ensures empty_path { reached small [] true ≡ None }
    ensures nothing_there { reached small (codes "t/b.txt") true ≡ None }
    ensures through_a_file { reached small (codes "t/a.txt/x") true ≡ None }
    ensures up_from_a_file { reached small (codes "t/a.txt/..") true ≡ None }
    ensures up_from_nothing { reached small (codes "no/..") true ≡ None }
{}

/// Where links lead in a small tree.
pub fn links_lead_as_in_the_examples()
    ensures followed { reached small (codes "/l") true ≡ Some (codes "t" ∷ []) }
    ensures not_followed { reached small (codes "/l") false ≡ Some (codes "l" ∷ []) }
    ensures inside_a_path { reached small (codes "l/a.txt") false ≡ Some (codes "t" ∷ codes "a.txt" ∷ []) }
    ensures from_its_folder { reached small (codes "t/here") true ≡ Some (codes "t" ∷ codes "a.txt" ∷ []) }
    ensures from_the_top { reached small (codes "t/far") true ≡ Some (codes "t" ∷ codes "a.txt" ∷ []) }
    ensures parent { reached small (codes "t/up") true ≡ Some [] }
    ensures to_nothing { reached small (codes "empty") true ≡ None }
    ensures to_nothing_not_followed { reached small (codes "empty") false ≡ Some (codes "empty" ∷ []) }
    ensures to_itself { (links : ℕ) → followed small links true [] (codes "loop" ∷ []) ≡ None }
    ensures three { followed (chain 3) 3 true [] (link_name 3 ∷ []) ≡ Some (link_name 0 ∷ []) }
    ensures three_of_two { followed (chain 3) 2 true [] (link_name 3 ∷ []) ≡ None }
    ensures forty { reached (chain 41) (link_name 40) true ≡ Some (link_name 0 ∷ []) }
    ensures forty_one { reached (chain 41) (link_name 41) true ≡ None }
{}

/// What paths name in a small tree.
pub fn paths_name_as_in_the_examples()
    ensures file { named small (codes "/t/a.txt") ≡ Some (codes "t" ∷ codes "a.txt" ∷ []) }
    ensures new { named small (codes "t/new") ≡ Some (codes "t" ∷ codes "new" ∷ []) }
    ensures new_by_a_link { named small (codes "l/new") ≡ Some (codes "t" ∷ codes "new" ∷ []) }
    ensures link { named small (codes "l") ≡ Some (codes "l" ∷ []) }
    ensures slash { named small (codes "/") ≡ None }
    ensures empty_path { named small [] ≡ None }
    ensures up { named small (codes "t/..") ≡ None }
    ensures in_a_file { named small (codes "t/a.txt/new") ≡ None }
    ensures in_nothing { named small (codes "no/new") ≡ None }
    ensures in_a_loop { named small (codes "loop/new") ≡ None }
{}

/// Where paths lead in a small tree with no link followed.
pub fn plain_paths_lead_as_in_the_examples()
    ensures file { reached_plain small (codes "/t/./a.txt") ≡ Some (codes "t" ∷ codes "a.txt" ∷ []) }
    ensures up { reached_plain small (codes "t/..") ≡ Some [] }
    ensures link { reached_plain small (codes "l") ≡ Some (codes "l" ∷ []) }
    ensures through_a_link { reached_plain small (codes "l/a.txt") ≡ None }
    ensures up_from_a_link { reached_plain small (codes "l/..") ≡ None }
    ensures empty_path { reached_plain small [] ≡ None }
{}
