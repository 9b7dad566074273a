//! Worked examples of preferred matches.

ghost use Rattle.std.specs.Prelude.{◌≡◌, [], ◌∷◌, ◌++◌, codes, true, false, Some, None};
ghost use Rattle.hir_tree.specs.Core.{byte_in, char_in, look, group, pair, choice_all, literal, repeat};
ghost use Rattle.hir_tree.specs.Runs.{preferred};
ghost use Rattle.hir_tree.specs.RunsExamples.{star, lazy_star, maybe, lazy_maybe, Matches, MatchesNone};

use crate::Look;

/// `a*` from each place of "baac", lazy and counted repetitions, `(?:x*)*y`, and `(?:a?b??)*`, whose second round comes
/// to `b??` again with no byte between, and so gives nothing.
#[tactic(auto, unfolding(crate::proofs::RunsComputing::matching))]
pub fn repetitions_match_as_in_the_examples()
    ensures star_of_none { Matches (star (literal (codes "a"))) (codes "baac") 0 0 }
    ensures star_of_two { Matches (star (literal (codes "a"))) (codes "baac") 1 3 }
    ensures star_of_one { Matches (star (literal (codes "a"))) (codes "baac") 2 3 }
    ensures star_before_c { Matches (star (literal (codes "a"))) (codes "baac") 3 3 }
    ensures star_at_the_end { Matches (star (literal (codes "a"))) (codes "baac") 4 4 }
    ensures lazy { Matches (lazy_star (literal (codes "a"))) (codes "aa") 0 0 }
    ensures lazy_before_b { Matches (pair (lazy_star (literal (codes "a"))) (literal (codes "b"))) (codes "aab") 0 3 }
    ensures star_of_stars { Matches (pair (star (star (literal (codes "x")))) (literal (codes "y"))) (codes "xxy") 0 3 }
    ensures empty_rounds { Matches (star (pair (maybe (literal (codes "a"))) (lazy_maybe (literal (codes "b"))))) (codes "ab") 0 1 }
    ensures two_or_three { Matches (repeat 2 (Some 3) true (literal (codes "a"))) (codes "aaaa") 0 3 }
    ensures too_few { MatchesNone (repeat 2 (Some 3) true (literal (codes "a"))) (codes "ab") 0 }
    ensures no_copies { Matches (repeat 0 (Some 0) true (literal (codes "a"))) (codes "a") 0 0 }
{}

/// Groups and choices: `(a?)(bcd)`, `(a)|b`, `([ab])*`, `a|ab`, and a choice without parts.
#[tactic(auto, unfolding(crate::proofs::RunsComputing::matching))]
pub fn groups_match_as_in_the_examples()
    ensures two_groups { preferred (pair (group 1 (maybe (literal (codes "a")))) (group 2 (literal (codes "bcd")))) 2 (codes "abcd") 0 ≡ Some (Some (0, 4) ∷ Some (0, 1) ∷ Some (1, 4) ∷ []) }
    ensures unset_group { preferred (choice_all (group 1 (literal (codes "a")) ∷ literal (codes "b") ∷ [])) 1 (codes "b") 0 ≡ Some (Some (0, 1) ∷ None ∷ []) }
    ensures last_round { preferred (star (group 1 (byte_in ((97, 98) ∷ [])))) 1 (codes "ab") 0 ≡ Some (Some (0, 2) ∷ Some (1, 2) ∷ []) }
    ensures first_choice { Matches (choice_all (literal (codes "a") ∷ literal (codes "ab") ∷ [])) (codes "ab") 0 1 }
    ensures no_choice { MatchesNone (choice_all []) (codes "a") 0 }
{}

/// Looks, and sets on the two bytes of "é" and the four of U+1F600. The encoding of a surrogate is no character.
#[tactic(auto, unfolding(crate::proofs::RunsComputing::matching))]
pub fn sets_and_looks_match_as_in_the_examples()
    ensures word { Matches (pair (look Look.WordUnicode) (char_in ((233, 233) ∷ []))) (195 ∷ 169 ∷ []) 0 2 }
    ensures other_letter { MatchesNone (char_in ((224, 232) ∷ [])) (195 ∷ 169 ∷ []) 0 }
    ensures inside { MatchesNone (char_in ((0, 0x10FFFF) ∷ [])) (195 ∷ 169 ∷ []) 1 }
    ensures byte { Matches (byte_in ((128, 255) ∷ [])) (195 ∷ 169 ∷ []) 0 1 }
    ensures four_bytes { Matches (char_in ((0x1F600, 0x1F600) ∷ [])) (240 ∷ 159 ∷ 152 ∷ 128 ∷ []) 0 4 }
    ensures surrogate { MatchesNone (char_in ((0, 0x10FFFF) ∷ [])) (237 ∷ 160 ∷ 128 ∷ []) 0 }
    ensures whole_text { Matches (pair (look Look.Start) (pair (literal (codes "a")) (look Look.End))) (codes "a") 0 1 }
    ensures longer_text { MatchesNone (pair (look Look.Start) (pair (literal (codes "a")) (look Look.End))) (codes "ab") 0 }
{}
