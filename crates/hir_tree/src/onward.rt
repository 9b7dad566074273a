//! Patterns that don't look about, and that matches rest on what lies ahead.

ghost use Rattle.std.specs.Prelude.{◌≡◌, ◌∷◌, [], true, false, codes, Some, None};
ghost use Rattle.std.specs.List.{list_all};
ghost use Rattle.hir_tree.specs.Onward.{GroupsLieAhead, MatchesByWhatFollows, looks_nowhere, looks_nowhere_of};
ghost use Rattle.hir_tree.specs.Tree.{alternation, capture, class_bytes, concat, literal, look, repetition, tree_of, trees};

use crate::{Hir, Look};

/// Whether no part of the pattern is a look.
#[cycle(nowhere)]
pub fn looks_nowhere(hir: &Hir) -> bool
    ensures { result ≡ looks_nowhere (tree_of hir.now) }
{
    match hir {
        Hir::Empty | Hir::Literal(_) | Hir::ClassChars(_) | Hir::ClassBytes(_) => true,
        Hir::Look(_) => false,
        Hir::Repetition(repeat) => looks_nowhere(&repeat.sub),
        Hir::Capture(group) => looks_nowhere(&group.sub),
        Hir::Concat(hirs) | Hir::Alternation(hirs) => all_look_nowhere(hirs.parts()),
    }
}

/// Whether no part of these is a look.
#[cycle(nowhere)]
fn all_look_nowhere(parts: &[Hir]) -> bool
    ensures { result ≡ list_all looks_nowhere_of parts.now }
{
    for part in parts {
        if !looks_nowhere(part) {
            return false;
        }
    }
    true
}

/// What a pattern without looks matches from a place on rests, in texts of one length, on the bytes from there on alone.
pub fn a_pattern_without_looks_matches_by_what_follows()
    ensures { MatchesByWhatFollows }
{}

/// Each group that is set in a preferred match begins at the place of the match, or after it.
pub fn groups_lie_ahead()
    ensures { GroupsLieAhead }
{}

/// `a|b+` and `([ab])c` look nowhere. `\bab`, `ab$`, `a|\b`, `(^a)*` and `(?:\b){0}` don't, though the last needs no look.
pub fn patterns_look_nowhere_as_in_the_examples()
    ensures one_of_two { looks_nowhere (alternation (trees (literal (codes "a") ∷ repetition 1 None true (literal (codes "b")) ∷ []))) ≡ true }
    ensures group { looks_nowhere (concat (trees (capture 1 None (class_bytes ((97, 98) ∷ [])) ∷ literal (codes "c") ∷ []))) ≡ true }
    ensures first { looks_nowhere (concat (trees (look Look.WordUnicode ∷ literal (codes "ab") ∷ []))) ≡ false }
    ensures last { looks_nowhere (concat (trees (literal (codes "ab") ∷ look Look.End ∷ []))) ≡ false }
    ensures choice { looks_nowhere (alternation (trees (literal (codes "a") ∷ look Look.WordUnicode ∷ []))) ≡ false }
    ensures inside { looks_nowhere (repetition 0 None true (capture 1 None (concat (trees (look Look.Start ∷ literal (codes "a") ∷ []))))) ≡ false }
    ensures unused { looks_nowhere (repetition 0 (Some 0) true (look Look.WordUnicode)) ≡ false }
{}
