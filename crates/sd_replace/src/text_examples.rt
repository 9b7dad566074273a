//! Worked examples of replacement texts and flags.

ghost use Rattle.std.specs.Prelude.{◌≡◌, Some, None, codes, ◌∷◌, [], true, false};
ghost use Rattle.sd_replace.specs.Ambiguous.{first_ambiguous};
ghost use Rattle.sd_replace.specs.Flags.{folds, is_multi_line};
ghost use Rattle.sd_replace.specs.Unescaped.{characters_of};

/// The first ambiguous reference of some texts.
pub fn references_are_ambiguous_as_in_the_examples()
    ensures letter { first_ambiguous (codes "$1a") ≡ Some (record { start = 1; end = 3; digits = 1 }) }
    ensures first_of_two { first_ambiguous (codes "a$12bc $3d") ≡ Some (record { start = 2; end = 6; digits = 2 }) }
    ensures behind_two_dollars { first_ambiguous (codes "$$$1a") ≡ Some (record { start = 3; end = 5; digits = 1 }) }
    ensures not_closed { first_ambiguous (codes "${ $1a") ≡ Some (record { start = 4; end = 6; digits = 1 }) }
    ensures in_braces { first_ambiguous (codes "${x $1a}") ≡ None }
    ensures braced { first_ambiguous (codes "${1}a") ≡ None }
    ensures number { first_ambiguous (codes "$12") ≡ None }
    ensures name { first_ambiguous (codes "$a1") ≡ None }
    ensures two_dollars { first_ambiguous (codes "$$1a") ≡ None }
{}

/// What escapes make of some texts.
pub fn texts_are_unescaped_as_in_the_examples()
    ensures tab { characters_of (codes "a\\tb") ≡ Some (97 ∷ 9 ∷ 98 ∷ []) }
    ensures numbers { characters_of (codes "\\101\\x41\\u0041") ≡ Some (codes "AAA") }
    ensures two_octal { characters_of (codes "\\400") ≡ Some (codes " 0") }
    ensures past_ascii { characters_of (codes "\\xe9") ≡ Some (233 ∷ []) }
    ensures backslash { characters_of (codes "\\\\t") ≡ Some (codes "\\t") }
    ensures other_letter { characters_of (codes "\\q") ≡ None }
    ensures at_the_end { characters_of (codes "a\\") ≡ None }
    ensures surrogate { characters_of (codes "\\ud800") ≡ None }
    ensures one_octal { characters_of (codes "\\4") ≡ None }
{}

/// What some flags ask for.
pub fn flags_ask_for_options_as_in_the_examples()
    ensures folding_last { folds (codes "ci") ≡ true }
    ensures folding_off { folds (codes "ic") ≡ false }
    ensures lines { is_multi_line [] ≡ true }
    ensures whole { is_multi_line (codes "em") ≡ false }
    ensures line_feeds { is_multi_line (codes "s") ≡ false }
    ensures line_feeds_in_lines { is_multi_line (codes "sm") ≡ true }
{}
