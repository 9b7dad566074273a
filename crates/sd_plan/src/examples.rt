//! Worked examples of plans and of escapes.

ghost use Rattle.std.specs.Prelude.{◌≡◌, ◌++◌, ◌∷◌, [], ℕ, List, codes, false};
ghost use Rattle.sd_plan.specs.Digest.{digits_of};
ghost use Rattle.sd_plan.specs.Escaped.{escaped};
ghost use Rattle.sd_plan.specs.Plan.{IsNoPlan, IsPlanLine, line_text, text_of};
ghost use Rattle.sd_plan.specs.Reading.{IsCountField, IsDigestField, IsPathField};
ghost use Rattle.sd_plan.specs.Examples.{abc_digest, abc_digits, abc_line, empty_digits, odd_line};

/// The texts of small plans.
pub fn plans_have_their_texts()
    ensures digits { digits_of abc_digest ≡ abc_digits }
    ensures line { line_text abc_line ≡ abc_digits ++ codes " " ++ empty_digits ++ codes " + 1 /t/x" }
    ensures none { text_of [] ≡ codes "sd-plan 1\nchosen 0, changed 0, replaced 0\n" }
    ensures one { text_of (abc_line ∷ []) ≡ codes "sd-plan 1\n" ++ abc_digits ++ codes " " ++ empty_digits ++ codes " + 1 /t/x\nchosen 1, changed 1, replaced 1\n" }
    ensures two { text_of (odd_line ∷ abc_line ∷ []) ≡ codes "sd-plan 1\n" ++ empty_digits ++ codes " " ++ empty_digits ++ codes " = 0 /t/a\\\\ b\\nc\n"
        ++ abc_digits ++ codes " " ++ empty_digits ++ codes " + 1 /t/x\nchosen 2, changed 1, replaced 1\n" }
{}

/// Escaped paths.
pub fn paths_are_escaped_as_in_the_examples()
    ensures itself { escaped (codes "/t/x y") ≡ codes "/t/x y" }
    ensures backslash { escaped (codes "a\\b") ≡ codes "a\\\\b" }
    ensures newline { escaped (codes "a\nb") ≡ codes "a\\nb" }
    ensures both { escaped (codes "\\n\n") ≡ codes "\\\\n\\n" }
    ensures empty { escaped [] ≡ [] }
{}

/// Texts that are the text of no plan.
pub fn these_are_no_plans()
    ensures empty { IsNoPlan [] }
    ensures other_version { IsNoPlan (codes "sd-plan 2\nchosen 0, changed 0, replaced 0\n") }
    ensures no_report { IsNoPlan (codes "sd-plan 1\n") }
    ensures other_numbers { IsNoPlan (codes "sd-plan 1\nchosen 1, changed 0, replaced 0\n") }
    ensures no_newline { IsNoPlan (codes "sd-plan 1\nchosen 0, changed 0, replaced 0") }
    ensures a_line_after { IsNoPlan (codes "sd-plan 1\nchosen 0, changed 0, replaced 0\n\n") }
{}

/// Fields that stand for nothing, and lines that no plan has.
pub fn these_are_no_fields()
    ensures upper_case { (digest : List ℕ) → IsDigestField (codes "BA7816BF8F01CFEA414140DE5DAE2223B00361A396177A9CB410FF61F20015AD") digest → ⊥ }
    ensures few_digits { (digest : List ℕ) → IsDigestField (codes "ba78") digest → ⊥ }
    ensures leading_zero { (count : ℕ) → IsCountField (codes "01") count → ⊥ }
    ensures plus { (count : ℕ) → IsCountField (codes "+1") count → ⊥ }
    ensures too_great { (count : ℕ) → IsCountField (codes "340282366920938463463374607431768211456") count → ⊥ }
    ensures stray_backslash { (path : List ℕ) → IsPathField (codes "a\\b") path → ⊥ }
    ensures backslash_at_the_end { (path : List ℕ) → IsPathField (codes "a\\") path → ⊥ }
    ensures newline { (path : List ℕ) → IsPathField (codes "a\nb") path → ⊥ }
    ensures no_utf8 { (path : List ℕ) → IsPathField (255 ∷ []) path → ⊥ }
    ensures other_digests_unchanged { IsPlanLine (record abc_line { changed = false }) → ⊥ }
    ensures no_path { IsPlanLine (record abc_line { path = [] }) → ⊥ }
{}
