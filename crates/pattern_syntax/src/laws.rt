//! Laws of sets and of readings.

ghost use Rattle.std.specs.Prelude.{◌≡◌, ◌↔◌, ℕ, IsTrue, List};
ghost use Rattle.pattern_syntax.specs.declared.flags.Flags.{Flags};
ghost use Rattle.pattern_syntax.specs.Reads.{Found, Reads};
ghost use Rattle.unicode.specs.CaseFolding.{simple_fold};
ghost use Rattle.hir_tree.specs.Ranges.{AreByteRanges, AreCharRanges};
ghost use Rattle.hir_tree.specs.Tree.{class_bytes, class_chars};
ghost use Rattle.pattern_syntax.specs.SetTree.{with_sets};
ghost use Rattle.pattern_syntax.specs.Sets.{Set, with_alike};

/// A set closed under folding has the characters that have the simple case folding of a member.
pub fn folded_sets_have_what_folds_alike()
    ensures { (s : Set) (c : ℕ) → IsTrue (with_alike s c) ↔ ((d : ℕ) × (IsTrue (s d) × (simple_fold d ≡ simple_fold c))) }
{}

/// A class with its set in place of its ranges has one list of ranges.
pub fn a_class_with_its_set_has_one_list_of_ranges()
    ensures chars { (xs ys : List (ℕ × ℕ)) → AreCharRanges xs → AreCharRanges ys → with_sets (class_chars xs) ≡ with_sets (class_chars ys) → xs ≡ ys }
    ensures bytes { (xs ys : List (ℕ × ℕ)) → AreByteRanges xs → AreByteRanges ys → with_sets (class_bytes xs) ≡ with_sets (class_bytes ys) → xs ≡ ys }
{
    hir_tree::a_set_has_one_list_of_ranges();
}

/// A text has at most one reading.
pub fn a_text_has_at_most_one_reading()
    ensures { (k : Flags) (text : List ℕ) (a b : Found) → Reads k text a → Reads k text b → a ≡ b }
{}
