//! Laws of lists of ranges.

ghost use Rattle.std.specs.Prelude.{◌≡◌, ◌↔◌, ℕ, List, true};
ghost use Rattle.std.specs.Char.{IsScalar};
ghost use Rattle.hir_tree.specs.Ranges.{AreByteRanges, AreCharRanges, Holds};
ghost use Rattle.hir_tree.specs.Runs.{in_set};

/// A set of bytes or of characters has one list of ranges alone: two lists that hold the same are the same.
pub fn a_set_has_one_list_of_ranges()
    ensures bytes { (xs ys : List (ℕ × ℕ)) → AreByteRanges xs → AreByteRanges ys → ((b : ℕ) → Holds xs b ↔ Holds ys b) → xs ≡ ys }
    ensures chars { (xs ys : List (ℕ × ℕ)) → AreCharRanges xs → AreCharRanges ys → ((c : ℕ) → IsScalar c → Holds xs c ↔ Holds ys c) → xs ≡ ys }
{}

/// The test whether a number is in a set says whether one of its ranges holds it.
pub fn a_set_has_what_its_ranges_hold()
    ensures { (set : List (ℕ × ℕ)) (n : ℕ) → (in_set set n ≡ true) ↔ Holds set n }
{}
