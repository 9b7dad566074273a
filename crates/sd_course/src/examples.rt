//! Worked examples of courses.

ghost use Rattle.std.specs.Prelude.{◌≡◌, ◌≢◌, ◌^◌, ◌-◌, ℕ, true, false, [], ◌∷◌, codes};
ghost use Rattle.sd_course.specs.Course.{AsTold, HasRisenBy, AppendsPrefix};

/// What is known of told and untold courses, of counts of faults, and of what a sink has taken.
pub fn courses_are_told()
    ensures told { (n m : ℕ) → AsTold true (n ≡ m) (n ≢ m) → n ≡ m }
    ensures untold { (n m : ℕ) → AsTold false (n ≡ m) (n ≢ m) → n ≢ m }
    ensures two_more { HasRisenBy 2 5 7 }
    ensures one_is_not_two { HasRisenBy 2 5 6 → ⊥ }
    ensures at_last { HasRisenBy 2 5 (2 ^ 64 - 1) }
    ensures nothing_taken { AppendsPrefix (codes "a") (codes "bc") (codes "a") }
    ensures one_taken { AppendsPrefix (codes "a") (codes "bc") (codes "ab") }
    ensures all_taken { AppendsPrefix (codes "a") (codes "bc") (codes "abc") }
    ensures nothing_else { AppendsPrefix [] (codes "bc") (codes "c") → ⊥ }
{}
