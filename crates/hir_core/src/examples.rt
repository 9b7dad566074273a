//! Worked examples of what the search for starts of lines finds.

ghost use Rattle.std.specs.Prelude.{◌≡◌, ◌∷◌, [], codes, Some, None};
ghost use Rattle.hir_core.specs.LineStarts.{line_start_at, line_start_found};

/// What `^` alone finds in two lines: an empty match where a line starts, also behind the last newline, and with it a group that is unset.
#[tactic(auto, unfolding(hir_tree::proofs::Computing::looks))]
pub fn line_starts_are_found_as_in_the_examples()
    ensures start { line_start_found 0 (codes "a\nb") 0 ≡ Some (Some (0, 0) ∷ []) }
    ensures inside { line_start_found 0 (codes "a\nb") 1 ≡ None }
    ensures group { line_start_found 1 (codes "a\nb") 2 ≡ Some (Some (2, 2) ∷ None ∷ []) }
    ensures next { line_start_at (codes "a\nb") 2 ≡ Some 2 }
    ensures end { line_start_at (codes "a\n") 2 ≡ Some 2 }
    ensures no_return { line_start_at (codes "a\rb") 2 ≡ None }
{}
