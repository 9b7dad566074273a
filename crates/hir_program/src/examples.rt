//! Worked examples of what a search may pass over: runs of bytes, and bytes that a match doesn't begin before.

ghost use Rattle.std.specs.Prelude.{◌≡◌, ◌+◌, ◌^◌, ◌∷◌, [], true, false, codes, Some, None};
ghost use Rattle.hir_program.specs.ByteRuns.{IsRunEnd};
ghost use Rattle.hir_program.specs.Examples.{of_a, a_or_b_then_c, takers, required};
ghost use Rattle.hir_program.specs.Masks.{match_bit};
ghost use Rattle.hir_program.specs.Scan.{IsRequired, IsPassedOver, stops_at};
ghost use Rattle.hir_program.specs.declared.scan.prefilter.Stops.TheVariants as stops;
ghost use Rattle.hir_tree.specs.declared.look.Look.TheVariants.{EndLF};

/// Where a run of `a` ends that begins at a place.
pub fn runs_of_bytes_end_as_in_the_examples()
    ensures before_another { IsRunEnd of_a (codes "aab") 0 2 }
    ensures not_earlier { IsRunEnd of_a (codes "aab") 0 1 → ⊥ }
    ensures not_later { IsRunEnd of_a (codes "aab") 0 3 → ⊥ }
    ensures at_once { IsRunEnd of_a (codes "baa") 0 0 }
    ensures with_the_text { IsRunEnd of_a (codes "baa") 1 3 }
{}

/// Each match of `[ab]c` passes `c`, and `[ab]` too. What may be tried before has to hold the start, and what follows it.
pub fn spots_are_required_as_in_the_examples()
    ensures last { IsRequired a_or_b_then_c (0 ∷ 1 ∷ []) None 1 (required 2 3) }
    ensures first { IsRequired a_or_b_then_c (0 ∷ 1 ∷ []) None 1 (required 1 1) }
    ensures not_begun { IsRequired a_or_b_then_c (0 ∷ 1 ∷ []) None 1 (required 2 2) → ⊥ }
    ensures not_followed { IsRequired a_or_b_then_c (0 ∷ 1 ∷ []) None 1 (required 2 1) → ⊥ }
{}

/// Where each match of `[ab]c` passes `c`, all bytes but that are passed over; an end of a line isn't, where a match may end there.
pub fn bytes_are_passed_over_as_in_the_examples()
    ensures other { IsPassedOver takers 0 None (required 2 3) 97 }
    ensures needed { IsPassedOver takers 0 None (required 2 3) 99 → ⊥ }
    ensures line_end { IsPassedOver takers 0 (Some EndLF) (required 2 3) 10 }
    ensures match_end { IsPassedOver takers 0 (Some EndLF) (required 0 (2 ^ match_bit + 3)) 10 → ⊥ }
{}

/// At which bytes a prefilter stops: at one, or at all but those of a table.
pub fn stops_are_as_in_the_examples()
    ensures one { stops_at (stops.One 99) 99 ≡ true }
    ensures not_one { stops_at (stops.One 99) 97 ≡ false }
    ensures other { stops_at (stops.AllBut of_a) 99 ≡ true }
    ensures passed { stops_at (stops.AllBut of_a) 97 ≡ false }
{}
