//! Laws of counted steps.

ghost use Rattle.std.specs.Prelude.{◌≡◌, ◌<◌, ◌+◌, ◌-◌, ◌^◌, ℕ, min};
ghost use Rattle.sd_base.specs.Steps.{tallied, IsTicked};
ghost use Rattle.sd_base.specs.declared.steps.Steps.{Steps};
ghost use Rattle.sd_base.specs.declared.steps.Tally.{Tally};

/// A tally holds as many ticks more as steps were taken, up to the greatest `u64`.
pub fn a_tally_holds_its_ticks()
    ensures { (n : ℕ) (old new : Steps Tally) → old.ledger.ticks < 2 ^ 64 → IsTicked tallied n old new
        → new.ledger.ticks ≡ min (old.ledger.ticks + n) (2 ^ 64 - 1) }
{}
