//! The images of a crash by a choice, in examples.

ghost use Rattle.std.specs.Prelude.{◌≡◌};
ghost use Rattle.sd_io.specs.Outcomes.{gone, this, any_file};
ghost use Rattle.sd_io.specs.OutcomeExamples.{new_file, left_three};
ghost use Rattle.mem_io.specs.Log.{chosen};

/// A place with three outcomes takes one by the remainder of the choice, which is rotated by the places before it.
pub fn images_take_outcomes_as_in_the_examples()
    ensures first { chosen 3 0 left_three ≡ gone }
    ensures second { chosen 4 0 left_three ≡ any_file }
    ensures third { chosen 4 1 left_three ≡ this new_file }
    ensures around { chosen 1 1 left_three ≡ this new_file }
    ensures far { chosen 4 64 left_three ≡ any_file }
{}
