//! Trees that a crash leaves of a journalled change, and trees that it doesn't, in examples.

ghost use Rattle.std.specs.Prelude.{◌≡◌, ◌∷◌, ◌++◌, [], codes};
ghost use Rattle.sha2.specs.Sha256.{sha256};
ghost use Rattle.journal_text.specs.declared.line.Line.{Line};
ghost use Rattle.journal_text.specs.Journal.{text_of};
ghost use Rattle.change_phases.specs.Between.{stage_of, IsWork, IsJournalFor, Between};
ghost use Rattle.change_phases.specs.Examples.{the_work, the_lines, x_place, x_stage, y_stage, one_stage, two_stages, named_journal, one_placed, two_placed, removed_journal, all_done, half_without_journal, stage_missing, other_stage, other_file, other_mode, another_file};

/// Each moment of the change of two files is between.
pub fn moments_of_a_change_are_between()
    ensures work { IsWork the_work }
    ensures journal { IsJournalFor the_work the_lines }
    ensures before { Between the_work the_work.tree }
    ensures one_stage { Between the_work one_stage }
    ensures two_stages { Between the_work two_stages }
    ensures named_journal { Between the_work named_journal }
    ensures one_placed { Between the_work one_placed }
    ensures two_placed { Between the_work two_placed }
    ensures removed_journal { Between the_work removed_journal }
    ensures all_done { Between the_work all_done }
{}

/// Wrong trees aren't.
pub fn wrong_trees_are_not_between()
    ensures half_without_journal { Between the_work half_without_journal → ⊥ }
    ensures stage_missing { Between the_work stage_missing → ⊥ }
    ensures other_stage { Between the_work other_stage → ⊥ }
    ensures other_file { Between the_work other_file → ⊥ }
    ensures other_mode { Between the_work other_mode → ⊥ }
    ensures another_file { Between the_work another_file → ⊥ }
{}
