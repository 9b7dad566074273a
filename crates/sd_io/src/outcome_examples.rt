//! What calls leave to a crash, in examples.

ghost use Rattle.std.specs.Prelude.{◌≡◌, ◌∷◌, []};
ghost use Rattle.sd_io.specs.Outcomes.{gone, this, any_file, own, older, after_write, after_move, after_no_move, after_remove, after_folder_sync};
ghost use Rattle.sd_io.specs.OutcomeExamples.{old_file, new_file, the_folder, the_file, aside, at_first, filled, filled_and_synced, exchanged};

/// A file is exchanged for one that was written beside it.
pub fn files_are_exchanged_as_in_the_examples()
    ensures beside { filled aside ≡ older gone ∷ own any_file ∷ own any_file ∷ [] }
    ensures on_the_medium { filled_and_synced aside ≡ older gone ∷ own (this new_file) ∷ own (this new_file) ∷ [] }
    ensures in_place { after_move aside the_file filled_and_synced the_file ≡ older (this old_file) ∷ own (this new_file) ∷ own (this new_file) ∷ [] }
    ensures left { after_move aside the_file filled_and_synced aside ≡ older gone ∷ older (this new_file) ∷ older (this new_file) ∷ older gone ∷ [] }
    ensures durable { after_folder_sync exchanged the_folder (after_move aside the_file filled_and_synced) the_file ≡ own (this new_file) ∷ own (this new_file) ∷ [] }
    ensures gone_for_good { after_folder_sync exchanged the_folder (after_move aside the_file filled_and_synced) aside ≡ older gone ∷ [] }
    ensures folder_stays { after_folder_sync exchanged the_folder (after_move aside the_file filled_and_synced) the_folder ≡ at_first the_folder }
    ensures not_synced { after_move aside the_file filled the_file ≡ older (this old_file) ∷ own any_file ∷ own any_file ∷ [] }
    ensures failed_in_place { after_no_move aside the_file filled_and_synced the_file ≡ own (this old_file) ∷ older (this new_file) ∷ older (this new_file) ∷ [] }
    ensures failed_beside { after_no_move aside the_file filled_and_synced aside ≡ older gone ∷ own (this new_file) ∷ own (this new_file) ∷ older gone ∷ [] }
{}

/// What a file leaves behind where it goes away doesn't come with it when it comes back and goes again.
pub fn files_leave_outcomes_behind_as_in_the_examples()
    ensures removed { after_remove the_file at_first the_file ≡ older (this old_file) ∷ older gone ∷ [] }
    ensures written_and_gone { after_move the_file aside (after_write the_file at_first) the_file ≡ older (this old_file) ∷ older any_file ∷ older gone ∷ [] }
    ensures back { after_move aside the_file (after_move the_file aside at_first) the_file ≡ older (this old_file) ∷ older gone ∷ own (this old_file) ∷ [] }
    ensures gone_again { after_move the_file aside (after_move aside the_file (after_move the_file aside at_first)) aside
        ≡ older gone ∷ older (this old_file) ∷ older gone ∷ own (this old_file) ∷ [] }
{}
