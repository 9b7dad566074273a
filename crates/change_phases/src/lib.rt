//! A journalled change of many files: what a crash may leave of it, phase by phase, and when it can be recovered from.
//!
//! The word for all of it is `Between`: no journal stands and the files are all old or all new, or a journal stands with the new bytes of
//! each file at a stage. Contracts of the calls that make such a change cite these definitions, their proofs these laws.
#![tactic(auto)]

mod examples;
mod laws;
mod phases;
mod recovery;

pub use examples::{moments_of_a_change_are_between, wrong_trees_are_not_between};
pub use laws::{
    a_file_is_settled_by_a_sync, a_folder_is_put_on_the_medium, settled_files_stay_settled,
};
pub use phases::{
    a_change_begins, a_file_is_put_in_place, a_sync_stays_in_its_phase,
    images_of_a_phase_are_between, lines_of_files_are_a_journal, stages_are_made_and_removed,
    the_journal_gets_its_name, the_journal_is_removed,
};
pub use recovery::{
    a_change_is_recovered_from_any_image, a_crash_can_be_recovered_from,
    paths_to_directories_lead_there_between,
};
