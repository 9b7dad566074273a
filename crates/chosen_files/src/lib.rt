//! The files that a command on a tree works on: those below a root that fit a glob and aren't empty, but for what rules ignore.
//!
//! [`choose_kept`] lists them all before the first is worked on. A walk gives what lies below the root, in the order of names, and
//! leaves unread the directories that the rules ignore; of its entries, each as it comes, the regular files are picked whose path from the
//! root fits one of the globs, and which have a byte. [`choose_capped`] does so without rules.
#![tactic(auto)]

mod below;
mod choice;
mod examples;
mod fault;
mod globs;
mod laws;
mod left_out;
mod pick;

pub use choice::{Choice, choose_capped, choose_kept};
pub use examples::{
    choices_fail_as_in_the_examples, entries_are_counted_as_in_the_examples,
    files_are_kept_as_in_the_examples, files_are_picked_as_in_the_examples,
    lists_are_kept_as_in_the_examples, walks_are_plain_as_in_the_examples,
};
pub use fault::ChoiceFault;
pub use globs::read_globs;
pub use laws::{
    a_walk_lists_all_that_is_seen, a_whole_walk_lists_all, chosen_is_the_listing,
    fewer_are_not_many, kept_files_are_seen, no_rules_keep_all, one_list_of_chosen_files,
    one_list_of_kept_files, paths_lead_to_chosen_files, picked_files_are_kept,
};
