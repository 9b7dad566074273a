//! Plans of what is done to files, and their carrying out, whatever changes the bytes.
//!
//! [`plan_files`] makes the plan of some files and changes nothing. [`apply_plan`] checks each line of a plan before it writes
//! anything, and rewrites the files then. Where no two lines lead to one file, a crash at any moment leaves each file old or new.
#![tactic(auto)]

mod applying;
mod examples;
mod fault;
mod laws;
mod planning;

pub use applying::apply_plan;
pub use examples::{files_are_planned_as_in_the_examples, lines_are_checked_as_in_the_examples};
pub use fault::ApplyFault;
pub use laws::{
    a_plan_ends_with_the_report, a_plan_is_right_where_it_was_made, listed_files_lead_apart,
};
pub use planning::plan_files;
