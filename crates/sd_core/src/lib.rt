//! Search and replace in whole directory trees.
//!
//! [`run`] is the program: it reads the words of a command line, works on the disk that it is handed, and answers with
//! the status to end with. `specs/Mode.antt` says what a command works on, and a definition for each mode what it promises.
//! [`sweep`] rewrites the chosen files of a tree, [`replace_stream`] what is read from a source. The other calls that commands are
//! made of, [`replace_file`] and [`Options::read`], are handed on.
#![tactic(auto)]

mod app;
mod applying;
mod asking;
mod commands;
mod demo;
mod ended;
mod error;
mod examples;
mod ignoring;
mod laws;
mod planning;
mod printing;
mod selecting;
mod sweeping;
mod top;

pub use app::{App, AppSource, replace_stream};
pub use applying::apply_plan;
pub use asking::replacer_of;
pub use demo::sweep_demo;
pub use ended::{Ended, Why};
pub use error::{Error, Result};
pub use examples::{sweeps_fail_as_in_the_examples, trees_are_rewritten_as_in_the_examples};
pub use file_rewrite::{JobFault, Rewrite, replace_file};
pub use ignoring::sweep_ignoring;
pub use laws::{
    a_crash_leaves_chosen_files_old_or_new, a_crash_leaves_rewritten_files_new,
    a_plan_ends_with_the_report, a_plan_of_a_tree_leads_apart,
};
pub use many_files::{FailedJobs, Report};
pub use planning::plan;
pub use printing::print_report;
pub use sd_ignore::Ignore;
pub use sd_plan::{Digest, Plan, PlanFault, PlanLine, read_plan, write_plan};
pub use sd_words::{Options, OptionsFault};
pub use sweeping::{sweep, sweep_capped};
pub use top::run;
