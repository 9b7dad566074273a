//! The steps of a walk over the directories of a disk, one at a time.
#![tactic(auto)]

mod begin;
mod enter;
mod examples;
mod inside;
mod keep;
mod leave;
mod next;
mod open;
mod see;
mod take;

pub use examples::{faults_are_told_as_in_the_examples, levels_are_counted_as_in_the_examples};
pub use inside::Inside;
pub use leave::{give_up, skip_top};
pub use next::next_item;
