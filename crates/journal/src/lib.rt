//! A change of many files that a crash at any moment leaves such that recovery makes all of them old, or all new.
#![tactic(auto)]

mod beside;
mod changing;
mod clearing;
mod fault;
mod finding;
mod finishing;
mod naming;
mod placing;
mod planning;
mod reading;
mod recovering;
mod stages;

pub use changing::change_files;
pub use fault::JournalFault;
pub use recovering::recover;
