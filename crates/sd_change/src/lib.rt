//! What is done to bytes, whatever does it.
//!
//! A change is a relation between old bytes, new bytes and a number of replaced spans. All that rewrites files or streams
//! stands on it, and on [`Replaces`], which makes the new bytes.
#![tactic(auto)]

mod changed;
mod laws;
mod replaces;

pub use changed::{Changed, Rewritten};
pub use laws::a_file_has_one_change;
pub use replaces::Replaces;
