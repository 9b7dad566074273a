//! The program of a pattern, as Pike's virtual machine runs one, and its filter: shift-and behind a rare-byte prefilter.
//!
//! A pattern's tree is laid as a program of [`Spot`]s, which the search follows. A [`Scan`] tells the next place where a match may
//! begin, and what may go on at a place. What a pattern is, and what it matches, says the crate `hir_tree`.
#![tactic(auto)]

mod byte_run;
mod compile;
mod entry;
mod examples;
mod loops;
mod push;
mod scan;
mod size;
mod spot;
mod starts;

pub use byte_run::{ByteTable, run_end};
pub use compile::program;
pub use examples::{
    bytes_are_passed_over_as_in_the_examples, runs_of_bytes_end_as_in_the_examples,
    spots_are_required_as_in_the_examples, stops_are_as_in_the_examples,
};
pub use loops::{Loops, Ways};
pub use scan::{Candidate, SPOTS, Scan};
pub use spot::Spot;
pub use starts::Starts;
