//! What a disk or a stream tells over the course of a call, for those whose answers have causes there.
//!
//! A course is what was told before and after a call, and whether the content is told at all. [`courses_are_told`] has
//! worked examples.
#![tactic(auto)]

mod examples;

pub use examples::courses_are_told;
