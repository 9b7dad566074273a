//! Tests of patterns by public calls alone: trees, their lists, and searches.
//!
//! They stand apart from the crates that they test, so that a check of those reads no test.
#![tactic(auto)]

#[cfg(test)]
mod all_small_patterns;
#[cfg(test)]
mod lists;
#[cfg(test)]
mod loops;
#[cfg(test)]
mod many_spots;
#[cfg(test)]
mod patterns;
#[cfg(test)]
mod searches;
#[cfg(test)]
mod trees;
