//! Tests of the program by public calls alone, where a table of commands can't say them.
//!
//! They stand above the crates that they test, so that none of those is proved a second time for its tests.
#![tactic(auto)]

#[cfg(test)]
mod calls;
#[cfg(test)]
mod commands;
#[cfg(test)]
mod crashes;
#[cfg(test)]
mod crowded;
#[cfg(test)]
mod disks;
#[cfg(test)]
mod long_search;
#[cfg(test)]
mod lying;
#[cfg(test)]
mod patterns;
#[cfg(test)]
mod running;
#[cfg(test)]
mod streams;
#[cfg(test)]
mod swapping;
#[cfg(test)]
mod trees;
