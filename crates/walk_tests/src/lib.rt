//! Tests of walks by public calls alone: worked walks, links that loop, roots of all kinds, bounds on depths, filters, failing disks,
//! and random trees under all options.
//!
//! They stand apart from the crates that they test, so that none of those is proved a second time for its tests.
#![tactic(auto)]

#[cfg(test)]
mod asking;
#[cfg(test)]
mod calls;
#[cfg(test)]
mod disks;
#[cfg(test)]
mod entries;
#[cfg(test)]
mod failing;
#[cfg(test)]
mod fake;
#[cfg(test)]
mod filters;
#[cfg(test)]
mod links;
#[cfg(test)]
mod orders;
#[cfg(test)]
mod random;
#[cfg(test)]
mod roots;
#[cfg(test)]
mod rows;
#[cfg(test)]
mod trees;
#[cfg(test)]
mod worked;
