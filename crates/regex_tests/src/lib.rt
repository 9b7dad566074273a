//! Tests of matchers of patterns by public calls alone, of what no table says: cloned builders, the default matchers, the calls
//! on trees, and the steps of hostile patterns.
//!
//! They stand apart from the crates that they test, so that a check of those reads no test. What matchers find is told by the tables
//! of `regex_cases`.
#![tactic(auto)]

#[cfg(test)]
mod builders;
#[cfg(test)]
mod defaults;
#[cfg(test)]
mod hostile;
#[cfg(test)]
mod trees;
