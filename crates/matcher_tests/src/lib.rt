//! Tests of matchers and of globs by their public calls, as far as they are no tables: those are `glob_cases`.
//!
//! They stand above both, so that neither is proved a second time for its tests.
#![tactic(auto)]

#[cfg(test)]
mod capturing;
#[cfg(test)]
mod expansion;
#[cfg(test)]
mod finding;
#[cfg(test)]
mod gathered;
#[cfg(test)]
mod line_ends;
#[cfg(test)]
mod one_byte;
#[cfg(test)]
mod pairs;
#[cfg(test)]
mod plain;
#[cfg(test)]
mod replacing;
#[cfg(test)]
mod sets;
#[cfg(test)]
mod slow_globs;
#[cfg(test)]
mod values;
