//! Tests of the words of a command line, by public calls alone.
//!
//! They stand apart from `sd_words`, so that it isn't proved a second time for its tests.
#![tactic(auto)]

#[cfg(test)]
mod reading;
