//! Matchers of patterns.
//!
//! A [`RegexMatcherBuilder`] holds options and builds a [`RegexMatcher`] of one pattern or several. The options are equations on
//! the trees of patterns: `specs/Options.antt` says which pattern they ask for, `specs/Readings.antt` how patterns are read
//! under them, and `specs/Building.antt` when a matcher is built and when it is refused.
#![tactic(auto)]

mod assembling;
mod builder;
mod building;
mod captures;
mod clones;
mod error;
mod examples;
mod fitting;
mod laws;
mod matcher;
mod names;
mod non_matching;
mod non_matching_examples;
mod options;
mod reading;
mod stripping;

pub use builder::RegexMatcherBuilder;
pub use captures::RegexCaptures;
pub use clones::{clones_are_always_made, clones_are_their_values};
pub use error::{Error, ErrorKind, RegexFault};
pub use examples::{
    bytes_are_in_no_match_as_in_the_examples, classes_are_stripped_as_in_the_examples,
    options_ask_for_edges_as_in_the_examples, patterns_are_joined_as_in_the_examples,
    patterns_are_refused_as_in_the_examples, terminators_are_told_as_in_the_examples,
};
pub use fitting::fit_together;
pub use laws::{
    no_match_holds_a_terminator, stripping_is_refused_exactly, stripping_keeps_spots_and_groups,
    stripping_leaves_the_clear_runs, what_is_not_taken_is_in_no_match,
};
pub use matcher::RegexMatcher;
pub use non_matching::non_matching_bytes;
pub use non_matching_examples::{
    anchors_ask_for_bytes_as_in_the_examples, bytes_are_taken_as_in_the_examples,
};
pub use reading::folding_changes_classes_alone;
pub use stripping::{check_ban, strip_from_match};
