//! Patterns as trees, and what they match.
//!
//! [`Hir`] is the tree of a pattern, and [`spots`] tells how much it takes to search. [`Look`] names what a pattern asks of a
//! place between two bytes of a text, and [`holds`] tells whether it holds there.
//!
//! `specs/Core.antt` says to what a pattern is written out, `specs/Cores.antt` to what a tree is, and `specs/Runs.antt` what
//! that matches; its worked examples and laws are functions here.
#![tactic(auto)]

mod byte_ranges;
mod char_ranges;
mod copying;
mod core_laws;
mod count;
mod examples;
mod hir;
mod laws;
mod lists;
mod look;
mod onward;
mod plain_text;
mod range_laws;
mod range_list;
mod ranges;
mod runs_examples;
mod runs_laws;
mod shared;
mod shared_bytes;
mod shared_chars;
mod side;
mod tree_laws;

pub use byte_ranges::ByteRanges;
pub use char_ranges::CharRanges;
pub use core_laws::{
    a_core_has_fewer_numbers_than_twice_the_spots_of_its_tree,
    a_core_is_made_of_the_cores_of_the_parts, a_core_takes_no_more_than_the_spots_of_its_tree,
};
pub use count::{group_count, spots};
pub use examples::{
    ascii_words_stand_as_in_the_examples, broken_sides_count_as_in_the_examples,
    lines_start_and_end_as_in_the_examples, words_stand_as_in_the_examples,
};
pub use hir::{Group, Hir, Hirs, Repeat};
pub use laws::{a_set_takes_the_member_that_begins_at_a_place, characters_stand_beside_a_place};
pub use lists::Bytes;
pub use look::{Look, holds};
pub use onward::{
    a_pattern_without_looks_matches_by_what_follows, groups_lie_ahead, looks_nowhere,
    patterns_look_nowhere_as_in_the_examples,
};
pub use plain_text::one_text_matches_where_it_stands;
pub use range_laws::{a_set_has_one_list_of_ranges, a_set_has_what_its_ranges_hold};
pub use runs_examples::{
    groups_match_as_in_the_examples, repetitions_match_as_in_the_examples,
    sets_and_looks_match_as_in_the_examples,
};
pub use runs_laws::{
    choices_join_runs, numbers_do_not_matter, preferred_is_the_first_run,
    preferred_matches_are_whole, rounds_are_not_cut_off, runs_go_forward,
};
pub use shared_bytes::SharedBytes;
pub use shared_chars::SharedChars;
pub use tree_laws::{
    a_tree_is_made_of_the_trees_of_the_parts, trees_in_a_row_are_sound_where_each_is,
    trees_in_a_row_have_the_groups_of_each, trees_in_a_row_take_the_spots_of_each,
};
