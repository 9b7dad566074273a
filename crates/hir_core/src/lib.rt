//! The search for a pattern: bounded backtracking over blocks of places, and Pike's virtual machine place by place for a pattern without a
//! filter or of more than 256 spots.
//!
//! A [`Searcher`] finds a pattern's matches in texts, and [`Slots`] hold the groups of a match. What a pattern is, and what it
//! matches, says the crate `hir_tree`, which is passed on here.
#![tactic(auto)]

mod block;
mod blocks;
mod closure;
mod examples;
mod first_way;
mod line_start;
mod pass;
mod plain;
mod run_over;
mod searcher;
mod seen;
mod set_size;
mod slots;
mod stack_search;
mod thread_list;
mod trail;
mod visited;

pub use examples::line_starts_are_found_as_in_the_examples;
pub use hir_tree::{
    ByteRanges, Bytes, CharRanges, Group, Hir, Hirs, Look, Repeat,
    a_core_has_fewer_numbers_than_twice_the_spots_of_its_tree,
    a_core_is_made_of_the_cores_of_the_parts, a_core_takes_no_more_than_the_spots_of_its_tree,
    a_pattern_without_looks_matches_by_what_follows, a_set_has_one_list_of_ranges,
    a_set_has_what_its_ranges_hold, a_set_takes_the_member_that_begins_at_a_place,
    a_tree_is_made_of_the_trees_of_the_parts, ascii_words_stand_as_in_the_examples,
    broken_sides_count_as_in_the_examples, characters_stand_beside_a_place, choices_join_runs,
    group_count, groups_lie_ahead, groups_match_as_in_the_examples, holds,
    lines_start_and_end_as_in_the_examples, looks_nowhere, numbers_do_not_matter,
    one_text_matches_where_it_stands, patterns_look_nowhere_as_in_the_examples,
    preferred_is_the_first_run, preferred_matches_are_whole, repetitions_match_as_in_the_examples,
    rounds_are_not_cut_off, runs_go_forward, sets_and_looks_match_as_in_the_examples, spots,
    trees_in_a_row_are_sound_where_each_is, trees_in_a_row_have_the_groups_of_each,
    trees_in_a_row_take_the_spots_of_each, words_stand_as_in_the_examples,
};
pub use searcher::Searcher;
pub use slots::Slots;
