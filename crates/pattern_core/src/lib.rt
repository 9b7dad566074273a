//! Patterns as texts: the flags that they are read under, what is answered, and texts as patterns.
//!
//! `specs/Answers.antt` says what is read in a text. How patterns are written and what they mean stands in `pattern_syntax`,
//! whose public names are names here too.
#![tactic(auto)]

mod escaping;
mod fault;
mod flags;
mod parsed;
mod parsing;

pub use escaping::{
    an_escaped_text_is_parsed_as_itself, an_escaped_text_is_read_as_itself, escape, is_meta,
};
pub use fault::PatternFault;
pub use flags::PatternFlags;
pub use parsed::Parsed;
pub use parsing::parse;
pub use pattern_syntax::{
    Flags, a_class_with_its_set_has_one_list_of_ranges, a_text_has_at_most_one_reading,
    behind_blanks, bytes, captured, characters, choice, class_of_bytes, class_of_characters,
    escapes_are_read_as_in_the_examples, folded, folded_sets_have_what_folds_alike,
    folding_is_read_as_in_the_examples, groups_are_read_as_in_the_examples, makes_range,
    members_are_read_as_in_the_examples, operations_are_read_as_in_the_examples,
    places_are_read_as_in_the_examples, ranges_are_read_as_in_the_examples, repeated,
    repetitions_are_read_as_in_the_examples, sequence,
};
