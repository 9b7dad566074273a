//! The words of the program's command line.
//!
//! [`Options::read`] reads them by the command of `specs/Command.antt`, and its contract is one equation: what is read is
//! `order_of` of the words, and `Usage` comes exactly where there is no order. `specs/Order.antt` says what the order is, and
//! `specs/Plain.antt` says it again for words that need no knowledge of how a command line is parsed.
#![tactic(auto)]

mod command;
mod examples;
mod fault;
mod laws;
mod matched;
mod number;
mod options;

pub use examples::{
    applied_plans_are_as_in_the_examples, ignore_rules_are_as_in_the_examples,
    joined_words_are_read_as_in_the_examples, mistakes_are_shown_as_in_the_examples,
    numbers_and_exclusions_are_as_in_the_examples, options_are_read_as_in_the_examples,
    other_words_are_read_as_in_the_examples, refused_words_are_as_in_the_examples,
    tree_commands_are_as_in_the_examples,
};
pub use fault::OptionsFault;
pub use laws::{
    file_words_ask_for_their_files, plain_words_have_the_table, tree_words_ask_for_their_tree,
};
pub use options::Options;
