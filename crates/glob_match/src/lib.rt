//! Globs over paths: whether a glob is valid, and whether it fits a path.
//!
//! A glob is any number of `!` and a sequence of pieces, over characters; the separator is `/`.
//!
//! - `?` takes one character but `/`, and `*` any text without `/`.
//! - A star token is `**` and any number of `/**` after it. At the glob's end it takes any text. Followed by `/`, and
//!   begun at the glob's start or just after `/` or with at least one `/**`, it takes with that `/` any text after which
//!   the place is the path's start or just after a `/`. Else it is as `*`.
//! - `[a-z_]` takes one character of the class, `/` too, and `[^a-z]` or `[!a-z]` one that isn't in it. A `]` that comes
//!   first is a member.
//! - `{a,b}` takes what one of its options takes. Braces nest, at most ten deep.
//! - `\` before a character takes its meaning away; `\b`, `\n`, `\r` and `\t` are controls.
//! - Any other character takes itself.
//!
//! An odd number of `!` negates the answer. An invalid glob fits nothing.
//!
//! A glob that fits captures a range of the path's bytes for each `?`, `*`, star token, class and brace, in the order of
//! their beginnings, and nothing under an odd number of `!`. They're those of the first way to take the path: from
//! left to right, wildcards take the shortest text first, and braces their options in order.
#![tactic(auto)]

mod braces;
mod captures;
mod examples;
mod glob;
mod laws;
mod matching;
mod onward;
mod parse;
mod piece;
mod places;
mod validity;
mod walk;

pub use captures::glob_match_with_captures;
pub use examples::{
    captures_are_as_in_the_examples, globs_are_read_as_in_the_examples,
    globs_fit_as_in_the_examples, hard_globs_are_read_as_in_the_examples,
};
pub use glob::Glob;
pub use laws::{
    as_many_ranges_of_each_path, one_list_of_ranges, one_more_sign_turns_the_answer,
    plain_fits_itself,
};
pub use matching::{glob_match, glob_match_steps};
pub use validity::glob_valid;
