//! Searches in bytes, whatever finds the matches.
//!
//! A [`Matcher`] finds spans in a haystack of bytes. What it finds is settled by one thing: at each place of a haystack it
//! prefers one end, or none. From that follow all calls: the first match is the preferred span with the least start, and the
//! iterating and replacing calls run along the *fair cover*, the spans that a search from the left finds one after the other.
//! `one` in `one two one` gives the spans 0 to 3 and 8 to 11.
//!
//! - A matcher of your own writes [`find_at`](Matcher::find_at), [`new_captures`](Matcher::new_captures) and
//!   [`captures_at`](Matcher::captures_at), and has all other calls.
//! - A searcher takes any `M: Matcher` and calls [`find_iter`](Matcher::find_iter) or [`replace`](Matcher::replace).
#![tactic(auto)]

mod byte_set;
mod captures;
mod equality;
mod fault;
mod laws;
mod line_match_kind;
mod line_terminator;
mod matcher;
mod reference_examples;
mod references;
mod span;
mod visiting;

pub use byte_set::ByteSet;
pub use captures::{Captures, NoCaptures};
pub use equality::{
    clones_are_always_made, clones_are_their_values, equal_references_say_the_same,
    equal_spans_hash_alike, equal_terminators_hash_alike,
};
pub use fault::{Fault, NoError};
pub use laws::{a_fair_cover_exists, captures_at_the_same_spans, one_fair_cover, same_bytes_back};
pub use line_match_kind::LineMatchKind;
pub use line_terminator::LineTerminator;
pub use matcher::Matcher;
pub use reference_examples::{
    pieces_are_as_in_the_examples, references_read_as_in_the_examples,
    texts_expand_as_in_the_examples,
};
pub use references::{CaptureRef, Ref, find_cap_ref, interpolate};
pub use span::Match;
