//! What takes the place of each match.
//!
//! A [`Replacer`] is a pattern, a text that takes the place of each match, and a limit. Asked of bytes it gives the new bytes.
//! `specs/Replacement.antt` says which they are, and `specs/Making.antt` which replacer texts and flags ask for.
#![tactic(auto)]

mod ambiguous;
mod changing;
mod error;
mod examples;
mod flags;
mod in_place;
mod laws;
mod making;
mod quota;
mod replacer;
mod searching;
mod template;
mod text_examples;
mod unescaping;

pub use ambiguous::validate_replace;
pub use error::{InvalidReplaceCapture, ReplaceFault, ReplacerFault};
pub use examples::{
    groups_take_the_places_of_references, limits_count_the_first_matches,
    texts_take_the_places_of_matches,
};
pub use laws::{a_limit_takes_the_first_spans, no_replaced_span_holds_a_line_feed, one_change};
pub use making::{an_asked_replacement_is_readable, one_replacement};
pub use replacer::{Counted, Replacer, Substitute};
pub use text_examples::{
    flags_ask_for_options_as_in_the_examples, references_are_ambiguous_as_in_the_examples,
    texts_are_unescaped_as_in_the_examples,
};
pub use unescaping::unescape;
