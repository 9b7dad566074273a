//! The line of an error, printed to a sink. No memory is taken for it.
//!
//! [`print_text`] prints a text that is there, and [`print_shown`] whatever shows itself: its text is made in a window of a
//! fixed size, as often as it takes.
#![tactic(auto)]

mod line;
mod shown;
mod window;

pub use line::{print_shown, print_text};
