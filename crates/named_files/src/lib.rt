//! Files that words name, shown as they would be.
//!
//! [`preview_named`] writes to a sink what they would become, and changes nothing; its first fault ends it.
#![tactic(auto)]

mod examples;
mod fault;
mod preview;

pub use examples::named_files_are_shown_as_in_the_examples;
pub use fault::PreviewFault;
pub use preview::preview_named;
