//! The rewriting of one file, whatever changes its bytes.
//!
//! [`replace_file`] reads the regular file that a path leads to, lets a replacer make its new bytes, and exchanges them.
//! A crash at any moment leaves the file old or new. Every refusal has its cause, a [`JobFault`].
#![tactic(auto)]

mod examples;
mod fault;
mod laws;
mod path;
mod putting;
mod rewrite;
mod rewriting;

pub use examples::files_are_rewritten_as_in_the_examples;
pub use fault::JobFault;
pub use laws::rewriting_keeps_files;
pub use path::is_no_path;
pub use putting::put_file;
pub use rewrite::Rewrite;
pub use rewriting::{FoundFile, file_change, find_file, replace_file};
