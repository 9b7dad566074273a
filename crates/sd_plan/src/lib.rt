//! Plans: what some files are, and what they are to become, as a text that says so exactly.
//!
//! A [`Plan`] has a line for each file. [`write_plan`] gives its text, and [`read_plan`] the plan of a text; a text is the text of
//! at most one plan. A path stands in it by [`escape_path`], and bytes by their [`digest`].
#![tactic(auto)]

mod digests;
mod escaping;
mod examples;
mod fault;
mod fields;
mod hashing;
mod laws;
mod line;
mod plan;
mod reading;
mod writing;

pub use digests::Digest;
pub use escaping::{escape_path, push_escaped, read_path, unescape_path};
pub use examples::{
    paths_are_escaped_as_in_the_examples, plans_have_their_texts, these_are_no_fields,
    these_are_no_plans,
};
pub use fault::PlanFault;
pub use fields::{cut, read_digest};
pub use hashing::digest;
pub use laws::{a_plan_is_text, a_text_has_one_plan, an_escape_has_one_path};
pub use line::PlanLine;
pub use plan::Plan;
pub use reading::read_plan;
pub use writing::write_plan;
