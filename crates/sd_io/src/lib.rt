//! The outside of the program: a disk, a source of bytes, a sink of bytes, each a trait with what it promises, and laws for
//! those who work through any disk.
#![tactic(auto)]

mod disk;
mod examples;
mod fault;
mod laws;
mod meta;
mod outcome_examples;
mod path_texts;
mod stream;

pub use disk::Disk;
pub use examples::{
    links_lead_as_in_the_examples, paths_lead_as_in_the_examples, paths_name_as_in_the_examples,
    plain_paths_lead_as_in_the_examples,
};
pub use fault::{DiskFault, Failed};
pub use laws::{
    calls_on_files_keep_directories_and_links, paths_lead_where_they_name,
    paths_rest_on_directories_and_links, plain_paths_lead_as_others,
};
pub use meta::{Ident, Kind, ListId, Meta, RawEntry};
pub use outcome_examples::{
    files_are_exchanged_as_in_the_examples, files_leave_outcomes_behind_as_in_the_examples,
};
pub use path_texts::{
    texts_of_places_below_a_folder, texts_of_places_hold_their_names, texts_of_places_lead_there,
    texts_of_places_name_them,
};
pub use sd_base::{
    Globs, Ledger, NoMemory, Patterns, Silent, Steps, Tally, Text, Texts, Words,
    a_tally_holds_its_ticks,
};
pub use stream::{Sink, Source};
