//! Ordered walks over the directories of a disk.
#![tactic(auto)]

mod collect;
mod examples;
mod filter;
mod gather;
mod into_iter;
mod laws;
mod walk;
mod walk_dir;

pub use examples::{
    collections_are_as_in_the_examples, depths_are_as_in_the_examples,
    filters_are_as_in_the_examples,
};
pub use filter::FilterEntry;
pub use gather::{Gathers, Prunes};
pub use into_iter::IntoIter;
pub use laws::{
    an_entered_directory_lies_unread, calls_give_the_listing, each_max_open_has_the_same_listing,
    entries_were_listed, failures_were_counted,
};
pub use walk::Walk;
pub use walk_dir::WalkDir;
pub use walk_rest::{
    ByCmp, ByFileName, ByKey, DirEntry, DirEntryExt, Error, ErrorKind, Options, Order, Unsorted,
    device_num,
};

/// What a call of a walk answers.
pub type Result<T> = std::result::Result<T, Error>;
