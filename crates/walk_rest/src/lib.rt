//! What a walk over the directories of a disk gives: its listing, what is left of it, and its steps; and how it reads
//! the list of a directory.
#![tactic(auto)]

mod device;
mod entry;
mod error;
mod examples;
mod existence;
mod laws;
mod level;
mod names;
mod options;
mod order;
mod read;

pub use device::device_num;
pub use entry::{DirEntry, DirEntryExt};
pub use error::{Error, ErrorKind};
pub use examples::{
    file_names_are_as_in_the_examples, listings_are_as_in_the_examples,
    lists_are_sorted_as_in_the_examples, steps_are_as_in_the_examples,
    steps_are_refused_as_in_the_examples,
};
pub use existence::{chains_are_as_in_the_examples, chains_are_bounded, each_root_has_a_listing};
pub use laws::{
    an_unread_directory_is_due_whole, file_names_order_as_names, items_of_run,
    keeping_a_list_cuts_its_part, listing_is_one, lists_are_sorted_in_one_way,
    reading_a_directory_cuts_its_part, skipping_takes_a_part_off,
};
pub use level::{Due, Entries, Folder, Level};
pub use options::Options;
pub use order::{ByCmp, ByFileName, ByKey, Order, Unsorted};
pub use read::{entry_of, read_folder, read_list};
