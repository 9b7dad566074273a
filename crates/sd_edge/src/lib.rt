//! The outside of the program: the traits, their forms in memory and those on the host, handed on.
#![tactic(auto)]

pub use host_io::{HostDisk, HostSink, HostSource};
pub use mem_io::{
    BuildFault, MemDisk, MemSink, MemSource, images_take_outcomes_as_in_the_examples,
};
pub use sd_io::{
    Disk, DiskFault, Failed, Globs, Ident, Kind, Ledger, ListId, Meta, NoMemory, Patterns,
    RawEntry, Silent, Sink, Source, Steps, Tally, Text, Texts, Words, a_tally_holds_its_ticks,
    calls_on_files_keep_directories_and_links, files_are_exchanged_as_in_the_examples,
    files_leave_outcomes_behind_as_in_the_examples, links_lead_as_in_the_examples,
    paths_lead_as_in_the_examples, paths_lead_where_they_name, paths_name_as_in_the_examples,
    paths_rest_on_directories_and_links, plain_paths_lead_as_in_the_examples,
    plain_paths_lead_as_others, texts_of_places_below_a_folder, texts_of_places_hold_their_names,
    texts_of_places_lead_there, texts_of_places_name_them,
};
