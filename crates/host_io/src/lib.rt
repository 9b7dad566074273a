//! The host's disk and streams, over std's files and streams. They tell their counts, and nothing of what they hold.
#![tactic(auto)]

mod disk;
mod faults;
mod folders;
mod list;
mod new_file;
mod stream;
mod told;

pub use disk::HostDisk;
pub use stream::{HostSink, HostSource};
