//! What is known of the host's folders and files without asking the host: tables with contracts, which make no call of the host's.
#![tactic(auto)]

mod known_file;
mod known_folders;

pub use known_file::{FileStatus, KnownFile};
pub use known_folders::{FolderCheck, Known, KnownFolders};
