//! What a walk keeps of the directories that it entered.

use crate::DirEntry;
use sd_io::{Ident, ListId, Text};

/// A directory that was entered.
#[derive(Drop)]
pub struct Folder {
    /// Its path, as it was entered.
    pub path: Text,
    /// Its depth.
    pub depth: usize,
    /// What it is, where links are followed.
    pub ident: Option<Ident>,
}

/// A failure of the disk that was met, and is an item that wasn't given yet.
#[derive(Drop)]
pub struct Due {
    /// The path of the item.
    pub path: Option<Text>,
    /// The depth of the item.
    pub depth: usize,
}

/// The entries of a directory that are still to come.
#[derive(Drop)]
pub enum Entries {
    /// Its list wasn't opened yet.
    Unread,
    /// Its list is open.
    Open(ListId),
    /// Its list was read to its end; the next entry stands last.
    Kept(Vec<DirEntry>),
}

/// A directory that was entered and not left. The lowest level has no folder, and the root as its one entry.
#[derive(Drop)]
pub struct Level {
    /// The directory.
    pub folder: Option<Folder>,
    /// The item of a directory in it that was left, to come first.
    pub first: Option<DirEntry>,
    /// What is still to come of its entries.
    pub entries: Entries,
    /// The failures that were met in it and not given yet.
    pub faults: Vec<Due>,
}
