//! What a walk keeps in memory.

use sd_io::Text;
use std::alloc::Global;
use walk_rest::{Level, Options};

/// What a walk keeps in memory. A walk that is over, or gave up for want of memory, has no level.
#[derive(Drop)]
pub struct Inside<S> {
    pub alloc: Global,
    pub options: Options,
    /// How the entries of one directory are ordered.
    pub order: S,
    /// The root's path, as it was given.
    pub root: Text,
    /// The root's device, once the root was looked at and where directories on other devices aren't entered.
    pub device: u64,
    /// The levels below the topmost, the root's first.
    pub stack: Vec<Level>,
    /// The topmost level.
    pub top: Option<Level>,
}
