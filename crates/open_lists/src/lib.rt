//! The open lists of a disk by their numbers, for those who give a disk.
#![tactic(auto)]

mod lists;

pub use lists::{OpenList, OpenLists};
