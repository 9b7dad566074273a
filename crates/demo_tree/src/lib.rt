//! The tree of a demo: a tree in memory that is made from a number.
//!
//! [`demo_disk`] builds the tree of a number on a disk in memory. No call of a [`FaultlessDisk`] fails, so what is done on one is
//! refused only for its own causes or for want of memory.
#![tactic(auto)]

mod building;
mod examples;
mod faultless;

pub use building::demo_disk;
pub use examples::a_demo_has_its_files;
pub use faultless::FaultlessDisk;
