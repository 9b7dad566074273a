//! A disk, a source and a sink in memory, for tests and for trees that never touch the host.
#![tactic(auto)]

mod built_laws;
mod calls;
mod crash;
mod devices;
mod disk;
mod fault;
mod image_examples;
mod log;
mod medium;
mod node;
mod outcome;
mod outcome_table;
mod path;
mod place;
mod stream;
mod trail;
mod tree;
mod walk;

pub use built_laws::disks_as_built_have_one_outcome_a_place;
pub use disk::MemDisk;
pub use fault::BuildFault;
pub use image_examples::images_take_outcomes_as_in_the_examples;
pub use stream::{MemSink, MemSource};
