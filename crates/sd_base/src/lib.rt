//! What all crates stand on: owned texts, want of memory, and counted steps.
#![tactic(auto)]

mod laws;
mod no_memory;
mod steps;
mod text;

pub use laws::a_tally_holds_its_ticks;
pub use no_memory::NoMemory;
pub use steps::{Ledger, Silent, Steps, Tally};
pub use text::{Globs, Patterns, Text, Texts, Words};
