//! The replacing of a stream, whatever changes its bytes.
//!
//! [`replace_stream`] reads a source to its end, lets a replacer make the new bytes, and writes them to a sink. It reads
//! no more than a cap allows, and writes nothing before it has read all. Every refusal has its cause, a [`StreamFault`].
#![tactic(auto)]

mod examples;
mod fault;
mod reading;
mod replacing;
mod writing;

pub use examples::streams_are_replaced_as_in_the_examples;
pub use fault::StreamFault;
pub use replacing::replace_stream;
pub use writing::write_all;
