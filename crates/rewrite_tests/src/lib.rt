//! Tests of what is rewritten, a file and a stream, and of the line of an error, by public calls alone.
#![tactic(auto)]

#[cfg(test)]
mod errors;
#[cfg(test)]
mod files;
#[cfg(test)]
mod memory;
#[cfg(test)]
mod replacers;
#[cfg(test)]
mod scarce;
#[cfg(test)]
mod streams;
