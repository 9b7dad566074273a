//! Tests of what is done with files that words name, by public calls alone: on disks and sinks that fail, and where none is named.
#![tactic(auto)]

#[cfg(test)]
mod disks;
#[cfg(test)]
mod failing;
#[cfg(test)]
mod in_turn;
#[cfg(test)]
mod shown;
#[cfg(test)]
mod swapping;
