//! Tests of the choice of the files that a command on a tree works on, by public calls alone: on disks that fail,
//! under rules of what is ignored, what these say, and what refuses globs and rules.
#![tactic(auto)]

#[cfg(test)]
mod asking;
#[cfg(test)]
mod disks;
#[cfg(test)]
mod failing;
#[cfg(test)]
mod globs;
#[cfg(test)]
mod ignoring;
#[cfg(test)]
mod rules;
