//! Tests of plans and their texts, and of their making and carrying out, by public calls alone.
#![tactic(auto)]

#[cfg(test)]
mod applying;
#[cfg(test)]
mod disks;
#[cfg(test)]
mod failing;
#[cfg(test)]
mod planning;
#[cfg(test)]
mod replacers;
#[cfg(test)]
mod texts;
