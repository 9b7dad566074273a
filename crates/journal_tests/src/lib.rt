//! Tests of journalled changes and of the texts of journals, by public calls alone.
#![tactic(auto)]

#[cfg(test)]
mod changes;
#[cfg(test)]
mod disks;
#[cfg(test)]
mod recoveries;
#[cfg(test)]
mod replacers;
#[cfg(test)]
mod texts;
