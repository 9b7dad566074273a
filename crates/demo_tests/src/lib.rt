//! Tests of the tree of a demo, by public calls alone.
#![tactic(auto)]

#[cfg(test)]
mod built;
