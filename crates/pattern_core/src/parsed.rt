//! What is read in a pattern.

use hir_tree::Hir;

/// A pattern that was read.
#[derive(Drop)]
pub struct Parsed {
    /// Its tree.
    pub hir: Hir,
    /// How many groups it has that capture.
    pub groups: u32,
    /// Whether a literal character stands in it, as a member of a class or an end of a range too.
    pub any_literal: bool,
    /// Whether one of its literal characters is upper case.
    pub any_uppercase: bool,
}
