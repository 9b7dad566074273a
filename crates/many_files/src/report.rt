//! What the rewriting of files did.

/// What the rewriting of files did.
#[derive(Clone, Copy, Debug, PartialEq, Eq)]
pub struct Report {
    /// How many files were chosen.
    pub chosen: u128,
    /// How many of them were written, because their bytes changed.
    pub changed: u128,
    /// How many spans were replaced in all of them.
    pub replaced: u128,
}
