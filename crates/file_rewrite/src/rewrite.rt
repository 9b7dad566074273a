//! What a file's rewriting did.

/// What a file's rewriting did.
#[derive(Clone, Copy, Debug, PartialEq, Eq)]
pub struct Rewrite {
    /// Whether the file's bytes are others than before.
    pub changed: bool,
    /// How many spans were replaced.
    pub replaced: u128,
}
