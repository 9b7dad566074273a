//! The answer of a change.

/// What bytes become where a span of them is replaced.
#[derive(Debug, Drop)]
pub struct Changed {
    /// The bytes after the change.
    pub new_bytes: Vec<u8>,
    /// How many spans were replaced. At least one.
    pub count: u128,
}

/// What became of bytes that were given away.
#[derive(Debug, Drop)]
pub enum Rewritten {
    /// They are as they were, and given back: so many spans were replaced, each by its own bytes, or none.
    Same {
        /// The bytes.
        bytes: Vec<u8>,
        /// How many spans were replaced.
        count: u128,
    },
    /// Others took their place.
    Other(Changed),
}
