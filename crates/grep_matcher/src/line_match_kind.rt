//! What a quick search for a line gives.

/// A place in a line that matches, or that may match.
#[derive(Clone, Copy, Debug)]
pub enum LineMatchKind {
    /// A byte offset in a line that matches, or at its end.
    Confirmed(usize),
    /// A byte offset in a line that may match. A search of the line tells.
    Candidate(usize),
}
