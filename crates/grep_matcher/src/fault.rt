//! Why a search fails.

use thiserror::Error;

/// The error of a matcher that never fails. No call makes one.
#[derive(Debug, Drop, Eq, Error, PartialEq)]
#[error("no error")]
pub struct NoError(());

/// Why a replacing call failed.
#[derive(Debug, Drop)]
pub enum Fault<E> {
    /// The matcher failed with this error.
    Matcher(E),
    /// There is no memory for the new bytes.
    NoMemory,
}
