//! The flags under which a part of a pattern is read.

/// How a part of a pattern is read. `(?flags)` and `(?flags: )` change it.
#[derive(Clone, Copy, Debug, PartialEq, Eq)]
pub struct Flags {
    /// Characters stand for all that fold alike: `i`.
    pub folds: bool,
    /// `^` and `$` stand at the ends of lines too: `m`.
    pub multi: bool,
    /// `.` takes the ends of lines too: `s`.
    pub dot_all: bool,
    /// A carriage return ends a line too: `R`.
    pub crlf: bool,
    /// Repetitions prefer fewer times, and with a `?` more: `U`.
    pub swaps: bool,
    /// Sets are of characters and not of bytes: `u`.
    pub unicode: bool,
    /// White space and comments are passed over: `x`.
    pub spaces: bool,
    /// One to three octal digits after a `\` are a character.
    pub octal: bool,
}
