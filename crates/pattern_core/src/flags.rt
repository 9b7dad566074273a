//! The flags that a pattern is read under.

ghost use Rattle.std.specs.Prelude.{◌≡◌};
ghost use Rattle.pattern_core.specs.Answers.{flags_of};

use pattern_syntax::Flags;

/// How a pattern is read.
#[derive(Clone, Copy, Debug, PartialEq, Eq)]
pub struct PatternFlags {
    /// Letters stand for both their cases: `i`.
    pub case_insensitive: bool,
    /// `^` and `$` stand at the ends of lines too: `m`.
    pub multi_line: bool,
    /// `.` takes a line feed too: `s`.
    pub dot_matches_new_line: bool,
    /// Repetitions prefer fewer times, and with a `?` more: `U`.
    pub swap_greed: bool,
    /// White space and comments are passed over: `x`.
    pub ignore_whitespace: bool,
    /// Classes are sets of characters and not of bytes: `u`.
    pub unicode: bool,
    /// One to three octal digits after a `\` are a character.
    pub octal: bool,
    /// A carriage return ends a line too: `R`.
    pub crlf: bool,
    /// How deep a pattern may nest, at most 1000.
    pub nest_limit: u32,
}

impl PatternFlags {
    /// The flags of the grammar.
    pub(crate) fn grammar(&self) -> Flags
        ensures { result ≡ flags_of self.now }
    {
        Flags {
            folds: self.case_insensitive,
            multi: self.multi_line,
            dot_all: self.dot_matches_new_line,
            crlf: self.crlf,
            swaps: self.swap_greed,
            unicode: self.unicode,
            spaces: self.ignore_whitespace,
            octal: self.octal,
        }
    }
}
