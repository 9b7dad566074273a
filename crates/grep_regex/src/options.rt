//! The options of a matcher.

use grep_matcher::LineTerminator;

/// The options of a matcher.
#[derive(Clone, Copy, Debug, Drop)]
pub struct Options {
    /// Letters stand for both their cases.
    pub(crate) case_insensitive: bool,
    /// So they do where the patterns hold a literal, and none of upper case.
    pub(crate) case_smart: bool,
    /// `^` and `$` stand at the ends of lines too.
    pub(crate) multi_line: bool,
    /// `.` takes a line feed too.
    pub(crate) dot_matches_new_line: bool,
    /// Repetitions prefer fewer times, and with a `?` more.
    pub(crate) swap_greed: bool,
    /// White space and comments are passed over.
    pub(crate) ignore_whitespace: bool,
    /// Classes are sets of characters and not of bytes.
    pub(crate) unicode: bool,
    /// One to three octal digits after a `\` are a character.
    pub(crate) octal: bool,
    /// The largest pattern, in bytes.
    pub(crate) size_limit: usize,
    /// Kept for callers that ask for it; it changes nothing.
    pub(crate) dfa_size_limit: usize,
    /// How deep a pattern may nest, at most 1000.
    pub(crate) nest_limit: u32,
    /// What ends a line: no match holds one of its bytes.
    pub(crate) line_terminator: Option<LineTerminator>,
    /// A byte that no pattern may ask for, below 128.
    pub(crate) ban_byte: Option<u8>,
    /// A carriage return ends a line too, for the anchors of lines.
    pub(crate) crlf: bool,
    /// Half word edges stand round the whole.
    pub(crate) word: bool,
    /// Word edges stand round the whole.
    pub(crate) word_edges: bool,
    /// Patterns are plain texts.
    pub(crate) fixed_strings: bool,
    /// Line anchors stand round the whole.
    pub(crate) whole_line: bool,
}

impl Default for Options {
    ghost use Rattle.std.specs.Prelude.{◌≡◌};
    ghost use Rattle.grep_regex.specs.Options.{default_options};

    ghost is_default = { λ options. options ≡ default_options };

    fn default() -> Options {
        Options {
            case_insensitive: false,
            case_smart: false,
            multi_line: false,
            dot_matches_new_line: false,
            swap_greed: false,
            ignore_whitespace: false,
            unicode: true,
            octal: false,
            size_limit: 104_857_600,
            dfa_size_limit: 1_048_576_000,
            nest_limit: 250,
            line_terminator: None,
            ban_byte: None,
            crlf: false,
            word: false,
            word_edges: false,
            fixed_strings: false,
            whole_line: false,
        }
    }
}
