//! The options that flags ask for.

ghost use Rattle.std.specs.Prelude.{◌≡◌};
ghost use Rattle.std.specs.Option.{option_map_or};
ghost use Rattle.pattern_syntax.specs.Flags.{has};
ghost use Rattle.sd_replace.specs.Flags as form;

use grep_regex::RegexMatcherBuilder;

/// A builder with the options that flags ask for, of a pattern or of a literal text.
///
/// Lines count for `^` and `$` from the start. `c` turns the folding of letters off and `i` on, the last of them counts. `e` lets
/// lines count no more, and so does `s` without an `m`; with an `s` a `.` takes line feeds. `w` wants word edges round the whole.
/// Other letters mean nothing.
pub(crate) fn builder_of(is_literal: bool, flags: &str) -> RegexMatcherBuilder
    ensures { result ≡ form.options_of is_literal flags.now }
{
    let letters = flags.as_bytes();
    let mut builder = RegexMatcherBuilder::new();
    builder.case_insensitive(folds(letters));
    builder.multi_line(is_multi_line(letters));
    builder.dot_matches_new_line(has_letter(letters, b's'));
    builder.word_edges(has_letter(letters, b'w'));
    builder.fixed_strings(is_literal);
    builder
}

/// The same for lines that end with `\n`.
pub(crate) fn line_builder_of(is_literal: bool, flags: &str) -> RegexMatcherBuilder
    ensures { result ≡ form.line_options_of is_literal flags.now }
{
    let mut builder = builder_of(is_literal, flags);
    builder.line_terminator(Some(b'\n'));
    builder
}

/// Whether letters are folded.
fn folds(letters: &[u8]) -> bool
    ensures { result ≡ form.folds letters.now }
{
    letters.iter().fold(false, |on, letter| match letter {
        b'c' => false,
        b'i' => true,
        _ => on,
    })
}

/// Whether `^` and `$` stand at the ends of lines too.
fn is_multi_line(letters: &[u8]) -> bool
    ensures { result ≡ form.is_multi_line letters.now }
{
    !has_letter(letters, b'e') && (has_letter(letters, b'm') || !has_letter(letters, b's'))
}

/// Whether a letter stands among the flags.
fn has_letter(letters: &[u8], letter: u8) -> bool
    ensures { result ≡ has letter letters.now }
{
    letters.contains(&letter)
}
