//! Texts as patterns.

ghost use Rattle.std.specs.Prelude.{◌≡◌, ◌++◌, IfOk, OnOk};
ghost use Rattle.std.specs.Str.{chars};
ghost use Rattle.std.specs.String.{string_bytes};
ghost use Rattle.pattern_core.specs.Escape.{EscapedHasOneRun, EscapedIsNotRefused, EscapedIsParsedAsItself, EscapedIsReadAsItself, encoded, escaped_char, escaped_text, is_meta};

use sd_base::{NoMemory, Text};
use std::alloc::Global;

/// Whether a character is a meta character of patterns.
pub fn is_meta(c: char) -> bool
    ensures { result ≡ is_meta c }
{
    matches!(
        c,
        '\\' | '.'
            | '+'
            | '*'
            | '?'
            | '('
            | ')'
            | '|'
            | '['
            | ']'
            | '{'
            | '}'
            | '^'
            | '$'
            | '#'
            | '&'
            | '-'
            | '~'
    )
}

/// Adds a character, with a `\` before it where it is a meta character. Refuses for want of memory alone.
fn push_escaped(escaped: &mut String, c: char) -> Result<(), NoMemory>
    ensures { OnOk result (string_bytes escaped.new ≡ string_bytes escaped.old ++ encoded (escaped_char c)) }
{
    if is_meta(c) {
        escaped.push('\\')?;
    }
    escaped.push(c)?;
    Ok(())
}

/// A pattern that is read as a text: the text with `\` before each meta character. Refuses for want of memory alone.
pub fn escape(alloc: Global, text: &str) -> Result<Text, NoMemory>
    ensures { IfOk result (λ escaped. escaped ≡ encoded (escaped_text (chars text.now))) }
{
    let mut escaped = String::new(alloc);
    for c in text.chars() {
        push_escaped(&mut escaped, c)?;
    }
    Ok(Text::from(escaped))
}

/// A text that is escaped is read as itself, where white space counts and letters aren't folded: it nests at most once, and has no
/// name.
pub fn an_escaped_text_is_read_as_itself()
    ensures { EscapedIsReadAsItself }
{}

/// What is parsed of an escaped text is that text, where white space counts and letters aren't folded: from a place where the text
/// stands there is one run, to its end, and from another none. Where a pattern may nest once it is answered, but for want of memory.
pub fn an_escaped_text_is_parsed_as_itself()
    ensures text { EscapedIsParsedAsItself }
    ensures run { EscapedHasOneRun }
    ensures answered { EscapedIsNotRefused }
{
    hir_tree::one_text_matches_where_it_stands();
    hir_tree::preferred_is_the_first_run();
    pattern_syntax::a_text_has_at_most_one_reading();
    an_escaped_text_is_read_as_itself();
}
