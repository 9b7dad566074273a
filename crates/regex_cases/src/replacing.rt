//! Texts with something in the place of each match.

ghost use Rattle.grep_matcher.specs.References.{LieIn};
ghost use Rattle.grep_matcher.specs.Replaced.{Extends};

use crate::Answer;
use crate::fields::Fields;
use grep_matcher::{Captures, Matcher};
use grep_regex::{RegexCaptures, RegexMatcher};
use sd_base::NoMemory;
use std::alloc::Global;

/// A text, bytes: the text with these in the place of each match.
pub fn replace(alloc: Global, matcher: &RegexMatcher, fields: &Fields<'_>) -> Answer {
    let text = fields.bytes(alloc, 0)?;
    let put = fields.bytes(alloc, 1)?;
    Ok(replaced(alloc, matcher, &text, &put))
}

/// A text with bytes in the place of each match, if there is memory for it.
fn replaced(alloc: Global, matcher: &RegexMatcher, text: &[u8], put: &[u8]) -> Option<Vec<u8>> {
    let mut new = Vec::new(alloc);
    let done = matcher.replace(text, &mut new, |_span, out: &mut Vec<u8>| {
        out.extend_from_slice(put)?;
        Ok(true)
    });
    done.is_ok().then_some(new)
}

/// A text, a place of it, a replacement text whose references are numbers: the text from the place on with that in the place of each
/// match.
pub fn replace_from(alloc: Global, matcher: &RegexMatcher, fields: &Fields<'_>) -> Answer {
    let text = fields.bytes(alloc, 0)?;
    let at = fields.number(1)?;
    let replacement = fields.bytes(alloc, 2)?;
    Ok(replaced_from(alloc, matcher, &text, at, &replacement))
}

/// A text from a place on, with a replacement text in the place of each match, whose references are numbers. Nothing where there is no
/// such place, or no memory.
fn replaced_from(
    alloc: Global,
    matcher: &RegexMatcher,
    text: &[u8],
    at: usize,
    replacement: &[u8],
) -> Option<Vec<u8>> {
    if at > text.len() {
        return None;
    }
    let mut caps = matcher.new_captures().ok()?;
    let mut new = Vec::new(alloc);
    let done = matcher.replace_with_captures_at(
        text,
        at,
        &mut caps,
        &mut new,
        |caps: &RegexCaptures, out: &mut Vec<u8>| -> Result<bool, NoMemory>
            requires { LieIn caps.now text.now }
            ensures { Extends out.old.items out.new.items }
        {
            caps.interpolate(|_name| None, text, replacement, out)?;
            Ok(true)
        },
    );
    done.is_ok().then_some(new)
}
