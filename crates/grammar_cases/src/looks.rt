//! Looks at the places of a text.

use crate::Answer;
use case_reader::{Case, CaseFault};
use hir_core::{Look, holds};
use std::alloc::Global;

/// The looks by their names.
const LOOKS: &[(&str, Look)] = &[
    ("Start", Look::Start),
    ("End", Look::End),
    ("StartLF", Look::StartLF),
    ("EndLF", Look::EndLF),
    ("StartCRLF", Look::StartCRLF),
    ("EndCRLF", Look::EndCRLF),
    ("WordAscii", Look::WordAscii),
    ("WordAsciiNegate", Look::WordAsciiNegate),
    ("WordUnicode", Look::WordUnicode),
    ("WordUnicodeNegate", Look::WordUnicodeNegate),
    ("WordStartAscii", Look::WordStartAscii),
    ("WordEndAscii", Look::WordEndAscii),
    ("WordStartUnicode", Look::WordStartUnicode),
    ("WordEndUnicode", Look::WordEndUnicode),
    ("WordStartHalfAscii", Look::WordStartHalfAscii),
    ("WordEndHalfAscii", Look::WordEndHalfAscii),
    ("WordStartHalfUnicode", Look::WordStartHalfUnicode),
    ("WordEndHalfUnicode", Look::WordEndHalfUnicode),
];

/// The look of a name. Refuses an unknown one.
fn look_of(name: &str) -> Result<Look, CaseFault> {
    for (known, look) in LOOKS {
        if *known == name {
            return Ok(*look);
        }
    }
    Err(CaseFault::Word)
}

/// The name of a look: at each place of the text that stands below the section, `+` where the look holds, and `-` where it doesn't.
pub fn look(alloc: Global, case: &Case<'_>) -> Answer {
    let look = look_of(case.line().written(0)?)?;
    let below = case.section_part(0).ok_or(CaseFault::Missing)?;
    marks_of(alloc, look, &below.bytes(alloc, 0)?)
}

/// The marks of a look at the places of a text.
fn marks_of(alloc: Global, look: Look, text: &[u8]) -> Answer {
    let mut marks = Vec::new(alloc);
    for at in 0..=text.len() {
        let mark = if holds(look, text, at) { b'+' } else { b'-' };
        marks.push(mark)?;
    }
    Ok(Some(marks))
}
