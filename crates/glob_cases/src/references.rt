//! References at the front of replacement texts.

use crate::Answer;
use case_reader::Case;
use grep_matcher::{CaptureRef, Ref, find_cap_ref};
use std::alloc::Global;

/// A text: the name or the number that the reference at its front gives, and where the reference ends. Nothing where there is none.
pub fn reference(alloc: Global, case: &Case<'_>) -> Answer {
    let text = case.line().bytes(alloc, 0)?;
    match find_cap_ref(&text) {
        Some(found) => shown(alloc, found),
        None => Ok(None),
    }
}

/// A reference in words.
fn shown(alloc: Global, found: CaptureRef<'_>) -> Answer {
    let end = found.end;
    let words = match found.cap {
        Ref::Named(name) => format!(in alloc; "name {name} {end}")?,
        Ref::Number(number) => format!(in alloc; "number {number} {end}")?,
    };
    Ok(Some(words.into_bytes()))
}
