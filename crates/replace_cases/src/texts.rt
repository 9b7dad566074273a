//! Replacement texts: their escapes, and references that are ambiguous.

use crate::Answer;
use case_reader::Case;
use sd_replace::{InvalidReplaceCapture, ReplaceFault, validate_replace};
use std::alloc::Global;

/// A text as an answer.
pub fn said(alloc: Global, text: &str) -> Answer {
    Ok(Some(text.as_bytes().to_vec(alloc)?))
}

/// A text: what its escapes make of it. Nothing where one of them isn't known.
pub fn unescape(alloc: Global, case: &Case<'_>) -> Answer {
    let text = case.line().text(alloc, 0)?;
    match sd_replace::unescape(alloc, text.as_str())? {
        Some(plain) => said(alloc, plain.as_str()),
        None => Ok(None),
    }
}

/// A text: where the name of its first ambiguous reference starts and ends, a slash, and how many digits it begins with. Nothing where
/// no reference is ambiguous.
pub fn ambiguous(alloc: Global, case: &Case<'_>) -> Answer {
    let text = case.line().text(alloc, 0)?;
    match validate_replace(alloc, text.as_str()) {
        Ok(()) => Ok(None),
        Err(ReplaceFault::InvalidReplaceCapture(told)) => place_of(alloc, &told),
        Err(ReplaceFault::NoMemory) => said(alloc, "NoMemory"),
    }
}

/// Where an ambiguous reference stands.
fn place_of(alloc: Global, told: &InvalidReplaceCapture) -> Answer {
    let InvalidReplaceCapture {
        start,
        end,
        digits,
        ..
    } = told;
    Ok(Some(format!(in alloc; "{start}-{end}/{digits}")?.into_bytes()))
}

/// A text: what is said where one of its references is ambiguous. Nothing where none is.
pub fn says_ambiguous(alloc: Global, case: &Case<'_>) -> Answer {
    let text = case.line().text(alloc, 0)?;
    match validate_replace(alloc, text.as_str()) {
        Ok(()) => Ok(None),
        Err(fault) => shown(alloc, &fault),
    }
}

/// What a refusal says.
fn shown(alloc: Global, fault: &ReplaceFault) -> Answer {
    Ok(Some(format!(in alloc; "{fault}")?.into_bytes()))
}
