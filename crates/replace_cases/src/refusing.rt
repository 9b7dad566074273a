//! Replacers that are refused, and what is said of them.

use crate::Answer;
use crate::making::{Asked, Settings, made, settings_of};
use crate::texts::said;
use case_reader::Case;
use grep_regex::ErrorKind;
use sd_replace::ReplacerFault;
use std::alloc::Global;

/// What a replacer of two texts is made of, which replaces all matches.
fn asked_for<'a>(settings: Settings, find: &'a str, with: &'a str) -> Asked<'a> {
    Asked {
        settings,
        find,
        with,
        flags: None,
        limit: 0,
    }
}

/// A text to find, a replacement text: why no replacer is made. Nothing where it is made.
pub fn refused(alloc: Global, case: &Case<'_>) -> Answer {
    let settings = settings_of(case)?;
    let find = case.line().text(alloc, 0)?;
    let with = case.line().text(alloc, 1)?;
    refusal_of(alloc, &asked_for(settings, find.as_str(), with.as_str()))
}

/// Why no replacer is made.
fn refusal_of(alloc: Global, asked: &Asked<'_>) -> Answer {
    match made(alloc, asked) {
        Ok(_) => Ok(None),
        Err(ReplacerFault::InvalidReplaceCapture(_)) => said(alloc, "Ambiguous"),
        Err(ReplacerFault::Regex(error)) => named(alloc, *error.kind()),
        Err(ReplacerFault::NoMemory) => said(alloc, "NoMemory"),
    }
}

/// The name of a refusal of patterns.
fn named(alloc: Global, kind: ErrorKind) -> Answer {
    Ok(Some(format!(in alloc; "{kind:?}")?.into_bytes()))
}

/// A text to find, a replacement text: what is said where no replacer is made. Nothing where it is made.
pub fn says(alloc: Global, case: &Case<'_>) -> Answer {
    let settings = settings_of(case)?;
    let find = case.line().text(alloc, 0)?;
    let with = case.line().text(alloc, 1)?;
    said_of(alloc, &asked_for(settings, find.as_str(), with.as_str()))
}

/// What is said where no replacer is made.
fn said_of(alloc: Global, asked: &Asked<'_>) -> Answer {
    match made(alloc, asked) {
        Ok(_) => Ok(None),
        Err(fault) => shown(alloc, &fault),
    }
}

/// What a refusal says.
fn shown(alloc: Global, fault: &ReplacerFault) -> Answer {
    Ok(Some(format!(in alloc; "{fault}")?.into_bytes()))
}
