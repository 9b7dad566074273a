//! Replacers, as cases ask for them.

use case_reader::{Case, CaseFault};
use sd_replace::{Replacer, ReplacerFault};
use std::alloc::Global;

/// What a section's settings ask for.
#[derive(Clone, Copy)]
pub struct Settings {
    /// Whether the text to find is no pattern.
    pub is_literal: bool,
    /// Whether matches are counted in each line.
    pub in_lines: bool,
}

/// The settings of a section. Refuses an unknown word.
pub fn settings_of(case: &Case<'_>) -> Result<Settings, CaseFault> {
    Ok(Settings {
        is_literal: is_set(case.setting("as"), "literal")?,
        in_lines: is_set(case.setting("in"), "lines")?,
    })
}

/// Whether a setting is there, which may have one word. Refuses another.
fn is_set(setting: Option<&str>, word: &str) -> Result<bool, CaseFault> {
    match setting {
        None => Ok(false),
        Some(written) if written == word => Ok(true),
        Some(_) => Err(CaseFault::Word),
    }
}

/// What a replacer is made of.
#[derive(Clone, Copy)]
pub struct Asked<'a> {
    /// The section's settings.
    pub settings: Settings,
    /// The text to find.
    pub find: &'a str,
    /// What takes the place of a match.
    pub with: &'a str,
    /// The letters of the flags.
    pub flags: Option<&'a str>,
    /// How many matches are replaced; 0 is no limit.
    pub limit: u64,
}

/// The replacer that is asked for. Callers are told nothing of it, so that they are quickly proved.
pub fn made(alloc: Global, asked: &Asked<'_>) -> Result<Replacer, ReplacerFault> {
    let Asked {
        settings,
        find,
        with,
        flags,
        limit,
    } = *asked;
    if settings.in_lines {
        Replacer::new_lines(alloc, find, with, settings.is_literal, flags, limit)
    } else {
        Replacer::new(alloc, find, with, settings.is_literal, flags, limit)
    }
}
