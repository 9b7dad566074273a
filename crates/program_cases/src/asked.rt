//! What a case asks for, by its parts and its section's settings.

use case_reader::{Case, CaseFault, Line};
use sd_base::Words;
use std::alloc::Global;

/// The field of the part of a name, or the section's setting of that name, as it is written.
pub fn field_of<'t>(case: &Case<'t>, name: &str) -> Result<Option<&'t str>, CaseFault> {
    match case.part_named(name) {
        Some(line) => Ok(Some(line.written(1)?)),
        None => Ok(case.setting(name)),
    }
}

/// The number of the part or the setting of a name.
pub fn number_of(case: &Case<'_>, name: &str) -> Result<Option<u64>, CaseFault> {
    match field_of(case, name)? {
        None => Ok(None),
        Some(written) => Ok(Some(written.parse::<u64>().map_err(|_| CaseFault::Number)?)),
    }
}

/// The bytes of the part or the setting of a name.
pub fn bytes_of(alloc: Global, case: &Case<'_>, name: &str) -> Result<Option<Vec<u8>>, CaseFault> {
    match field_of(case, name)? {
        None => Ok(None),
        Some(written) => Ok(Some(Line::new(written).bytes(alloc, 0)?)),
    }
}

/// The words of a field. Where there are none, it says `%none`.
pub fn words_of(alloc: Global, line: Line<'_>, number: usize) -> Result<Words, CaseFault> {
    let mut words = Words::new(alloc);
    if line.written(number)? != "%none" {
        push_words(&mut words, &line.words(alloc, number)?)?;
    }
    Ok(words)
}

/// Adds words.
fn push_words(words: &mut Words, more: &[String]) -> Result<(), CaseFault> {
    for word in more {
        words.push(word).map_err(|_| CaseFault::NoMemory)?;
    }
    Ok(())
}
