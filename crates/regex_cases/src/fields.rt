//! The fields of a case: first its patterns, then what is asked about them.

use case_reader::{Case, CaseFault, Line};
use std::alloc::Global;

/// How many fields of a case are patterns: as many as its section says, or else one. Refuses what is no number.
pub fn pattern_count(case: &Case<'_>) -> Result<usize, CaseFault> {
    match case.setting("patterns") {
        None => Ok(1),
        Some(count) => count.parse::<usize>().map_err(|_| CaseFault::Number),
    }
}

/// The fields of a case that follow its patterns.
#[derive(Clone, Copy)]
pub struct Fields<'t> {
    line: Line<'t>,
    patterns: usize,
    inputs: usize,
}

impl<'t> Fields<'t> {
    /// Those of a case.
    pub fn of(case: &Case<'t>) -> Result<Fields<'t>, CaseFault> {
        Ok(Fields {
            line: case.line(),
            patterns: pattern_count(case)?,
            inputs: case.inputs(),
        })
    }

    /// How many there are. Refuses where patterns are missing.
    pub fn count(&self) -> Result<usize, CaseFault> {
        self.inputs
            .checked_sub(self.patterns)
            .ok_or(CaseFault::Missing)
    }

    /// Where a field stands in the line.
    fn place(&self, number: usize) -> usize {
        self.patterns.saturating_add(number)
    }

    /// The bytes of a field.
    pub fn bytes(&self, alloc: Global, number: usize) -> Result<Vec<u8>, CaseFault> {
        self.line.bytes(alloc, self.place(number))
    }

    /// The text of a field.
    pub fn text(&self, alloc: Global, number: usize) -> Result<String, CaseFault> {
        self.line.text(alloc, self.place(number))
    }

    /// The number that a field is.
    pub fn number(&self, number: usize) -> Result<usize, CaseFault> {
        Ok(self.line.number(self.place(number))? as usize)
    }
}
