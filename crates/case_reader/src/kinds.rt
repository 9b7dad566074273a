//! The kinds of case that a program knows.

use crate::{Case, CaseFault};

/// The kind of a case that has so many fields, by a table: names of kinds, how many fields a case of each has at least and at most, and what the program
/// makes of it. Refuses an unknown name, and another number of fields.
pub fn kind_of<K: Copy>(
    case: &Case<'_>,
    fields: usize,
    kinds: &[(&str, usize, usize, K)],
) -> Result<K, CaseFault> {
    let name = case.kind();
    for (known, least, most, kind) in kinds {
        if *known == name && *least <= fields && fields <= *most {
            return Ok(*kind);
        }
    }
    Err(CaseFault::Kind)
}
