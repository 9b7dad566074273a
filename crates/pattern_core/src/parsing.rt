//! Texts read as patterns.

ghost use Rattle.std.specs.Prelude.{◌≡◌, IfOk, IsErrOf};
ghost use Rattle.pattern_core.specs.Answers.{IsPattern, IsGrammar, IsNest, IsDoubleName};

mod names;
mod pieces;
mod reading;
mod state;

use crate::parsing::reading::read;
use crate::{Parsed, PatternFault, PatternFlags};
use std::alloc::Global;

/// How deep a pattern may nest, whatever its limit.
const GREATEST_LIMIT: u32 = 1000;

/// Reads a text as a pattern.
///
/// It is refused, and in this order: where the grammar reads nothing in it or it has 2^32 bytes and more; where it nests deeper than
/// the lesser of its limit and 1000; where two groups have one name. Want of memory may come at any time.
pub fn parse(alloc: Global, text: &str, flags: &PatternFlags) -> Result<Parsed, PatternFault>
    ensures pattern { IfOk result (IsPattern flags.now text.now) }
    ensures grammar { IsErrOf result PatternFault.Grammar → IsGrammar flags.now text.now }
    ensures nest { IsErrOf result PatternFault.Nest → IsNest flags.now text.now }
    ensures double_name { IsErrOf result PatternFault.DoubleName → IsDoubleName flags.now text.now }
{
    if text.len() > u32::MAX as usize {
        return Err(PatternFault::Grammar);
    }
    let characters: Vec<char> = text.chars().collect(alloc)?;
    let limit = flags.nest_limit.min(GREATEST_LIMIT);
    let whole = read(alloc, &characters, flags.grammar(), limit)?;
    if whole.piece.depth > limit as usize {
        return Err(PatternFault::Nest);
    }
    if whole.names.has_one_twice {
        return Err(PatternFault::DoubleName);
    }
    Ok(Parsed {
        hir: whole.piece.hir,
        groups: whole.groups,
        any_literal: whole.literals.any,
        any_uppercase: whole.literals.uppercase,
    })
}
