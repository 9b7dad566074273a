//! The groups of a match of a pattern.

use grep_matcher::{Captures, Match};
use hir_core::Slots;
use std::marker::Model;

/// The groups of a match of a pattern. Contracts see their spans, by the groups' numbers.
#[derive(Drop)]
pub struct RegexCaptures {
    pub(crate) slots: Slots,
}

impl Model for RegexCaptures {
    ghost use Rattle.std.specs.Prelude.{List, Option};
    ghost use Rattle.grep_matcher.specs.Span.{Span};

    ghost Value = { List (Option Span) };

    ghost view = { λ caps. caps.slots };
}

impl Captures for RegexCaptures {
    ghost groups = { λ caps. caps };

    fn len(&self) -> usize {
        self.slots.len()
    }

    fn get(&self, i: usize) -> Option<Match> {
        self.slots.get(i)
    }
}
