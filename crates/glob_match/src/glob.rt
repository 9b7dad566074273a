//! Globs that are read once and asked of many paths.

ghost use Rattle.std.specs.Prelude.{◌≡◌, ◌↔◌, ◌+◌, ◌*◌, chars, length, IfOk, IsTrue, MatchOption, None};
ghost use Rattle.glob_match.specs.Reading.{pieces_of};
ghost use Rattle.glob_match.specs.Takes.{Fits};
ghost use Rattle.sd_base.specs.Steps.{TicksAtMost};

use crate::matching::places_after;
use crate::parse::{after_signs, read};
use crate::piece::Token;
use sd_base::{Ledger, NoMemory, Silent, Steps};
use std::alloc::Global;
use std::marker::Model;

/// A valid glob. Contracts see its text.
#[derive(Drop)]
pub struct Glob {
    text: String,
    /// Whether an odd number of `!` stands first.
    negated: bool,
    /// What the text after these is read into.
    tokens: Vec<Token>,
}

impl Model for Glob {
    ghost use Rattle.std.specs.Prelude.{List, ℕ, chars};
    ghost use Rattle.std.specs.String.{string_bytes};
    ghost use Rattle.glob_match.specs.GlobRead.{IsReadOf};

    ghost Value = { List ℕ };

    ghost view = { λ glob. string_bytes glob.text };

    ghost invariant = { λ glob. IsReadOf (chars (string_bytes glob.text)) glob.negated glob.tokens.items };
}

impl Glob {
    /// Reads a glob. Answers `None` where it is invalid. Refuses for want of memory alone.
    pub fn read(alloc: Global, text: &str) -> Result<Option<Glob>, NoMemory>
        ensures { IfOk result (λ read. MatchOption read (pieces_of (chars text.now) ≡ None) (λ glob. glob ≡ text.now)) }
    {
        let characters: Vec<char> = text.chars().collect(alloc)?;
        let (negated, rest) = after_signs(&characters);
        let Some(tokens) = read(alloc, rest)? else {
            return Ok(None);
        };
        Ok(Some(Glob {
            text: String::from_str(alloc, text)?,
            negated,
            tokens,
        }))
    }

    /// Whether the glob fits a path. Refuses for want of memory alone.
    pub fn fits(&self, alloc: Global, path: &str) -> Result<bool, NoMemory>
        ensures { IfOk result (λ fits. IsTrue fits ↔ Fits (chars self.now) (chars path.now)) }
    {
        self.fits_steps(alloc, path, &mut Steps::new(Silent))
    }

    /// [`fits`](Glob::fits), with a step for each test of a piece at a place of the path.
    pub(crate) fn fits_steps<L: Ledger>(
        &self,
        alloc: Global,
        path: &str,
        steps: &mut Steps<L>,
    ) -> Result<bool, NoMemory>
        ensures answer { IfOk result (λ fits. IsTrue fits ↔ Fits (chars self.now) (chars path.now)) }
        ensures ticks { TicksAtMost L.noted (length (chars self.now) * (length (chars path.now) + 1)) steps.old steps.new }
    {
        let characters: Vec<char> = path.chars().collect(alloc)?;
        let places = places_after(alloc, &self.tokens, &characters, steps)?;
        Ok(places[characters.len()] != self.negated)
    }
}
