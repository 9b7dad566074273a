//! Clones of the values of this crate.

ghost use Rattle.std.specs.Prelude.{◌≡◌};
ghost use Rattle.grep_regex.specs.declared.error.Error.{Error};
ghost use Rattle.grep_regex.specs.declared.error.ErrorKind.{ErrorKind};
ghost use Rattle.grep_regex.specs.declared.error.RegexFault.{RegexFault};
ghost use Rattle.grep_regex.specs.declared.options.Options.{Options};

use crate::{Error, ErrorKind, RegexFault, RegexMatcherBuilder};

/// A clone is the value itself: the clone of a builder has the same options.
pub fn clones_are_their_values()
    ensures builders { (x y : Options) → ⟦<RegexMatcherBuilder as Clone>⟧.is_clone x y → y ≡ x }
    ensures errors { (x y : Error) → ⟦<Error as Clone>⟧.is_clone x y → y ≡ x }
    ensures kinds { (x y : ErrorKind) → ⟦<ErrorKind as Clone>⟧.is_clone x y → y ≡ x }
    ensures faults { (x y : RegexFault) → ⟦<RegexFault as Clone>⟧.is_clone x y → y ≡ x }
{}

/// A clone is made even where there is no memory.
pub fn clones_are_always_made()
    ensures builders { (x : Options) → ⟦<RegexMatcherBuilder as Clone>⟧.is_infallible x }
    ensures errors { (x : Error) → ⟦<Error as Clone>⟧.is_infallible x }
    ensures kinds { (x : ErrorKind) → ⟦<ErrorKind as Clone>⟧.is_infallible x }
    ensures faults { (x : RegexFault) → ⟦<RegexFault as Clone>⟧.is_infallible x }
{}
