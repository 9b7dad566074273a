//! The groups of a match.

ghost use Rattle.std.specs.Prelude.{◌≡◌, ◌≤◌, ◌++◌, ℕ, length, Option, Some, IsSome, IsTrue, ◌↔◌, List, [], IfSome, OnOk, OnErr, slice_range};
ghost use Rattle.std.specs.Option.{option_map_or};
ghost use Rattle.grep_matcher.specs.Span.{Span};
ghost use Rattle.grep_matcher.specs.Groups.{group_at};
ghost use Rattle.grep_matcher.specs.Replaced.{Extends};
ghost use Rattle.grep_matcher.specs.References.{Answers, LieIn, expand, group_text};

use crate::references::interpolate;
use crate::span::Match;
use sd_base::NoMemory;

/// The groups of a match, by their numbers. Group 0 is the whole match.
///
/// A matcher has one such type for all its captures. It makes an empty one, and the captures calls fill it.
pub trait Captures {
    // The groups by their numbers, each set or not.
    ghost groups: { Self → List (Option Span) };

    /// How many groups there are, set or not. For `(\w+)@(\w+)` that is 3.
    fn len(&self) -> usize
        ensures { result ≡ length (groups self.now) };

    /// The span of the group of this number. `None` where the group isn't set, or there is no such group.
    ///
    /// After `(\w+)@(\w+)` matched `x@y`, group 2 is the span 2 to 3.
    fn get(&self, i: usize) -> Option<Match>
        ensures { result ≡ group_at (groups self.now) i };

    /// The span of the whole match. Group 0 has to be set.
    fn as_match(&self) -> Match
        requires { IsSome (group_at (groups self.now) 0) }
        ensures { group_at (groups self.now) 0 ≡ Some result }
    {
        self.get(0).unwrap()
    }

    /// Whether there are no groups at all.
    fn is_empty(&self) -> bool
        ensures { IsTrue result ↔ (length (groups self.now) ≡ 0) }
    {
        self.len() == 0
    }

    /// Adds a replacement text to `dst`, with each reference replaced by its group's bytes in the haystack.
    ///
    /// References are read as by the free form of this call. A name is given to `name_to_index`. A group that is unset,
    /// and a name without a number, become nothing.
    ///
    /// Refuses only where memory is out. What `dst` held at entry is kept at its front.
    ///
    /// Where group 1 of a match is `2026` and `month` names no group, `$1-$month` becomes `2026-`.
    fn interpolate<F: FnMut(&str) -> Option<usize>>(
        &self,
        name_to_index: F,
        haystack: &[u8],
        replacement: &[u8],
        dst: &mut Vec<u8>,
    ) -> Result<(), NoMemory>
        requires within { LieIn (groups self.now) haystack.now }
        requires answers { F.IsAlwaysCallable name_to_index }
        ensures expanded { OnOk result ((number_of : List ℕ → Option ℕ) → Answers F.step (λ name. name.now) name_to_index number_of
            → dst.new.items ≡ dst.old.items ++ expand (group_text haystack.now (groups self.now)) number_of replacement.now) }
        ensures kept { OnErr result (Extends dst.old.items dst.new.items) }
    {
        interpolate(
            replacement,
            |i: usize, dst: &mut Vec<u8>| -> Result<(), NoMemory>
                requires { LieIn (groups self.now) haystack.now }
            { append_part(dst, haystack, self.get(i)) },
            name_to_index,
            dst,
        )
    }
}

/// The captures of a matcher that doesn't capture: no group at all.
#[derive(Clone, Debug, Drop)]
pub struct NoCaptures(());

impl NoCaptures {
    /// Captures without groups.
    pub fn new() -> NoCaptures {
        NoCaptures(())
    }
}

impl Captures for NoCaptures {
    ghost groups = { λ _. [] };

    fn len(&self) -> usize {
        0
    }

    fn get(&self, _i: usize) -> Option<Match> {
        None
    }

    // No group is ever set, so this asks for nothing, and answers the empty span at 0.
    fn as_match(&self) -> Match
        ensures starts { result.start ≡ 0 }
        ensures ends { result.end ≡ 0 }
    {
        Match::zero(0)
    }
}

/// Adds the bytes of a haystack at a span, or nothing where there is no span.
fn append_part(dst: &mut Vec<u8>, haystack: &[u8], span: Option<Match>) -> Result<(), NoMemory>
    requires { IfSome span (λ span. span.end ≤ length haystack.now) }
    ensures added { OnOk result (dst.new.items ≡ dst.old.items ++ option_map_or (λ span. slice_range haystack.now span.start span.end) span []) }
    ensures kept { OnErr result (dst.new.items ≡ dst.old.items) }
{
    if let Some(span) = span {
        dst.extend_from_slice(&haystack[span.start()..span.end()])?;
    }
    Ok(())
}
