//! Laws of patterns, and of what options do to them.

ghost use Rattle.grep_regex.specs.Exact.{AskingIsExact, StrippingIsRefusedExactly, StrippingKeepsTidy};
ghost use Rattle.grep_regex.specs.NonMatching.{WhatIsNotTakenIsInNoMatch};
ghost use Rattle.grep_regex.specs.Options.{NoMatchHoldsATerminator, StrippingKeepsSpotsAndGroups};
ghost use Rattle.grep_regex.specs.Stripping.{StrippingLeavesTheClearRuns};

/// A stripped pattern has those runs of the old one whose text holds none of the bytes, in the same order and with the same
/// groups.
pub fn stripping_leaves_the_clear_runs()
    ensures { StrippingLeavesTheClearRuns }
{}

/// A byte that no literal holds, and no encoding of a member of a class, is in no match.
pub fn what_is_not_taken_is_in_no_match()
    ensures { WhatIsNotTakenIsInNoMatch }
{}

/// No match of a matcher with a terminator holds one of its bytes, whatever its options put round the pattern.
pub fn no_match_holds_a_terminator()
    ensures { NoMatchHoldsATerminator }
{}

/// A stripped pattern has as many spots and groups as the old one.
pub fn stripping_keeps_spots_and_groups()
    ensures { StrippingKeepsSpotsAndGroups }
{}

/// A pattern is refused for bytes exactly where a part of it must take one of them, and a stripped class is sorted ranges still.
pub fn stripping_is_refused_exactly()
    ensures asks { AskingIsExact }
    ensures refused { StrippingIsRefusedExactly }
    ensures tidy { StrippingKeepsTidy }
{}
