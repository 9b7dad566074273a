//! Laws of replacers.

ghost use Rattle.std.specs.Prelude.{◌≡◌, ◌<◌, [], ℕ, List, All, length, take};
ghost use Rattle.grep_matcher.specs.Cover.{IsFairCover};
ghost use Rattle.grep_matcher.specs.Span.{Span};
ghost use Rattle.grep_regex.specs.Matching.{end_at};
ghost use Rattle.sd_change.specs.Change.{IsOne};
ghost use Rattle.sd_replace.specs.Replacement.{Changes, HoldsNoLineFeed, Replacement, replaced_of, within_after};
ghost use Rattle.sd_replace.specs.Replacer.{replacement_of};
ghost use Rattle.sd_replace.specs.declared.replacer.Counted.{Counted};
ghost use Rattle.sd_replace.specs.declared.replacer.Counted.TheVariants.{InEachLine, OverAll};
ghost use Rattle.sd_replace.specs.declared.replacer.Replacer.{Replacer};

/// Old bytes have one list of new bytes and one count.
pub fn one_change()
    ensures { (replacement : Replacement) → IsOne (Changes replacement) }
{
    hir_core::preferred_matches_are_whole();
}

/// No span that a replacer replaces in line mode holds a line feed.
pub fn no_replaced_span_holds_a_line_feed()
    ensures { (replacer : Replacer) → replacer.counted ≡ InEachLine → (bytes : List ℕ) (spans : List Span)
        → IsFairCover (end_at (replacement_of replacer).pattern bytes) 0 (length bytes) spans
        → All (HoldsNoLineFeed bytes) (replaced_of (replacement_of replacer) bytes spans) }
{}

/// A limit over the whole takes the first spans, so many. Without a limit all are taken.
pub fn a_limit_takes_the_first_spans()
    ensures first { (n : ℕ) (bytes : List ℕ) (spans : List Span) → 0 < n → within_after OverAll n bytes [] spans ≡ take n spans }
    ensures all { (counted : Counted) (bytes : List ℕ) (spans : List Span) → within_after counted 0 bytes [] spans ≡ spans }
{}
