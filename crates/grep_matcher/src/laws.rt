//! Laws of what matchers find.

ghost use Rattle.std.specs.Prelude.{◌≡◌, ℕ, List, [], Option, length, slice_range, true, false, All};
ghost use Rattle.grep_matcher.specs.Cover.{IsLawful, IsInTurn, IsFairCover};
ghost use Rattle.grep_matcher.specs.Groups.{captured};
ghost use Rattle.grep_matcher.specs.Replaced.{replaced_from, LiesWithin};
ghost use Rattle.grep_matcher.specs.Span.{Span};

/// There is at most one fair cover from a place.
pub fn one_fair_cover()
    ensures { (preferred : ℕ → Option ℕ) (at n : ℕ) (xs ys : List Span) → IsLawful preferred n
        → IsFairCover preferred at n xs → IsFairCover preferred at n ys → xs ≡ ys }
{}

/// There is a fair cover from each place.
pub fn a_fair_cover_exists()
    ensures { (preferred : ℕ → Option ℕ) (at n : ℕ) → IsLawful preferred n → (spans : List Span) × IsFairCover preferred at n spans }
{}

/// The captures calls of a matcher that captures give the same spans as its find calls. Those of another matcher give none.
pub fn captures_at_the_same_spans()
    ensures same { (preferred : ℕ → Option ℕ) (at n : ℕ) (xs ys : List Span) → IsLawful preferred n
        → IsFairCover preferred at n xs → IsFairCover (captured true preferred) at n ys → xs ≡ ys }
    ensures none { (preferred : ℕ → Option ℕ) (at n : ℕ) (spans : List Span) → IsFairCover (captured false preferred) at n spans → spans ≡ [] }
{}

/// To put its own bytes in the place of each span changes nothing.
pub fn same_bytes_back()
    ensures { (haystack : List ℕ) (spans : List Span) → IsInTurn spans → All (LiesWithin (length haystack)) spans
        → replaced_from (λ span. slice_range haystack span.start span.end) haystack 0 spans ≡ haystack }
{}
