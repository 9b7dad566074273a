//! What a closure gathers at the spans of the fair cover, as far as its caller can know it.

ghost use Rattle.std.specs.Prelude.{◌≡◌, ℕ, length, min, ◌+◌, ◌-◌, ◌^◌, true, IfOk, OnOk, OnErr, ◌++◌, Result, List};
ghost use Rattle.grep_matcher.specs.Cover.{IsFairCover};
ghost use Rattle.grep_matcher.specs.Groups.{captured};
ghost use Rattle.grep_matcher.specs.Replaced.{replaced_from};
ghost use Rattle.grep_matcher.specs.Span.{Span};

use grep_matcher::{Fault, Match, Matcher};
use sd_base::NoMemory;
use std::alloc::{AllocError, Global};

/// The spans of the fair cover.
pub fn all_spans<M: Matcher>(
    matcher: &M,
    alloc: Global,
    haystack: &[u8],
) -> Result<Result<Vec<Match>, AllocError>, M::Error>
    ensures { IfOk result (λ made. IfOk made (λ spans. IsFairCover (M.preferred matcher.now haystack.now) 0 (length haystack.now) spans.items)) }
{
    let mut spans = Vec::new(alloc);
    let mut keep = |span: Match| -> Result<bool, AllocError> {
        spans.push(span)?;
        Ok(true)
    };
    let done = matcher.try_visit_at(haystack, 0, &mut keep)?;
    match done {
        Ok(()) => Ok(Ok(spans)),
        Err(error) => Ok(Err(error)),
    }
}

/// How many spans the fair cover has.
pub fn count<M: Matcher>(matcher: &M, haystack: &[u8]) -> Result<u64, M::Error>
    ensures { IfOk result (λ n. (spans : List Span) × IsFairCover (M.preferred matcher.now haystack.now) 0 (length haystack.now) spans × (n ≡ min (length spans) (2 ^ 64 - 1))) }
{
    let mut n = 0u64;
    matcher.visit_at(
        haystack,
        0,
        &mut |_span: Match| -> bool
            ensures goes_on { result ≡ true }
            ensures counted { n.exit ≡ min (n.entry + 1) (2 ^ 64 - 1) }
        {
            n = n.saturating_add(1);
            true
        },
    )?;
    Ok(n)
}

/// Appends the haystack with the text in the place of each span.
pub fn replaced_with<M: Matcher>(
    matcher: &M,
    haystack: &[u8],
    text: &[u8],
    dst: &mut Vec<u8>,
) -> Result<(), Fault<M::Error>>
    ensures { OnOk result ((spans : List Span) × IsFairCover (M.preferred matcher.now haystack.now) 0 (length haystack.now) spans
        × (dst.new.items ≡ dst.old.items ++ replaced_from (λ _. text.now) haystack.now 0 spans)) }
{
    matcher.replace(haystack, dst, |_span, out: &mut Vec<u8>| {
        out.extend_from_slice(text)?;
        Ok(true)
    })
}

/// Appends the haystack with each span's own bytes in its place, which is the haystack itself.
pub fn copied<M: Matcher>(
    matcher: &M,
    haystack: &[u8],
    dst: &mut Vec<u8>,
) -> Result<(), Fault<M::Error>>
    ensures { OnOk result (dst.new.items ≡ dst.old.items ++ haystack.now) }
{
    matcher.replace(haystack, dst, |span, out: &mut Vec<u8>| {
        out.extend_from_slice(span.slice_of(haystack))?;
        Ok(true)
    })
}

/// Appends the haystack with the text in the place of each match of a matcher that captures, and tells how many these are.
pub fn replaced_and_counted<M: Matcher>(
    matcher: &M,
    haystack: &[u8],
    caps: &mut M::Captures,
    text: &[u8],
    dst: &mut Vec<u8>,
) -> Result<u64, Fault<M::Error>>
    requires { M.fits matcher.now caps.old }
    ensures { IfOk result (λ n. (spans : List Span) × IsFairCover (captured (M.has_groups matcher.now) (M.preferred matcher.now haystack.now)) 0 (length haystack.now) spans
        × (dst.new.items ≡ dst.old.items ++ replaced_from (λ _. text.now) haystack.now 0 spans) × (n ≡ min (length spans) (2 ^ 64 - 1))) }
{
    let mut n = 0u64;
    let mut append = |_caps: &M::Captures, out: &mut Vec<u8>| -> Result<bool, NoMemory>
        ensures goes_on { IfOk result (λ more. more ≡ true) }
        ensures appended { OnOk result (out.new.items ≡ out.old.items ++ text.entry.now) }
        ensures refused { OnErr result (out.new.items ≡ out.old.items) }
        ensures counted { n.exit ≡ min (n.entry + 1) (2 ^ 64 - 1) }
    {
        n = n.saturating_add(1);
        out.extend_from_slice(text)?;
        Ok(true)
    };
    matcher.replace_with_captures_at_by(haystack, 0, caps, dst, &mut append)?;
    Ok(n)
}

/// Whether the spans are those that start and end here.
pub fn stand_at(spans: &[Match], wanted: &[(usize, usize)]) -> bool {
    if spans.len() != wanted.len() {
        return false;
    }
    for (span, (start, end)) in spans.iter().zip(wanted.iter()) {
        if span.start() != *start || span.end() != *end {
            return false;
        }
    }
    true
}
