//! One step of a search that goes on, and of a copy with some spans left out.

ghost use Rattle.std.specs.Prelude.{◌≡◌, ◌+◌, ◌^◌, ◌<◌, ◌≤◌, length, true, Option, Some, IfOk, IfErr, IfSome, OnOk, OnErr, IsTrue, ◌↔◌, ◌++◌, drop};
ghost use Rattle.grep_matcher.specs.declared.fault.Fault.TheVariants as want;
ghost use Rattle.grep_matcher.specs.Cover.{IsFirst, IsAfter, accepts};
ghost use Rattle.grep_matcher.specs.Groups.{captured, HasFirst, AreOfMatch};
ghost use Rattle.grep_matcher.specs.Replaced.{LiesWithin};

use crate::captures::Captures;
use crate::fault::Fault;
use crate::matcher::Matcher;
use crate::span::Match;
use sd_base::NoMemory;

/// The first span from a place on, but for the empty one at `skip`.
pub(crate) fn next_member<M: Matcher>(
    matcher: &M,
    haystack: &[u8],
    from: usize,
    skip: Option<usize>,
) -> Result<Option<Match>, M::Error>
    ensures found { IfOk result (IsFirst (accepts skip (M.preferred matcher.now haystack.now)) from (length haystack.now)) }
    ensures within { IfOk result (λ found. IfSome found (LiesWithin (length haystack.now))) }
    ensures failed { IfErr result (M.may_fail matcher.now) }
{
    if from > haystack.len() {
        return Ok(None);
    }
    let first = matcher.find_at(haystack, from)?;
    let Some(found) = first else {
        return Ok(None);
    };
    if !(found.is_empty() && skip == Some(found.end())) {
        return Ok(Some(found));
    }
    if found.end() >= haystack.len() {
        return Ok(None);
    }
    matcher.find_at(haystack, found.end() + 1)
}

/// The groups of the first span from a place on, but for the empty one at `skip`. `false` where there is none.
pub(crate) fn next_captures<M: Matcher>(
    matcher: &M,
    haystack: &[u8],
    from: usize,
    skip: Option<usize>,
    caps: &mut M::Captures,
) -> Result<bool, M::Error>
    requires fit { M.fits matcher.now caps.old }
    ensures found { IfOk result (HasFirst (accepts skip (captured (M.has_groups matcher.now) (M.preferred matcher.now haystack.now))) from (length haystack.now)
        (M.groups_at matcher.now haystack.now) (M.Captures.groups caps.new)) }
    ensures within { IfOk result (λ found. found ≡ true → AreOfMatch (length haystack.now) (M.Captures.groups caps.new)) }
    ensures kept { M.fits matcher.now caps.new }
    ensures failed { IfErr result (M.may_fail matcher.now) }
{
    if from > haystack.len() {
        return Ok(false);
    }
    if !matcher.captures_at(haystack, from, caps)? {
        return Ok(false);
    }
    let found = caps.as_match();
    if !is_refused(found, skip) {
        return Ok(true);
    }
    if found.end() >= haystack.len() {
        return Ok(false);
    }
    matcher.captures_at(haystack, found.end() + 1, caps)
}

/// Whether the span is the empty one at `skip`.
fn is_refused(found: Match, skip: Option<usize>) -> bool
    ensures { IsTrue result ↔ ((found.start ≡ found.end) × (skip ≡ Some found.end)) }
{
    found.is_empty() && skip == Some(found.end())
}

/// Where the search goes on after a span.
pub(crate) fn after(found: Match) -> usize
    requires { found.end + 1 < 2 ^ 64 }
    ensures { IsAfter found result }
{
    if found.is_empty() {
        found.end() + 1
    } else {
        found.end()
    }
}

/// Appends bytes. A refusal changes nothing.
pub(crate) fn put(dst: &mut Vec<u8>, bytes: &[u8]) -> Result<(), NoMemory>
    ensures ok { OnOk result (dst.new.items ≡ dst.old.items ++ bytes.now) }
    ensures err { OnErr result (dst.new.items ≡ dst.old.items) }
{
    match dst.extend_from_slice(bytes) {
        Ok(()) => Ok(()),
        Err(_) => Err(NoMemory),
    }
}

/// Appends the haystack's bytes from a place on. A refusal changes nothing.
pub(crate) fn put_rest<E>(dst: &mut Vec<u8>, haystack: &[u8], at: usize) -> Result<(), Fault<E>>
    requires { at ≤ length haystack.now }
    ensures ok { OnOk result (dst.new.items ≡ dst.old.items ++ drop at haystack.now) }
    ensures err { OnErr result (dst.new.items ≡ dst.old.items) }
    ensures memory { IfErr result (λ fault. fault ≡ want.NoMemory) }
{
    match put(dst, &haystack[at..]) {
        Ok(()) => Ok(()),
        Err(NoMemory) => Err(Fault::NoMemory),
    }
}
