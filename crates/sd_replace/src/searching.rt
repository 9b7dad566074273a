//! From match to match.

ghost use Rattle.std.specs.Prelude.{◌≡◌, ◌≤◌, ◌<◌, ◌+◌, ◌^◌, IfOk, IfSome, Some, None, length};
ghost use Rattle.grep_matcher.specs.Cover.{IsFirst, IsAfter, accepts, prefers};
ghost use Rattle.grep_matcher.specs.Replaced.{LiesWithin};
ghost use Rattle.grep_regex.specs.Matching.{end_at};
ghost use Rattle.hir_tree.specs.Spots.{groups_of};
ghost use Rattle.hir_tree.specs.Tree.{tree_of};
ghost use Rattle.sd_replace.specs.Searching.{AreOfMatch};

use grep_matcher::{Captures, Match, Matcher};
use grep_regex::{RegexCaptures, RegexMatcher};
use sd_base::NoMemory;
use std::cell::Cell;

/// A search that goes on from match to match.
#[derive(Drop)]
pub(crate) struct Search<'a> {
    matcher: &'a RegexMatcher,
    /// The groups of the match that was found last, and the lists of the search.
    pub(crate) groups: RegexCaptures,
    /// Where the search goes on.
    from: usize,
    /// The end of the match that was found last: no empty match is found there.
    last: Option<usize>,
    ghost room: { length groups ≡ groups_of matcher.now.searcher + 1 },
}

impl<'a> Search<'a> {
    /// A search from the start, with the groups and the lists of an earlier one. Refuses for want of memory alone.
    pub(crate) fn new(
        matcher: &'a RegexMatcher,
        kept: &Cell<Option<RegexCaptures>>,
    ) -> Result<Search<'a>, NoMemory>
        ensures pattern { IfOk result (λ search. search.matcher.now ≡ matcher.now) }
        ensures start { IfOk result (λ search. search.from ≡ 0) }
        ensures none { IfOk result (λ search. search.last ≡ None) }
    {
        let groups = take_groups(matcher, kept)?;
        Ok(Search {
            matcher,
            groups,
            from: 0,
            last: None,
        })
    }

    /// The next match, whose groups the search then holds. Refuses for want of memory alone.
    #[inline(always)]
    pub(crate) fn next(&mut self, content: &[u8]) -> Result<Option<Match>, NoMemory>
        ensures found { IfOk result (IsFirst (accepts self.old.last (end_at (tree_of self.old.matcher.now.searcher) content.now)) self.old.from (length content.now)) }
        ensures within { IfOk result (λ found. IfSome found (LiesWithin (length content.now))) }
        ensures after { IfOk result (λ found. IfSome found (λ span. IsAfter span self.new.from)) }
        ensures last { IfOk result (λ found. IfSome found (λ span. self.new.last ≡ Some span.end)) }
        ensures groups { IfOk result (λ found. IfSome found (λ span.
            AreOfMatch (tree_of self.old.matcher.now.searcher) content.now span.start self.new.groups)) }
        ensures pattern { self.new.matcher.now ≡ self.old.matcher.now }
    {
        let found = self.next_member(content)?;
        if let Some(span) = found {
            self.from = after(span);
            self.last = Some(span.end());
        }
        Ok(found)
    }

    /// The first match from where the search goes on, but for an empty one at the end of the match before.
    #[inline(always)]
    fn next_member(&mut self, content: &[u8]) -> Result<Option<Match>, NoMemory>
        ensures found { IfOk result (IsFirst (accepts self.old.last (end_at (tree_of self.old.matcher.now.searcher) content.now)) self.old.from (length content.now)) }
        ensures within { IfOk result (λ found. IfSome found (LiesWithin (length content.now))) }
        ensures groups { IfOk result (λ found. IfSome found (λ span.
            AreOfMatch (tree_of self.old.matcher.now.searcher) content.now span.start self.new.groups)) }
        ensures pattern { self.new.matcher.now ≡ self.old.matcher.now }
        ensures from { self.new.from ≡ self.old.from }
        ensures last { self.new.last ≡ self.old.last }
    {
        let first = first_at(self.matcher, content, self.from, &mut self.groups)?;
        let Some(found) = first else {
            return Ok(None);
        };
        if !(found.is_empty() && self.last == Some(found.end())) {
            return Ok(Some(found));
        }
        first_at(self.matcher, content, found.end() + 1, &mut self.groups)
    }

    /// The groups and the lists of the search, for the next one.
    pub(crate) fn into_groups(self) -> RegexCaptures {
        self.groups
    }
}

/// The groups of an earlier search, or else new ones.
fn take_groups(
    matcher: &RegexMatcher,
    kept: &Cell<Option<RegexCaptures>>,
) -> Result<RegexCaptures, NoMemory>
    ensures { IfOk result (λ groups. length groups ≡ groups_of matcher.now.searcher + 1) }
{
    match kept.take() {
        Some(groups) if groups.len() == matcher.capture_count() => Ok(groups),
        _ => matcher.new_captures(),
    }
}

/// The first match from a place on, and its groups. There is none past the end.
fn first_at(
    matcher: &RegexMatcher,
    content: &[u8],
    from: usize,
    groups: &mut RegexCaptures,
) -> Result<Option<Match>, NoMemory>
    requires room { length groups.old ≡ groups_of matcher.now.searcher + 1 }
    ensures found { IfOk result (IsFirst (prefers (end_at (tree_of matcher.now.searcher) content.now)) from (length content.now)) }
    ensures within { IfOk result (λ found. IfSome found (LiesWithin (length content.now))) }
    ensures groups { IfOk result (λ found. IfSome found (λ span. AreOfMatch (tree_of matcher.now.searcher) content.now span.start groups.new)) }
    ensures room { length groups.new ≡ groups_of matcher.now.searcher + 1 }
{
    if from > content.len() {
        return Ok(None);
    }
    if matcher.captures_at(content, from, groups)? {
        Ok(Some(groups.as_match()))
    } else {
        Ok(None)
    }
}

/// Where a search goes on after a match.
fn after(found: Match) -> usize
    requires { found.end + 1 < 2 ^ 64 }
    ensures { IsAfter found result }
{
    if found.is_empty() {
        found.end() + 1
    } else {
        found.end()
    }
}
