//! Matchers: what finds spans in a haystack.

ghost use Rattle.std.specs.Prelude.{◌≡◌, ◌⊎◌, ℕ, ◌<◌, ◌≤◌, All, length, Option, Some, None, IfOk, IfErr, OnOk, OnErr, IfSome, Result, Ok, ◌++◌, drop, option_map, is_some, true, false, Bool, List, []};
ghost use Rattle.sd_base.specs.declared.no_memory.NoMemory.{NoMemory};
ghost use Rattle.grep_matcher.specs.declared.line_match_kind.LineMatchKind.TheVariants.{Confirmed};
ghost use Rattle.grep_matcher.specs.ByteSets.{is_in};
ghost use Rattle.grep_matcher.specs.Callable.{TakesSpans, TakesCaptures, StaysCallable};
ghost use Rattle.grep_matcher.specs.Cover.{IsLawful, IsFirst, prefers};
ghost use Rattle.grep_matcher.specs.Faults.{IsCaused};
ghost use Rattle.grep_matcher.specs.Groups.{captured, AreGroups, HasFirst};
ghost use Rattle.grep_matcher.specs.NoMatch.{IsInNoMatch};
ghost use Rattle.grep_matcher.specs.Replaced.{Written, Replaces, Extends};
ghost use Rattle.grep_matcher.specs.Span.{Span};
ghost use Rattle.grep_matcher.specs.Terminators.{terminator_bytes};
ghost use Rattle.grep_matcher.specs.Visits.{VisitsCover, IsStopped, IsAnswered, End, broken_off, WithGroups, AppendsWithGroups};

use crate::byte_set::ByteSet;
use crate::captures::Captures;
use crate::fault::Fault;
use crate::line_match_kind::LineMatchKind;
use crate::line_terminator::LineTerminator;
use crate::span::Match;
use crate::visiting::{after, next_captures, next_member, put, put_rest};
use sd_base::NoMemory;
use std::fmt::Display;

/// What finds matches in a haystack of bytes.
///
/// A matcher prefers one end, or none, at each place of a haystack. It tells the match with the least start from a place on;
/// where to go on after a match is the same for all matchers, so the calls that run along a haystack are written here, once.
/// They call a closure at each match, since an iterator would have to hold the matcher's captures.
///
/// A matcher of its own writes [`find_at`](Matcher::find_at), [`new_captures`](Matcher::new_captures) and
/// [`captures_at`](Matcher::captures_at). It has all other calls. Those that answer at once it may write itself too, where it
/// knows a quicker way to the same answer.
///
/// A closure that is handed in may be called at each span, or at all groups of a match, that lie in the haystack, now and
/// after each call that asks for more.
pub trait Matcher {
    /// The groups of a match.
    type Captures: Captures + Drop;

    /// Why a call on the matcher fails.
    type Error: Display + Drop;

    // The end that the matcher prefers at a place of a haystack, or none.
    ghost preferred: { Self → List ℕ → ℕ → Option ℕ };

    // Whether the matcher captures, and the groups of the match at a place.
    ghost has_groups: { Self → Bool } = { λ _. false };

    ghost groups_at: { Self → List ℕ → ℕ → List (Option Span) } = { λ _ _ _. [] };

    // Which captures the matcher writes to.
    ghost fits: { Self → Self.Captures → Type 0 };

    // The number of a group's name.
    ghost index_of: { Self → List ℕ → Option ℕ } = { λ _ _. None };

    // How many groups each match has, group 0 included.
    ghost group_count: { Self → ℕ } = { λ _. 0 };

    // Which errors the matcher may answer with.
    ghost may_fail: { Self → Self.Error → Type 0 };

    /// The first match from the byte offset `at` on: of all matches that start there or later, the one with the least start.
    /// `at` is at most the haystack's length.
    ///
    /// What stands before `at` still counts, as for a pattern that looks at the byte before. From 2, `one` in `one two one` is
    /// first at 8 to 11.
    fn find_at(&self, haystack: &[u8], at: usize) -> Result<Option<Match>, Self::Error>
        requires place { at ≤ length haystack.now }
        ensures found { IfOk result (IsFirst (prefers (preferred self.now haystack.now)) at (length haystack.now)) }
        ensures failed { IfErr result (may_fail self.now) };

    /// Captures that the captures calls of this matcher can fill.
    fn new_captures(&self) -> Result<Self::Captures, Self::Error>
        ensures made { IfOk result (fits self.now) }
        ensures failed { IfErr result (may_fail self.now) };

    /// The first match from the byte offset `at` on, as [`find_at`](Matcher::find_at) gives it, with its groups. `true` where
    /// there is one. After `false` or an error the groups are unspecified. `at` is at most the haystack's length, and `caps` is
    /// of [`new_captures`](Matcher::new_captures) of this matcher.
    ///
    /// A matcher that doesn't capture finds nothing here: its own body is `Ok(false)`.
    fn captures_at(
        &self,
        haystack: &[u8],
        at: usize,
        caps: &mut Self::Captures,
    ) -> Result<bool, Self::Error>
        requires place { at ≤ length haystack.now }
        requires fit { fits self.now caps.old }
        ensures found { IfOk result (HasFirst (prefers (captured (has_groups self.now) (preferred self.now haystack.now))) at (length haystack.now)
            (groups_at self.now haystack.now) (Self.Captures.groups caps.new)) }
        ensures kept { fits self.now caps.new }
        ensures failed { IfErr result (may_fail self.now) };

    /// How many groups each match has, group 0 included, or 0, as by default and for a matcher that doesn't capture.
    ///
    /// `(\w+)@(\w+)` has 3.
    fn capture_count(&self) -> usize
        ensures { (result ≡ 0) ⊎ (result ≡ group_count self.now) }
    {
        0
    }

    /// The number of the group of this name. `None` where no group has it, as by default.
    fn capture_index(&self, name: &str) -> Option<usize>
        ensures { IfSome result (λ i. index_of self.now name.now ≡ Some i) }
    {
        None
    }

    /// Bytes that are in no match of this matcher. `None` where the matcher doesn't tell, as by default.
    ///
    /// A searcher may skip from one such byte to the next. `.` matches no line feed, so 10 is in its set.
    fn non_matching_bytes(&self) -> Option<&ByteSet>
        ensures { IfSome result (λ set. (byte : ℕ) → byte < 256 → is_in set.now byte ≡ true → IsInNoMatch (preferred self.now) byte) }
    {
        None
    }

    /// A terminator of which no byte is in a match of this matcher. `None` where the matcher doesn't tell, as by default.
    ///
    /// With one, a searcher may go line by line. With `\r\n`, neither `\r` nor `\n` is in a match.
    fn line_terminator(&self) -> Option<LineTerminator>
        ensures { IfSome result (λ terminator. All (IsInNoMatch (preferred self.now)) (terminator_bytes terminator)) }
    {
        None
    }

    /// The first match of the haystack. `one` in `one two one` is first at 0 to 3.
    fn find(&self, haystack: &[u8]) -> Result<Option<Match>, Self::Error>
        ensures found { IfOk result (IsFirst (prefers (preferred self.now haystack.now)) 0 (length haystack.now)) }
        ensures failed { IfErr result (may_fail self.now) }
    {
        self.find_at(haystack, 0)
    }

    /// The first match of the haystack with its groups, as by [`captures_at`](Matcher::captures_at) from 0.
    fn captures(&self, haystack: &[u8], caps: &mut Self::Captures) -> Result<bool, Self::Error>
        requires fit { fits self.now caps.old }
        ensures found { IfOk result (HasFirst (prefers (captured (has_groups self.now) (preferred self.now haystack.now))) 0 (length haystack.now)
            (groups_at self.now haystack.now) (Self.Captures.groups caps.new)) }
        ensures kept { fits self.now caps.new }
        ensures failed { IfErr result (may_fail self.now) }
    {
        self.captures_at(haystack, 0, caps)
    }

    /// The end of the first match, a byte offset. The end of `one` in `one two one` is 3.
    fn shortest_match(&self, haystack: &[u8]) -> Result<Option<usize>, Self::Error>
        ensures found { IfOk result (λ end. (found : Option Span) × IsFirst (prefers (preferred self.now haystack.now)) 0 (length haystack.now) found
            × (end ≡ option_map (λ span. span.end) found)) }
        ensures failed { IfErr result (may_fail self.now) }
    {
        self.shortest_match_at(haystack, 0)
    }

    /// The end of the first match from the byte offset `at` on, which is at most the haystack's length.
    fn shortest_match_at(&self, haystack: &[u8], at: usize) -> Result<Option<usize>, Self::Error>
        requires place { at ≤ length haystack.now }
        ensures found { IfOk result (λ end. (found : Option Span) × IsFirst (prefers (preferred self.now haystack.now)) at (length haystack.now) found
            × (end ≡ option_map (λ span. span.end) found)) }
        ensures failed { IfErr result (may_fail self.now) }
    {
        match self.find_at(haystack, at)? {
            Some(found) => Ok(Some(found.end())),
            None => Ok(None),
        }
    }

    /// Whether there is a match in the haystack.
    fn is_match(&self, haystack: &[u8]) -> Result<bool, Self::Error>
        ensures found { IfOk result (λ there. (found : Option Span) × IsFirst (prefers (preferred self.now haystack.now)) 0 (length haystack.now) found
            × (there ≡ is_some found)) }
        ensures failed { IfErr result (may_fail self.now) }
    {
        self.is_match_at(haystack, 0)
    }

    /// Whether there is a match from the byte offset `at` on, which is at most the haystack's length. `two` is in `one two one`
    /// from 4 on, and not from 5 on.
    fn is_match_at(&self, haystack: &[u8], at: usize) -> Result<bool, Self::Error>
        requires place { at ≤ length haystack.now }
        ensures found { IfOk result (λ there. (found : Option Span) × IsFirst (prefers (preferred self.now haystack.now)) at (length haystack.now) found
            × (there ≡ is_some found)) }
        ensures failed { IfErr result (may_fail self.now) }
    {
        Ok(self.shortest_match_at(haystack, at)?.is_some())
    }

    /// A place in the first line that matches or may match: by default the end of the first match, `Confirmed`.
    ///
    /// `two` in `one two one` gives `Confirmed(7)`.
    fn find_candidate_line(&self, haystack: &[u8]) -> Result<Option<LineMatchKind>, Self::Error>
        ensures found { IfOk result (λ line. (found : Option Span) × IsFirst (prefers (preferred self.now haystack.now)) 0 (length haystack.now) found
            × (line ≡ option_map (λ span. Confirmed span.end) found)) }
        ensures failed { IfErr result (may_fail self.now) }
    {
        match self.shortest_match(haystack)? {
            Some(end) => Ok(Some(LineMatchKind::Confirmed(end))),
            None => Ok(None),
        }
    }

    // An end lies from its place to the haystack's length.
    ghost lawful: { (matcher : Self) (haystack : List ℕ) → IsLawful (preferred matcher haystack) (length haystack) };

    // The groups of a match are its own.
    ghost lawful_groups: { (matcher : Self) (haystack : List ℕ) (place end : ℕ) → place ≤ length haystack → preferred matcher haystack place ≡ Some end
        → has_groups matcher ≡ true → AreGroups place end (length haystack) (groups_at matcher haystack place) };

    /// Calls `matched` at each match of the haystack, from left to right, up to its first `false`.
    ///
    /// Matches don't overlap, and an empty one doesn't stand at the end of the one before. `one` in `one two one` gives the spans
    /// 0 to 3 and 8 to 11; the empty text in `ab` gives 0 to 0, 1 to 1 and 2 to 2. An error of the matcher may come after a part of
    /// these calls. What `matched` holds by reference in the end is known where it is called by
    /// [`visit_at`](Matcher::visit_at).
    final fn find_iter<F: FnMut(Match) -> bool>(
        &self,
        haystack: &[u8],
        matched: F,
    ) -> Result<(), Self::Error>
        requires callable { TakesSpans F.pre (length haystack.now) matched }
        requires stays { StaysCallable (TakesSpans F.pre (length haystack.now)) F.step true }
        ensures visited { OnOk result ((last : F) × (end : End Bool) × IsStopped end
            × VisitsCover F.step true (preferred self.now haystack.now) (length haystack.now) 0 matched end last) }
        ensures broken { OnErr result ((last : F)
            × VisitsCover F.step true (preferred self.now haystack.now) (length haystack.now) 0 matched broken_off last) }
        ensures failed { IfErr result (may_fail self.now) }
    {
        self.find_iter_at(haystack, 0, matched)
    }

    /// [`find_iter`](Matcher::find_iter) from the byte offset `at` on, which is at most the haystack's length. From 2, `one` in
    /// `one two one` gives the span 8 to 11 alone.
    final fn find_iter_at<F: FnMut(Match) -> bool>(
        &self,
        haystack: &[u8],
        at: usize,
        mut matched: F,
    ) -> Result<(), Self::Error>
        requires place { at ≤ length haystack.now }
        requires callable { TakesSpans F.pre (length haystack.now) matched }
        requires stays { StaysCallable (TakesSpans F.pre (length haystack.now)) F.step true }
        ensures visited { OnOk result ((last : F) × (end : End Bool) × IsStopped end
            × VisitsCover F.step true (preferred self.now haystack.now) (length haystack.now) at matched end last) }
        ensures broken { OnErr result ((last : F)
            × VisitsCover F.step true (preferred self.now haystack.now) (length haystack.now) at matched broken_off last) }
        ensures failed { IfErr result (may_fail self.now) }
    {
        self.visit_at(haystack, at, &mut matched)
    }

    /// [`find_iter_at`](Matcher::find_iter_at) with a closure that stays the caller's.
    final fn visit_at<F: FnMut(Match) -> bool>(
        &self,
        haystack: &[u8],
        at: usize,
        matched: &mut F,
    ) -> Result<(), Self::Error>
        requires place { at ≤ length haystack.now }
        requires callable { TakesSpans F.pre (length haystack.now) matched.old }
        requires stays { StaysCallable (TakesSpans F.pre (length haystack.now)) F.step true }
        ensures visited { OnOk result ((end : End Bool) × IsStopped end
            × VisitsCover F.step true (preferred self.now haystack.now) (length haystack.now) at matched.old end matched.new) }
        ensures broken { OnErr result (VisitsCover F.step true (preferred self.now haystack.now) (length haystack.now) at matched.old broken_off matched.new) }
        ensures failed { IfErr result (may_fail self.now) }
    {
        let mut from = at;
        let mut skip = None;
        while let Some(found) = next_member(self, haystack, from, skip)? {
            if !matched(found) {
                return Ok(());
            }
            from = after(found);
            skip = Some(found.end());
        }
        Ok(())
    }

    /// [`find_iter`](Matcher::find_iter) with a closure that may fail. Its first error ends the calls too, and is the answer
    /// `Ok(Err(error))`.
    final fn try_find_iter<F: FnMut(Match) -> Result<bool, E>, E>(
        &self,
        haystack: &[u8],
        matched: F,
    ) -> Result<Result<(), E>, Self::Error>
        requires callable { TakesSpans F.pre (length haystack.now) matched }
        requires stays { StaysCallable (TakesSpans F.pre (length haystack.now)) F.step (Ok true) }
        ensures visited { IfOk result (λ answer. (last : F) × (end : End (Result Bool E)) × IsAnswered end answer
            × VisitsCover F.step (Ok true) (preferred self.now haystack.now) (length haystack.now) 0 matched end last) }
        ensures broken { OnErr result ((last : F)
            × VisitsCover F.step (Ok true) (preferred self.now haystack.now) (length haystack.now) 0 matched broken_off last) }
        ensures failed { IfErr result (may_fail self.now) }
    {
        self.try_find_iter_at(haystack, 0, matched)
    }

    /// [`try_find_iter`](Matcher::try_find_iter) from the byte offset `at` on, which is at most the haystack's length.
    final fn try_find_iter_at<F: FnMut(Match) -> Result<bool, E>, E>(
        &self,
        haystack: &[u8],
        at: usize,
        mut matched: F,
    ) -> Result<Result<(), E>, Self::Error>
        requires place { at ≤ length haystack.now }
        requires callable { TakesSpans F.pre (length haystack.now) matched }
        requires stays { StaysCallable (TakesSpans F.pre (length haystack.now)) F.step (Ok true) }
        ensures visited { IfOk result (λ answer. (last : F) × (end : End (Result Bool E)) × IsAnswered end answer
            × VisitsCover F.step (Ok true) (preferred self.now haystack.now) (length haystack.now) at matched end last) }
        ensures broken { OnErr result ((last : F)
            × VisitsCover F.step (Ok true) (preferred self.now haystack.now) (length haystack.now) at matched broken_off last) }
        ensures failed { IfErr result (may_fail self.now) }
    {
        self.try_visit_at(haystack, at, &mut matched)
    }

    /// [`try_find_iter_at`](Matcher::try_find_iter_at) with a closure that stays the caller's.
    final fn try_visit_at<F: FnMut(Match) -> Result<bool, E>, E>(
        &self,
        haystack: &[u8],
        at: usize,
        matched: &mut F,
    ) -> Result<Result<(), E>, Self::Error>
        requires place { at ≤ length haystack.now }
        requires callable { TakesSpans F.pre (length haystack.now) matched.old }
        requires stays { StaysCallable (TakesSpans F.pre (length haystack.now)) F.step (Ok true) }
        ensures visited { IfOk result (λ answer. (end : End (Result Bool E)) × IsAnswered end answer
            × VisitsCover F.step (Ok true) (preferred self.now haystack.now) (length haystack.now) at matched.old end matched.new) }
        ensures broken { OnErr result (VisitsCover F.step (Ok true) (preferred self.now haystack.now) (length haystack.now) at matched.old broken_off matched.new) }
        ensures failed { IfErr result (may_fail self.now) }
    {
        let mut from = at;
        let mut skip = None;
        while let Some(found) = next_member(self, haystack, from, skip)? {
            match matched(found) {
                Ok(true) => {}
                Ok(false) => return Ok(Ok(())),
                Err(error) => return Ok(Err(error)),
            }
            from = after(found);
            skip = Some(found.end());
        }
        Ok(Ok(()))
    }

    /// Calls `matched` with the groups of each match of the haystack, from left to right, up to its first `false`. The matches are
    /// those of [`find_iter`](Matcher::find_iter). A matcher that doesn't capture gives none.
    final fn captures_iter<F: FnMut(&Self::Captures) -> bool>(
        &self,
        haystack: &[u8],
        caps: &mut Self::Captures,
        matched: F,
    ) -> Result<(), Self::Error>
        requires fit { fits self.now caps.old }
        requires callable { TakesCaptures F.pre (λ c. Self.Captures.groups c.now) (length haystack.now) matched }
        requires stays { StaysCallable (TakesCaptures F.pre (λ c. Self.Captures.groups c.now) (length haystack.now)) F.step true }
        ensures visited { OnOk result ((last : F) × (end : End Bool) × IsStopped end
            × VisitsCover (WithGroups F.step (λ c. Self.Captures.groups c.now) (groups_at self.now haystack.now))
            true (captured (has_groups self.now) (preferred self.now haystack.now)) (length haystack.now) 0 matched end last) }
        ensures broken { OnErr result ((last : F)
            × VisitsCover (WithGroups F.step (λ c. Self.Captures.groups c.now) (groups_at self.now haystack.now))
            true (captured (has_groups self.now) (preferred self.now haystack.now)) (length haystack.now) 0 matched broken_off last) }
        ensures kept { fits self.now caps.new }
        ensures failed { IfErr result (may_fail self.now) }
    {
        self.captures_iter_at(haystack, 0, caps, matched)
    }

    /// [`captures_iter`](Matcher::captures_iter) from the byte offset `at` on, which is at most the haystack's length.
    final fn captures_iter_at<F: FnMut(&Self::Captures) -> bool>(
        &self,
        haystack: &[u8],
        at: usize,
        caps: &mut Self::Captures,
        mut matched: F,
    ) -> Result<(), Self::Error>
        requires place { at ≤ length haystack.now }
        requires fit { fits self.now caps.old }
        requires callable { TakesCaptures F.pre (λ c. Self.Captures.groups c.now) (length haystack.now) matched }
        requires stays { StaysCallable (TakesCaptures F.pre (λ c. Self.Captures.groups c.now) (length haystack.now)) F.step true }
        ensures visited { OnOk result ((last : F) × (end : End Bool) × IsStopped end
            × VisitsCover (WithGroups F.step (λ c. Self.Captures.groups c.now) (groups_at self.now haystack.now))
            true (captured (has_groups self.now) (preferred self.now haystack.now)) (length haystack.now) at matched end last) }
        ensures broken { OnErr result ((last : F)
            × VisitsCover (WithGroups F.step (λ c. Self.Captures.groups c.now) (groups_at self.now haystack.now))
            true (captured (has_groups self.now) (preferred self.now haystack.now)) (length haystack.now) at matched broken_off last) }
        ensures kept { fits self.now caps.new }
        ensures failed { IfErr result (may_fail self.now) }
    {
        self.captures_visit_at(haystack, at, caps, &mut matched)
    }

    /// [`captures_iter_at`](Matcher::captures_iter_at) with a closure that stays the caller's.
    final fn captures_visit_at<F: FnMut(&Self::Captures) -> bool>(
        &self,
        haystack: &[u8],
        at: usize,
        caps: &mut Self::Captures,
        matched: &mut F,
    ) -> Result<(), Self::Error>
        requires place { at ≤ length haystack.now }
        requires fit { fits self.now caps.old }
        requires callable { TakesCaptures F.pre (λ c. Self.Captures.groups c.now) (length haystack.now) matched.old }
        requires stays { StaysCallable (TakesCaptures F.pre (λ c. Self.Captures.groups c.now) (length haystack.now)) F.step true }
        ensures visited { OnOk result ((end : End Bool) × IsStopped end
            × VisitsCover (WithGroups F.step (λ c. Self.Captures.groups c.now) (groups_at self.now haystack.now))
            true (captured (has_groups self.now) (preferred self.now haystack.now)) (length haystack.now) at matched.old end matched.new) }
        ensures broken { OnErr result (VisitsCover (WithGroups F.step (λ c. Self.Captures.groups c.now) (groups_at self.now haystack.now))
            true (captured (has_groups self.now) (preferred self.now haystack.now)) (length haystack.now) at matched.old broken_off matched.new) }
        ensures kept { fits self.now caps.new }
        ensures failed { IfErr result (may_fail self.now) }
    {
        let mut from = at;
        let mut skip = None;
        while next_captures(self, haystack, from, skip, caps)? {
            let found = caps.as_match();
            if !matched(caps) {
                return Ok(());
            }
            from = after(found);
            skip = Some(found.end());
        }
        Ok(())
    }

    /// [`captures_iter`](Matcher::captures_iter) with a closure that may fail. Its first error ends the calls too, and is the
    /// answer `Ok(Err(error))`.
    final fn try_captures_iter<F: FnMut(&Self::Captures) -> Result<bool, E>, E>(
        &self,
        haystack: &[u8],
        caps: &mut Self::Captures,
        matched: F,
    ) -> Result<Result<(), E>, Self::Error>
        requires fit { fits self.now caps.old }
        requires callable { TakesCaptures F.pre (λ c. Self.Captures.groups c.now) (length haystack.now) matched }
        requires stays { StaysCallable (TakesCaptures F.pre (λ c. Self.Captures.groups c.now) (length haystack.now)) F.step (Ok true) }
        ensures visited { IfOk result (λ answer. (last : F) × (end : End (Result Bool E)) × IsAnswered end answer
            × VisitsCover (WithGroups F.step (λ c. Self.Captures.groups c.now) (groups_at self.now haystack.now))
            (Ok true) (captured (has_groups self.now) (preferred self.now haystack.now)) (length haystack.now) 0 matched end last) }
        ensures broken { OnErr result ((last : F)
            × VisitsCover (WithGroups F.step (λ c. Self.Captures.groups c.now) (groups_at self.now haystack.now))
            (Ok true) (captured (has_groups self.now) (preferred self.now haystack.now)) (length haystack.now) 0 matched broken_off last) }
        ensures kept { fits self.now caps.new }
        ensures failed { IfErr result (may_fail self.now) }
    {
        self.try_captures_iter_at(haystack, 0, caps, matched)
    }

    /// [`try_captures_iter`](Matcher::try_captures_iter) from the byte offset `at` on, which is at most the haystack's length.
    final fn try_captures_iter_at<F: FnMut(&Self::Captures) -> Result<bool, E>, E>(
        &self,
        haystack: &[u8],
        at: usize,
        caps: &mut Self::Captures,
        mut matched: F,
    ) -> Result<Result<(), E>, Self::Error>
        requires place { at ≤ length haystack.now }
        requires fit { fits self.now caps.old }
        requires callable { TakesCaptures F.pre (λ c. Self.Captures.groups c.now) (length haystack.now) matched }
        requires stays { StaysCallable (TakesCaptures F.pre (λ c. Self.Captures.groups c.now) (length haystack.now)) F.step (Ok true) }
        ensures visited { IfOk result (λ answer. (last : F) × (end : End (Result Bool E)) × IsAnswered end answer
            × VisitsCover (WithGroups F.step (λ c. Self.Captures.groups c.now) (groups_at self.now haystack.now))
            (Ok true) (captured (has_groups self.now) (preferred self.now haystack.now)) (length haystack.now) at matched end last) }
        ensures broken { OnErr result ((last : F)
            × VisitsCover (WithGroups F.step (λ c. Self.Captures.groups c.now) (groups_at self.now haystack.now))
            (Ok true) (captured (has_groups self.now) (preferred self.now haystack.now)) (length haystack.now) at matched broken_off last) }
        ensures kept { fits self.now caps.new }
        ensures failed { IfErr result (may_fail self.now) }
    {
        self.try_captures_visit_at(haystack, at, caps, &mut matched)
    }

    /// [`try_captures_iter_at`](Matcher::try_captures_iter_at) with a closure that stays the caller's.
    final fn try_captures_visit_at<F: FnMut(&Self::Captures) -> Result<bool, E>, E>(
        &self,
        haystack: &[u8],
        at: usize,
        caps: &mut Self::Captures,
        matched: &mut F,
    ) -> Result<Result<(), E>, Self::Error>
        requires place { at ≤ length haystack.now }
        requires fit { fits self.now caps.old }
        requires callable { TakesCaptures F.pre (λ c. Self.Captures.groups c.now) (length haystack.now) matched.old }
        requires stays { StaysCallable (TakesCaptures F.pre (λ c. Self.Captures.groups c.now) (length haystack.now)) F.step (Ok true) }
        ensures visited { IfOk result (λ answer. (end : End (Result Bool E)) × IsAnswered end answer
            × VisitsCover (WithGroups F.step (λ c. Self.Captures.groups c.now) (groups_at self.now haystack.now))
            (Ok true) (captured (has_groups self.now) (preferred self.now haystack.now)) (length haystack.now) at matched.old end matched.new) }
        ensures broken { OnErr result (VisitsCover (WithGroups F.step (λ c. Self.Captures.groups c.now) (groups_at self.now haystack.now))
            (Ok true) (captured (has_groups self.now) (preferred self.now haystack.now)) (length haystack.now) at matched.old broken_off matched.new) }
        ensures kept { fits self.now caps.new }
        ensures failed { IfErr result (may_fail self.now) }
    {
        let mut from = at;
        let mut skip = None;
        while next_captures(self, haystack, from, skip, caps)? {
            let found = caps.as_match();
            match matched(caps) {
                Ok(true) => {}
                Ok(false) => return Ok(Ok(())),
                Err(error) => return Ok(Err(error)),
            }
            from = after(found);
            skip = Some(found.end());
        }
        Ok(Ok(()))
    }

    /// Appends the haystack to `dst` with each match left out. At each, `append` is called and may append something in its place:
    /// it keeps what `dst` holds. After its first `false` the rest of the haystack is appended as it stands.
    ///
    /// With `1` in the place of `one`, `one two one` becomes `1 two 1`. After an error `dst` still begins with the bytes that it
    /// held.
    final fn replace<F: FnMut(Match, &mut Vec<u8>) -> Result<bool, NoMemory>>(
        &self,
        haystack: &[u8],
        dst: &mut Vec<u8>,
        mut append: F,
    ) -> Result<(), Fault<Self::Error>>
        requires callable { TakesSpans (λ f span. (d : _) → F.pre f span d) (length haystack.now) append }
        requires stays { StaysCallable (TakesSpans (λ f span. (d : _) → F.pre f span d) (length haystack.now))
            (λ f span r g. (d : _) × (e : _) × F.step f span d r e g) (Ok true) }
        requires keeps { (f : F) (span : Span) (d : _) (r : Result Bool NoMemory) (e : _) (g : F) → F.step f span d r e g → Extends d.now.items e.now.items }
        ensures replaced { OnOk result ((last : Written F) × (end : End (Result Bool NoMemory)) × IsAnswered end (Ok tt)
            × VisitsCover (Replaces F.step (λ d. d.now.items) haystack.now) (Ok true)
            (preferred self.now haystack.now) (length haystack.now) 0
            (record { closure = append; at = 0; bytes = dst.old.items }) end last
            × (dst.new.items ≡ last.bytes ++ drop last.at haystack.now)) }
        ensures extended { OnErr result (Extends dst.old.items dst.new.items) }
        ensures failed { IfErr result (IsCaused (may_fail self.now)) }
    {
        self.replace_by(haystack, dst, &mut append)
    }

    /// [`replace`](Matcher::replace) with a closure that is lent, so that the caller learns what it gathered.
    ///
    /// A closure that also counts how often it was called tells the number of replaced matches.
    final fn replace_by<F: FnMut(Match, &mut Vec<u8>) -> Result<bool, NoMemory>>(
        &self,
        haystack: &[u8],
        dst: &mut Vec<u8>,
        append: &mut F,
    ) -> Result<(), Fault<Self::Error>>
        requires callable { TakesSpans (λ f span. (d : _) → F.pre f span d) (length haystack.now) append.old }
        requires stays { StaysCallable (TakesSpans (λ f span. (d : _) → F.pre f span d) (length haystack.now))
            (λ f span r g. (d : _) × (e : _) × F.step f span d r e g) (Ok true) }
        requires keeps { (f : F) (span : Span) (d : _) (r : Result Bool NoMemory) (e : _) (g : F) → F.step f span d r e g → Extends d.now.items e.now.items }
        ensures replaced { OnOk result ((last : Written F) × (end : End (Result Bool NoMemory)) × IsAnswered end (Ok tt)
            × VisitsCover (Replaces F.step (λ d. d.now.items) haystack.now) (Ok true)
            (preferred self.now haystack.now) (length haystack.now) 0
            (record { closure = append.old; at = 0; bytes = dst.old.items }) end last
            × (dst.new.items ≡ last.bytes ++ drop last.at haystack.now) × (last.closure ≡ append.new)) }
        ensures extended { OnErr result (Extends dst.old.items dst.new.items) }
        ensures failed { IfErr result (IsCaused (may_fail self.now)) }
    {
        let mut from = 0;
        let mut skip = None;
        let mut copied = 0;
        'spans: loop {
            let next = match next_member(self, haystack, from, skip) {
                Ok(next) => next,
                Err(error) => return Err(Fault::Matcher(error)),
            };
            let Some(found) = next else {
                return put_rest(dst, haystack, copied);
            };
            if put(dst, &haystack[copied..found.start()]).is_err() {
                return Err(Fault::NoMemory);
            }
            match append(found, dst) {
                Ok(true) => {}
                Ok(false) => return put_rest(dst, haystack, found.end()),
                Err(NoMemory) => return Err(Fault::NoMemory),
            }
            copied = found.end();
            from = after(found);
            skip = Some(found.end());
        }
    }

    /// [`replace`](Matcher::replace) with a closure that sees the groups of each match. A matcher that doesn't capture leaves the
    /// haystack as it stands.
    ///
    /// With `$2 at $1` in the place of `(\w+)@(\w+)`, `x@y` becomes `y at x`.
    final fn replace_with_captures<
        F: FnMut(&Self::Captures, &mut Vec<u8>) -> Result<bool, NoMemory>,
    >(
        &self,
        haystack: &[u8],
        caps: &mut Self::Captures,
        dst: &mut Vec<u8>,
        append: F,
    ) -> Result<(), Fault<Self::Error>>
        requires fit { fits self.now caps.old }
        requires callable { TakesCaptures (λ f c. (d : _) → F.pre f c d) (λ c. Self.Captures.groups c.now) (length haystack.now) append }
        requires stays { StaysCallable (TakesCaptures (λ f c. (d : _) → F.pre f c d) (λ c. Self.Captures.groups c.now) (length haystack.now))
            (λ f c r g. (d : _) × (e : _) × F.step f c d r e g) (Ok true) }
        requires keeps { (f : F) (c : _) (d : _) (r : Result Bool NoMemory) (e : _) (g : F) → F.step f c d r e g → Extends d.now.items e.now.items }
        ensures replaced { OnOk result ((last : Written F) × (end : End (Result Bool NoMemory)) × IsAnswered end (Ok tt)
            × VisitsCover (Replaces (AppendsWithGroups F.step (λ c. Self.Captures.groups c.now) (groups_at self.now haystack.now)) (λ d. d.now.items) haystack.now)
            (Ok true) (captured (has_groups self.now) (preferred self.now haystack.now)) (length haystack.now) 0
            (record { closure = append; at = 0; bytes = dst.old.items }) end last
            × (dst.new.items ≡ last.bytes ++ drop last.at haystack.now)) }
        ensures extended { OnErr result (Extends dst.old.items dst.new.items) }
        ensures failed { IfErr result (IsCaused (may_fail self.now)) }
        ensures kept { fits self.now caps.new }
    {
        self.replace_with_captures_at(haystack, 0, caps, dst, append)
    }

    /// [`replace_with_captures`](Matcher::replace_with_captures) of the haystack from the byte offset `at` on, which is at most
    /// its length. What stands before isn't appended.
    final fn replace_with_captures_at<
        F: FnMut(&Self::Captures, &mut Vec<u8>) -> Result<bool, NoMemory>,
    >(
        &self,
        haystack: &[u8],
        at: usize,
        caps: &mut Self::Captures,
        dst: &mut Vec<u8>,
        mut append: F,
    ) -> Result<(), Fault<Self::Error>>
        requires place { at ≤ length haystack.now }
        requires fit { fits self.now caps.old }
        requires callable { TakesCaptures (λ f c. (d : _) → F.pre f c d) (λ c. Self.Captures.groups c.now) (length haystack.now) append }
        requires stays { StaysCallable (TakesCaptures (λ f c. (d : _) → F.pre f c d) (λ c. Self.Captures.groups c.now) (length haystack.now))
            (λ f c r g. (d : _) × (e : _) × F.step f c d r e g) (Ok true) }
        requires keeps { (f : F) (c : _) (d : _) (r : Result Bool NoMemory) (e : _) (g : F) → F.step f c d r e g → Extends d.now.items e.now.items }
        ensures replaced { OnOk result ((last : Written F) × (end : End (Result Bool NoMemory)) × IsAnswered end (Ok tt)
            × VisitsCover (Replaces (AppendsWithGroups F.step (λ c. Self.Captures.groups c.now) (groups_at self.now haystack.now)) (λ d. d.now.items) haystack.now)
            (Ok true) (captured (has_groups self.now) (preferred self.now haystack.now)) (length haystack.now) at
            (record { closure = append; at = at; bytes = dst.old.items }) end last
            × (dst.new.items ≡ last.bytes ++ drop last.at haystack.now)) }
        ensures extended { OnErr result (Extends dst.old.items dst.new.items) }
        ensures failed { IfErr result (IsCaused (may_fail self.now)) }
        ensures kept { fits self.now caps.new }
    {
        self.replace_with_captures_at_by(haystack, at, caps, dst, &mut append)
    }

    /// [`replace_with_captures_at`](Matcher::replace_with_captures_at) with a closure that is lent, so that the caller learns what
    /// it gathered.
    final fn replace_with_captures_at_by<
        F: FnMut(&Self::Captures, &mut Vec<u8>) -> Result<bool, NoMemory>,
    >(
        &self,
        haystack: &[u8],
        at: usize,
        caps: &mut Self::Captures,
        dst: &mut Vec<u8>,
        append: &mut F,
    ) -> Result<(), Fault<Self::Error>>
        requires place { at ≤ length haystack.now }
        requires fit { fits self.now caps.old }
        requires callable { TakesCaptures (λ f c. (d : _) → F.pre f c d) (λ c. Self.Captures.groups c.now) (length haystack.now) append.old }
        requires stays { StaysCallable (TakesCaptures (λ f c. (d : _) → F.pre f c d) (λ c. Self.Captures.groups c.now) (length haystack.now))
            (λ f c r g. (d : _) × (e : _) × F.step f c d r e g) (Ok true) }
        requires keeps { (f : F) (c : _) (d : _) (r : Result Bool NoMemory) (e : _) (g : F) → F.step f c d r e g → Extends d.now.items e.now.items }
        ensures replaced { OnOk result ((last : Written F) × (end : End (Result Bool NoMemory)) × IsAnswered end (Ok tt)
            × VisitsCover (Replaces (AppendsWithGroups F.step (λ c. Self.Captures.groups c.now) (groups_at self.now haystack.now)) (λ d. d.now.items) haystack.now)
            (Ok true) (captured (has_groups self.now) (preferred self.now haystack.now)) (length haystack.now) at
            (record { closure = append.old; at = at; bytes = dst.old.items }) end last
            × (dst.new.items ≡ last.bytes ++ drop last.at haystack.now) × (last.closure ≡ append.new)) }
        ensures extended { OnErr result (Extends dst.old.items dst.new.items) }
        ensures failed { IfErr result (IsCaused (may_fail self.now)) }
        ensures kept { fits self.now caps.new }
    {
        let mut from = at;
        let mut skip = None;
        let mut copied = at;
        'spans: loop {
            match next_captures(self, haystack, from, skip, caps) {
                Ok(true) => {}
                Ok(false) => return put_rest(dst, haystack, copied),
                Err(error) => return Err(Fault::Matcher(error)),
            }
            let found = caps.as_match();
            if put(dst, &haystack[copied..found.start()]).is_err() {
                return Err(Fault::NoMemory);
            }
            match append(caps, dst) {
                Ok(true) => {}
                Ok(false) => return put_rest(dst, haystack, found.end()),
                Err(NoMemory) => return Err(Fault::NoMemory),
            }
            copied = found.end();
            from = after(found);
            skip = Some(found.end());
        }
    }
}

impl<M: Matcher> Matcher for &M {
    type Captures = M::Captures;

    type Error = M::Error;

    ghost preferred = { λ m haystack place. M.preferred m.now haystack place };

    ghost has_groups = { λ m. M.has_groups m.now };

    ghost groups_at = { λ m haystack place. M.groups_at m.now haystack place };

    ghost fits = { λ m caps. M.fits m.now caps };

    ghost index_of = { λ m name. M.index_of m.now name };

    ghost group_count = { λ m. M.group_count m.now };

    ghost may_fail = { λ m error. M.may_fail m.now error };

    ghost lawful = { λ m haystack. M.lawful m.now haystack };

    ghost lawful_groups = { λ m haystack. M.lawful_groups m.now haystack };

    fn find_at(&self, haystack: &[u8], at: usize) -> Result<Option<Match>, M::Error> {
        (**self).find_at(haystack, at)
    }

    fn new_captures(&self) -> Result<M::Captures, M::Error> {
        (**self).new_captures()
    }

    fn captures_at(
        &self,
        haystack: &[u8],
        at: usize,
        caps: &mut M::Captures,
    ) -> Result<bool, M::Error> {
        (**self).captures_at(haystack, at, caps)
    }

    fn capture_count(&self) -> usize {
        (**self).capture_count()
    }

    fn capture_index(&self, name: &str) -> Option<usize> {
        (**self).capture_index(name)
    }

    fn non_matching_bytes(&self) -> Option<&ByteSet> {
        (**self).non_matching_bytes()
    }

    fn line_terminator(&self) -> Option<LineTerminator> {
        (**self).line_terminator()
    }

    fn find(&self, haystack: &[u8]) -> Result<Option<Match>, M::Error> {
        (**self).find(haystack)
    }

    fn captures(&self, haystack: &[u8], caps: &mut M::Captures) -> Result<bool, M::Error> {
        (**self).captures(haystack, caps)
    }

    fn shortest_match(&self, haystack: &[u8]) -> Result<Option<usize>, M::Error> {
        (**self).shortest_match(haystack)
    }

    fn shortest_match_at(&self, haystack: &[u8], at: usize) -> Result<Option<usize>, M::Error> {
        (**self).shortest_match_at(haystack, at)
    }

    fn is_match(&self, haystack: &[u8]) -> Result<bool, M::Error> {
        (**self).is_match(haystack)
    }

    fn is_match_at(&self, haystack: &[u8], at: usize) -> Result<bool, M::Error> {
        (**self).is_match_at(haystack, at)
    }

    fn find_candidate_line(&self, haystack: &[u8]) -> Result<Option<LineMatchKind>, M::Error> {
        (**self).find_candidate_line(haystack)
    }
}
