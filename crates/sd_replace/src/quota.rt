//! How many matches are replaced at most.

ghost use Rattle.std.specs.Prelude.{◌≡◌, ◌≤◌, ◌<◌, ◌++◌, ◌∷◌, [], ℕ, List, All, IsTrue, false, length, min};
ghost use Rattle.grep_matcher.specs.Span.{Span};
ghost use Rattle.sd_replace.specs.Quota.{HasCounted, Knows};
ghost use Rattle.sd_replace.specs.Replacement.{is_within, within_after, together_with, line_of};
ghost use Rattle.sd_replace.specs.declared.replacer.Counted.TheVariants.{InEachLine};

use crate::Counted;
use memchr::memchr;

/// A limit, and how much of it is used.
#[derive(Drop)]
pub(crate) struct Quota<'a> {
    content: &'a [u8],
    counted: Counted,
    /// How many matches are replaced at most. 0 is no limit.
    limit: u64,
    /// How many matches are counted together with one at `place`, up to the limit.
    used: u64,
    /// Where the match before begins.
    place: usize,
}

impl<'a> Quota<'a> {
    /// A limit of which nothing is used.
    pub(crate) fn new(content: &'a [u8], counted: Counted, limit: u64) -> Quota<'a>
        ensures content { result.content.now ≡ content.now }
        ensures counted { result.counted ≡ counted }
        ensures limit { result.limit ≡ limit }
        ensures start { result.place ≡ 0 }
        ensures none { Knows result [] }
    {
        Quota {
            content,
            counted,
            limit,
            used: 0,
            place: 0,
        }
    }

    /// Counts a match that begins at a place, and tells whether it is within the limit. Matches come from left to right.
    pub(crate) fn admits(&mut self, place: usize) -> bool
        requires order { self.old.place ≤ place }
        requires within { place ≤ length self.old.content.now }
        ensures admitted { (spans : List Span) (span : Span) → span.start ≡ place → Knows self.old spans
            → result ≡ is_within self.old.counted self.old.limit self.old.content.now spans span }
        ensures known { (spans : List Span) (span : Span) → span.start ≡ place → Knows self.old spans → Knows self.new (spans ++ span ∷ []) }
        ensures place { self.new.place ≤ place }
        ensures content { self.new.content.now ≡ self.old.content.now }
        ensures counted { self.new.counted ≡ self.old.counted }
        ensures limit { self.new.limit ≡ self.old.limit }
    {
        if self.limit == 0 {
            return true;
        }
        self.used = self.used_at(place);
        self.place = place;
        if self.used >= self.limit {
            return false;
        }
        self.used += 1;
        true
    }

    /// How many matches are counted together with one at a place, up to the limit.
    fn used_at(&self, place: usize) -> u64
        requires order { self.now.place ≤ place }
        requires within { place ≤ length self.now.content.now }
        ensures { (spans : List Span) → HasCounted self.now spans
            → result ≡ min self.now.limit (together_with self.now.counted self.now.content.now place spans) }
    {
        match self.counted {
            Counted::OverAll => self.used,
            Counted::InEachLine if self.has_line_feed_before(place) => 0,
            Counted::InEachLine => self.used,
        }
    }

    /// Whether a line ends between the match before and a place.
    fn has_line_feed_before(&self, place: usize) -> bool
        requires order { self.now.place ≤ place }
        requires within { place ≤ length self.now.content.now }
        ensures same { result ≡ false → line_of self.now.content.now place ≡ line_of self.now.content.now self.now.place }
        ensures later { IsTrue result → line_of self.now.content.now self.now.place < line_of self.now.content.now place }
    {
        memchr(b'\n', &self.content[self.place..place]).is_some()
    }

    /// Whether no later match is within the limit.
    pub(crate) fn is_spent(&self) -> bool
        ensures { IsTrue result → (before spans : List Span) → Knows self.now before
            → within_after self.now.counted self.now.limit self.now.content.now before spans ≡ [] }
    {
        match self.counted {
            Counted::OverAll => self.limit > 0 && self.used == self.limit,
            Counted::InEachLine => false,
        }
    }
}
