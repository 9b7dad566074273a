//! Spans of a haystack.

ghost use Rattle.std.specs.Prelude.{◌≡◌, ◌+◌, ◌<◌, ◌≤◌, ◌^◌, ◌↔◌, IsTrue, length, slice_range};
ghost use Rattle.std.specs.Borrow.{sem, Lends, Array, u8};
ghost use Rattle.std.specs.List.{splice};
ghost use Rattle.std.specs.Str.{IsCharBoundary};
ghost use Rattle.grep_matcher.specs.Span.{Span};

use std::marker::Model;

/// A span of a haystack: the bytes from `start` up to, and without, `end`. The start is never past the end.
///
/// `one` in `one two one` stands at the spans 0 to 3 and 8 to 11.
#[derive(Clone, Copy, Debug, Drop, Eq, Hash, PartialEq)]
pub struct Match {
    start: usize,
    end: usize,
}

impl Model for Match {
    ghost Value = { Span };

    ghost view = { λ m. record { start = m.start; end = m.end } };

    ghost inverse = { λ s. record { start = s.start; end = s.end } };

    ghost invariant = { λ m. m.start ≤ m.end };
}

impl Match {
    /// The span from `start` to `end`, byte offsets. `start` is at most `end`.
    pub fn new(start: usize, end: usize) -> Match
        requires { start ≤ end }
        ensures starts { result.start ≡ start }
        ensures ends { result.end ≡ end }
    {
        Match { start, end }
    }

    /// The empty span at a byte offset.
    pub fn zero(offset: usize) -> Match
        ensures starts { result.start ≡ offset }
        ensures ends { result.end ≡ offset }
    {
        Match {
            start: offset,
            end: offset,
        }
    }

    /// The byte offset of the first byte.
    pub fn start(&self) -> usize
        ensures { result ≡ self.now.start }
    {
        self.start
    }

    /// The byte offset just past the last byte.
    pub fn end(&self) -> usize
        ensures { result ≡ self.now.end }
    {
        self.end
    }

    /// Whether the span holds no byte.
    pub fn is_empty(&self) -> bool
        ensures { IsTrue result ↔ (self.now.start ≡ self.now.end) }
    {
        self.start == self.end
    }

    /// The same span with another start, which is at most its end. 2 to 7 with the start 4 is 4 to 7.
    pub fn with_start(&self, start: usize) -> Match
        requires { start ≤ self.now.end }
        ensures starts { result.start ≡ start }
        ensures ends { result.end ≡ self.now.end }
    {
        Match {
            start,
            end: self.end,
        }
    }

    /// The same span with another end, which is at least its start. 2 to 7 with the end 4 is 2 to 4.
    pub fn with_end(&self, end: usize) -> Match
        requires { self.now.start ≤ end }
        ensures starts { result.start ≡ self.now.start }
        ensures ends { result.end ≡ end }
    {
        Match {
            start: self.start,
            end,
        }
    }

    /// The span moved to the right by `amount` bytes. The new end has to fit a `usize`. 2 to 7 moved by 10 is 12 to 17.
    ///
    /// It turns a span of a slice into one of the whole, where the slice begins at `amount`.
    pub fn offset(&self, amount: usize) -> Match
        requires { self.now.end + amount < 2 ^ 64 }
        ensures starts { result.start ≡ self.now.start + amount }
        ensures ends { result.end ≡ self.now.end + amount }
    {
        Match {
            start: self.start + amount,
            end: self.end + amount,
        }
    }

    /// How many bytes the span holds. 2 to 7 holds 5.
    pub fn len(&self) -> usize
        ensures { self.now.start + result ≡ self.now.end }
    {
        self.end - self.start
    }

    /// The bytes of the span. Its end lies within the haystack. 4 to 7 of `one two one` is `two`.
    pub fn slice_of<'h>(&self, haystack: &'h [u8]) -> &'h [u8]
        requires { self.now.end ≤ length haystack.now }
        ensures { result.now ≡ slice_range haystack.now self.now.start self.now.end }
    {
        &haystack[self.start..self.end]
    }

    /// The bytes of the span, to write to. Its end lies within the haystack, whose other bytes stay. With `xxx` written to 4 to
    /// 7 of `one two one` it is `one xxx one`.
    pub fn slice_of_mut<'h>(&self, haystack: &'h mut [u8]) -> &'h mut [u8]
        requires { self.now.end ≤ length haystack.old }
        ensures* writes_back { sem 𝓛 (Lends (Array u8 0) (Array u8 0) haystack.entry result (splice haystack.old self.now.start self.now.end)) }
        ensures lent { result.now ≡ slice_range haystack.old self.now.start self.now.end }
    {
        &mut haystack[self.start..self.end]
    }

    /// The text of the span. Its end lies within the text, and both ends on character boundaries. 4 to 7 of `one two one` is
    /// `two`.
    pub fn str_of<'h>(&self, text: &'h str) -> &'h str
        requires within { self.now.end ≤ length text.now }
        requires starts_on_boundary { IsCharBoundary text.now self.now.start }
        requires ends_on_boundary { IsCharBoundary text.now self.now.end }
        ensures { result.now ≡ slice_range text.now self.now.start self.now.end }
    {
        &text[self.start..self.end]
    }
}
