//! Sets of characters in one pointer.

ghost use Rattle.std.specs.Prelude.{◌≡◌, ◌<◌, length, slice_get, Some};
ghost use Rattle.hir_tree.specs.Ranges.{AreCharRanges};
ghost use Rattle.hir_tree.specs.Runs.{in_set};

use crate::char_ranges::{char_at, number_of};
use crate::range_list::RangeList;
use crate::ranges::holds_number;
use std::marker::Model;

/// A set of characters that stays as it is, in one pointer to ranges that its copies share: a program may hold it many times.
#[derive(Drop)]
pub struct SharedChars {
    // Of the numbers of the characters in their order.
    pub(crate) ranges: RangeList,
}

impl Model for SharedChars {
    ghost use Rattle.std.specs.Prelude.{◌<◌, All, List, ℕ, map};
    ghost use Rattle.hir_tree.specs.Ranges.{AreApart, chars_between, next_byte};

    ghost Value = { List (ℕ × ℕ) };

    ghost view = { λ c. map chars_between c.ranges };

    ghost invariant = { λ c. AreApart next_byte c.ranges × All (λ range. range.1 < 0x10F800) c.ranges };
}

impl SharedChars {
    /// How many ranges there are.
    pub fn len(&self) -> usize
        ensures len { result ≡ length self.now }
        ensures apart { AreCharRanges self.now }
    {
        self.ranges.as_slice().len()
    }

    /// The first and the last character of the range at a place, counted from 0.
    pub fn get(&self, i: usize) -> (char, char)
        requires { i < length self.now }
        ensures { slice_get self.now i ≡ Some result }
    {
        let (start, end) = self.ranges.get(i);
        (char_at(start), char_at(end))
    }

    /// Whether a character is in the set. No range past the character is read.
    pub fn contains(&self, character: char) -> bool
        ensures { result ≡ in_set self.now character }
    {
        holds_number(self.ranges.as_slice(), number_of(character))
    }
}
