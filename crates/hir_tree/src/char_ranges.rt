//! Sets of characters as ranges.

ghost use Rattle.std.specs.Prelude.{◌≡◌, ◌↔◌, ◌⊎◌, ◌<◌, ◌≤◌, [], ℕ, length, slice_get, IfOk, OnOk, OnErr, Some};
ghost use Rattle.std.specs.Char.{IsScalar};
ghost use Rattle.hir_tree.specs.Ranges.{AreCharRanges, Holds, IsWithin, nth_char};
ghost use Rattle.hir_tree.specs.Runs.{in_set};

use crate::ranges::holds_number;
use crate::shared::SharedRanges;
use crate::shared_chars::SharedChars;
use sd_base::NoMemory;
use std::alloc::Global;
use std::marker::Model;

/// The first of the codes from U+D800 to U+DFFF, which are no characters.
const GAP_START: u32 = 0xD800;

/// How many those codes are.
const GAP_LEN: u32 = 0x800;

/// How many characters come before a character, in the order of their codes.
pub(crate) fn number_of(char: char) -> u32
    ensures number { nth_char result ≡ char }
    ensures in_range { result < 0x10F800 }
{
    let code = u32::from(char);
    if code < GAP_START {
        code
    } else {
        code - GAP_LEN
    }
}

/// The character before which so many come.
pub(crate) fn char_at(number: u32) -> char
    requires { number < 0x10F800 }
    ensures { result ≡ nth_char number }
{
    let code = if number < GAP_START {
        number
    } else {
        number + GAP_LEN
    };
    match char::from_u32(code) {
        Some(char) => char,
        None => unreachable!(),
    }
}

/// A set of characters: sorted ranges that neither meet nor touch, where U+D7FF and U+E000 count as neighbours. A range
/// is given by its first and its last character.
#[derive(Drop)]
pub struct CharRanges {
    // Of the numbers of the characters in their order.
    ranges: SharedRanges,
}

impl Model for CharRanges {
    ghost use Rattle.std.specs.Prelude.{◌<◌, All, List, ℕ, map};
    ghost use Rattle.hir_tree.specs.Ranges.{AreApart, chars_between, next_byte};

    ghost Value = { List (ℕ × ℕ) };

    ghost view = { λ c. map chars_between c.ranges };

    ghost invariant = { λ c. AreApart next_byte c.ranges × All (λ range. range.1 < 0x10F800) c.ranges };
}

impl CharRanges {
    /// No characters.
    pub fn new(alloc: Global) -> CharRanges
        ensures { result ≡ [] }
    {
        CharRanges {
            ranges: SharedRanges::new(alloc),
        }
    }

    /// A copy of the set, which shares its ranges with copies of it. Refuses for want of memory alone.
    pub fn try_clone(&self, alloc: Global) -> Result<CharRanges, NoMemory>
        ensures { IfOk result (λ copy. copy ≡ self.now) }
    {
        let ranges = self.ranges.try_clone(alloc)?;
        Ok(CharRanges { ranges })
    }

    /// The set in one pointer, which shares its ranges with copies of the set. Refuses for want of memory alone.
    pub fn shared(&self, alloc: Global) -> Result<SharedChars, NoMemory>
        ensures { IfOk result (λ shared. shared ≡ self.now) }
    {
        let ranges = self.ranges.in_one(alloc)?;
        Ok(SharedChars { ranges })
    }

    /// Unites a range with the set. Refuses for want of memory alone, and then changes nothing.
    pub fn add(&mut self, start: char, end: char) -> Result<(), NoMemory>
        requires { start ≤ end }
        ensures apart { AreCharRanges self.new }
        ensures united { OnOk result ((c : ℕ) → IsScalar c → Holds self.new c ↔ (Holds self.old c ⊎ IsWithin (start, end) c)) }
        ensures refused { OnErr result (self.new ≡ self.old) }
    {
        self.ranges.unite(number_of(start), number_of(end))
    }

    /// How many ranges there are.
    pub fn len(&self) -> usize
        ensures len { result ≡ length self.now }
        ensures apart { AreCharRanges self.now }
    {
        self.ranges.as_slice().len()
    }

    /// The first and the last character of the range at a place, counted from 0.
    pub fn get(&self, i: usize) -> (char, char)
        requires { i < length self.now }
        ensures { slice_get self.now i ≡ Some result }
    {
        let (start, end) = self.ranges.get(i);
        (char_at(start), char_at(end))
    }

    /// Whether a character is in the set. No range past the character is read.
    pub fn contains(&self, character: char) -> bool
        ensures { result ≡ in_set self.now character }
    {
        holds_number(self.ranges.as_slice(), number_of(character))
    }
}
