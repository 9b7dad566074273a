//! Lists of ranges that copies share.

ghost use Rattle.std.specs.Prelude.{◌≡◌, ◌↔◌, ◌⊎◌, ◌<◌, ◌≤◌, [], ℕ, All, IfOk, OnOk, OnErr, length, slice_index_or};
ghost use Rattle.hir_tree.specs.Ranges.{AreApart, Holds, IsWithin, next_byte};

use crate::range_list::RangeList;
use crate::ranges::unite;
use sd_base::NoMemory;
use std::alloc::Global;
use std::marker::Model;

/// Who has a list of ranges.
#[derive(Drop)]
enum Held {
    /// There is no range.
    Empty,
    /// The one that has it.
    Own(Box<Vec<(u32, u32)>>),
    /// The one that has it, with its copies.
    Shared(RangeList),
}

/// A list of ranges of numbers. Copies share one, so a pattern's program takes no more room for a set that stands at many of its spots.
#[derive(Drop)]
pub(crate) struct SharedRanges {
    /// Where the list is made.
    alloc: Global,
    held: Held,
}

impl Model for SharedRanges {
    ghost use Rattle.std.specs.Prelude.{List, ℕ};
    ghost use Rattle.hir_tree.specs.Shared.{ranges_in};

    ghost Value = { List (ℕ × ℕ) };

    ghost view = { λ r. ranges_in r.held };
}

impl SharedRanges {
    /// No range.
    pub(crate) fn new(alloc: Global) -> SharedRanges
        ensures { result ≡ [] }
    {
        SharedRanges {
            alloc,
            held: Held::Empty,
        }
    }

    /// The ranges.
    pub(crate) fn as_slice(&self) -> &[(u32, u32)]
        ensures value { result.now ≡ self.now }
    {
        match &self.held {
            Held::Empty => &[],
            Held::Own(ranges) => ranges.as_slice(),
            Held::Shared(ranges) => ranges.as_slice(),
        }
    }

    /// The range at a place, counted from 0.
    pub(crate) fn get(&self, i: usize) -> (u32, u32)
        requires { i < length self.now }
        ensures { result ≡ slice_index_or self.now i result }
    {
        self.as_slice()[i]
    }

    /// A copy, which shares the list with copies of it. Refuses for want of memory alone.
    pub(crate) fn try_clone(&self, alloc: Global) -> Result<SharedRanges, NoMemory>
        ensures { IfOk result (λ copy. copy ≡ self.now) }
    {
        let held = match &self.held {
            Held::Empty => Held::Empty,
            Held::Own(ranges) => {
                let copy = Vec::from_slice(alloc, ranges.as_slice())?;
                Held::Shared(RangeList::of_list(alloc, copy)?)
            }
            Held::Shared(ranges) => Held::Shared(ranges.try_clone()?),
        };
        Ok(SharedRanges { alloc, held })
    }

    /// The list in one pointer, which is shared where the list is. Refuses for want of memory alone.
    pub(crate) fn in_one(&self, alloc: Global) -> Result<RangeList, NoMemory>
        ensures { IfOk result (λ list. list ≡ self.now) }
    {
        match &self.held {
            Held::Shared(ranges) => ranges.try_clone(),
            _ => RangeList::of_slice(alloc, self.as_slice()),
        }
    }

    /// Unites a range with the list, in a copy of its own. Refuses for want of memory alone, and then changes nothing.
    pub(crate) fn unite(&mut self, start: u32, end: u32) -> Result<(), NoMemory>
        requires order { start ≤ end }
        requires sorted { AreApart next_byte self.old }
        ensures apart { AreApart next_byte self.new }
        ensures below { (limit : ℕ) → end < limit → All (λ range. range.1 < limit) self.old → All (λ range. range.1 < limit) self.new }
        ensures united { OnOk result ((n : ℕ) → Holds self.new n ↔ (Holds self.old n ⊎ IsWithin (start, end) n)) }
        ensures refused { OnErr result (self.new ≡ self.old) }
    {
        self.make_own()?;
        match &mut self.held {
            Held::Own(ranges) => unite(ranges, start, end),
            _ => Err(NoMemory),
        }
    }

    /// Makes the list one that no copy shares. Refuses for want of memory alone. The ranges stay as they are.
    fn make_own(&mut self) -> Result<(), NoMemory>
        ensures { self.new ≡ self.old }
    {
        if let Held::Own(_) = &self.held {
            return Ok(());
        }
        let copy = Vec::from_slice(self.alloc, self.as_slice())?;
        self.held = Held::Own(Box::new(self.alloc, copy)?);
        Ok(())
    }
}
