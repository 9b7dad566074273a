//! Sets of bytes in one pointer.

ghost use Rattle.std.specs.Prelude.{◌≡◌, ◌<◌, [], ◌∷◌, length, slice_get, IfOk, Some};
ghost use Rattle.hir_tree.specs.Ranges.{AreByteRanges};
ghost use Rattle.hir_tree.specs.Runs.{in_set};

use crate::range_list::RangeList;
use crate::ranges::holds_number;
use sd_base::NoMemory;
use std::alloc::Global;
use std::marker::Model;

/// A set of bytes that stays as it is, in one pointer to ranges that its copies share: a program may hold it many times.
#[derive(Drop)]
pub struct SharedBytes {
    pub(crate) ranges: RangeList,
}

impl Model for SharedBytes {
    ghost use Rattle.std.specs.Prelude.{List, ℕ};
    ghost use Rattle.hir_tree.specs.Ranges.{AreByteRanges};

    ghost Value = { List (ℕ × ℕ) };

    ghost view = { λ b. b.ranges };

    ghost invariant = { λ b. AreByteRanges b.ranges };
}

impl SharedBytes {
    /// One byte alone. Refuses for want of memory alone.
    pub fn of_byte(alloc: Global, byte: u8) -> Result<SharedBytes, NoMemory>
        ensures { IfOk result (λ set. set ≡ (byte, byte) ∷ []) }
    {
        let ranges = RangeList::of_slice(alloc, &[(u32::from(byte), u32::from(byte))])?;
        Ok(SharedBytes { ranges })
    }

    /// How many ranges there are.
    pub fn len(&self) -> usize
        ensures len { result ≡ length self.now }
        ensures apart { AreByteRanges self.now }
    {
        self.ranges.as_slice().len()
    }

    /// The first and the last byte of the range at a place, counted from 0.
    pub fn get(&self, i: usize) -> (u8, u8)
        requires { i < length self.now }
        ensures { slice_get self.now i ≡ Some result }
    {
        let (start, end) = self.ranges.get(i);
        (start as u8, end as u8)
    }

    /// Whether a byte is in the set. No range past the byte is read.
    pub fn contains(&self, byte: u8) -> bool
        ensures { result ≡ in_set self.now byte }
    {
        holds_number(self.ranges.as_slice(), u32::from(byte))
    }
}
