//! Sets of bytes as ranges.

ghost use Rattle.std.specs.Prelude.{◌≡◌, ◌↔◌, ◌⊎◌, ◌<◌, ◌≤◌, [], ℕ, length, slice_get, IfOk, OnOk, OnErr, Some};
ghost use Rattle.hir_tree.specs.Ranges.{AreByteRanges, Holds, IsWithin};
ghost use Rattle.hir_tree.specs.Runs.{in_set};

use crate::ranges::holds_number;
use crate::shared::SharedRanges;
use crate::shared_bytes::SharedBytes;
use sd_base::NoMemory;
use std::alloc::Global;
use std::marker::Model;

/// A set of bytes: sorted ranges that neither meet nor touch. A range is given by its first and its last byte.
#[derive(Drop)]
pub struct ByteRanges {
    ranges: SharedRanges,
}

impl Model for ByteRanges {
    ghost use Rattle.std.specs.Prelude.{List, ℕ};
    ghost use Rattle.hir_tree.specs.Ranges.{AreByteRanges};

    ghost Value = { List (ℕ × ℕ) };

    ghost view = { λ b. b.ranges };

    ghost invariant = { λ b. AreByteRanges b.ranges };
}

impl ByteRanges {
    /// No bytes.
    pub fn new(alloc: Global) -> ByteRanges
        ensures { result ≡ [] }
    {
        ByteRanges {
            ranges: SharedRanges::new(alloc),
        }
    }

    /// A copy of the set, which shares its ranges with copies of it. Refuses for want of memory alone.
    pub fn try_clone(&self, alloc: Global) -> Result<ByteRanges, NoMemory>
        ensures { IfOk result (λ copy. copy ≡ self.now) }
    {
        let ranges = self.ranges.try_clone(alloc)?;
        Ok(ByteRanges { ranges })
    }

    /// The set in one pointer, which shares its ranges with copies of the set. Refuses for want of memory alone.
    pub fn shared(&self, alloc: Global) -> Result<SharedBytes, NoMemory>
        ensures { IfOk result (λ shared. shared ≡ self.now) }
    {
        let ranges = self.ranges.in_one(alloc)?;
        Ok(SharedBytes { ranges })
    }

    /// Unites a range with the set. Refuses for want of memory alone, and then changes nothing.
    pub fn add(&mut self, start: u8, end: u8) -> Result<(), NoMemory>
        requires { start ≤ end }
        ensures apart { AreByteRanges self.new }
        ensures united { OnOk result ((b : ℕ) → Holds self.new b ↔ (Holds self.old b ⊎ IsWithin (start, end) b)) }
        ensures refused { OnErr result (self.new ≡ self.old) }
    {
        self.ranges.unite(u32::from(start), u32::from(end))
    }

    /// How many ranges there are.
    pub fn len(&self) -> usize
        ensures len { result ≡ length self.now }
        ensures apart { AreByteRanges self.now }
    {
        self.ranges.as_slice().len()
    }

    /// The first and the last byte of the range at a place, counted from 0.
    pub fn get(&self, i: usize) -> (u8, u8)
        requires { i < length self.now }
        ensures { slice_get self.now i ≡ Some result }
    {
        let (start, end) = self.ranges.get(i);
        (start as u8, end as u8)
    }

    /// Whether a byte is in the set. No range past the byte is read.
    pub fn contains(&self, byte: u8) -> bool
        ensures { result ≡ in_set self.now byte }
    {
        holds_number(self.ranges.as_slice(), u32::from(byte))
    }
}
