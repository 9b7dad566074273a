//! Lists of ranges in one pointer.

ghost use Rattle.std.specs.Prelude.{◌≡◌, ◌<◌, IfOk, length, slice_index_or};

use sd_base::NoMemory;
use std::alloc::Global;
use std::marker::Model;
use std::sync::Arc;

/// A list of ranges of numbers in one pointer, which all its copies share.
#[derive(Drop)]
pub(crate) struct RangeList {
    ranges: Arc<Vec<(u32, u32)>>,
}

impl Model for RangeList {
    ghost use Rattle.std.specs.Prelude.{List, ℕ};
    ghost use Rattle.std.specs.Arc.{arc_value};

    ghost Value = { List (ℕ × ℕ) };

    ghost view = { λ r. (arc_value r.ranges).items };
}

impl RangeList {
    /// These ranges. Refuses for want of memory alone.
    pub(crate) fn of_slice(alloc: Global, ranges: &[(u32, u32)]) -> Result<RangeList, NoMemory>
        ensures { IfOk result (λ list. list ≡ ranges.now) }
    {
        let copy = Vec::from_slice(alloc, ranges)?;
        RangeList::of_list(alloc, copy)
    }

    /// These ranges. Refuses for want of memory alone.
    pub(crate) fn of_list(alloc: Global, ranges: Vec<(u32, u32)>) -> Result<RangeList, NoMemory>
        ensures { IfOk result (λ list. list ≡ ranges.items) }
    {
        let ranges = Arc::new(alloc, ranges)?;
        Ok(RangeList { ranges })
    }

    /// A copy, which shares the list. Refuses for want of memory alone.
    pub(crate) fn try_clone(&self) -> Result<RangeList, NoMemory>
        ensures { IfOk result (λ copy. copy ≡ self.now) }
    {
        let ranges = Arc::try_clone(&self.ranges)?;
        Ok(RangeList { ranges })
    }

    /// The ranges.
    pub(crate) fn as_slice(&self) -> &[(u32, u32)]
        ensures value { result.now ≡ self.now }
    {
        self.ranges.as_slice()
    }

    /// The range at a place, counted from 0.
    pub(crate) fn get(&self, i: usize) -> (u32, u32)
        requires { i < length self.now }
        ensures { result ≡ slice_index_or self.now i result }
    {
        self.as_slice()[i]
    }
}
