//! Which spots were visited at a place, or at each place of a block.

ghost use Rattle.std.specs.Prelude.{◌≡◌, ◌<◌, [], false, true, length, replicate, slice_set, IfOk};
ghost use Rattle.hir_core.specs.Pass.{was_visited};

use sd_base::NoMemory;
use std::alloc::Global;
use std::marker::Model;

/// For each spot, whether it was visited at this place, or for each spot and place whether it was in this block. Contracts see a list
/// of truths.
///
/// Each has a stamp, and is visited where its stamp is that of the place or the block. So going to the next costs one step, but for each
/// 255th, where all stamps are taken off.
#[derive(Drop)]
pub struct Visited {
    /// The stamp of each spot.
    stamps: Vec<u8>,
    /// The stamp of the place. No stamp of a spot is greater.
    stamp: u8,
}

impl Model for Visited {
    ghost use Rattle.std.specs.Prelude.{List, Bool};
    ghost use Rattle.hir_core.specs.Stamps.{visited_at, AllUpTo};

    ghost Value = { List Bool };

    ghost view = { λ v. visited_at v.stamp v.stamps.items };

    ghost invariant = { λ v. AllUpTo v.stamp v.stamps.items };
}

impl Visited {
    /// No spots.
    pub fn new(alloc: Global) -> Visited
        ensures { result ≡ [] }
    {
        Visited {
            stamps: Vec::new(alloc),
            stamp: 0,
        }
    }

    /// Goes to another place, where none of so many spots was visited. Refuses for want of memory alone.
    pub fn next_place(&mut self, spots: usize) -> Result<(), NoMemory>
        ensures { IfOk result (λ _. self.new ≡ replicate spots false) }
    {
        if self.stamps.len() == spots && self.stamp < u8::MAX {
            self.stamp += 1;
            return Ok(());
        }
        self.stamps.clear();
        self.stamps.resize(spots, 0)?;
        self.stamp = 1;
        Ok(())
    }

    /// Whether a spot was visited.
    pub fn has(&self, spot: usize) -> bool
        ensures { result ≡ was_visited self.now spot }
    {
        match self.stamps.get(spot) {
            Some(stamp) => *stamp == self.stamp,
            None => false,
        }
    }

    /// Notes a visit of a spot, if it is the first one, and says whether it is.
    pub fn visit(&mut self, spot: usize) -> bool
        requires { spot < length self.old }
        ensures first { result ≡ true → (was_visited self.old spot ≡ false) × (self.new ≡ slice_set self.old spot true) }
        ensures other { result ≡ false → (was_visited self.old spot ≡ true) × (self.new ≡ self.old) }
    {
        if self.stamps[spot] == self.stamp {
            return false;
        }
        self.stamps[spot] = self.stamp;
        true
    }

    /// Notes a visit of a spot.
    pub fn add(&mut self, spot: usize)
        requires { spot < length self.old }
        ensures { self.new ≡ slice_set self.old spot true }
    {
        self.stamps[spot] = self.stamp;
    }
}
