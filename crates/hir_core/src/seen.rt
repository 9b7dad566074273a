//! Sets of spots.

ghost use Rattle.std.specs.Prelude.{◌≡◌, ℕ, ◌+◌, ◌<◌, ◌^◌, false, ◌||◌, ◌==◌, IfOk};
ghost use Rattle.hir_core.specs.StackSearch.{has};

use sd_base::NoMemory;
use std::alloc::Global;

/// A set of spots, as a bit for each up to the greatest member.
#[derive(Drop)]
pub struct Seen {
    bits: Vec<bool>,
}

impl Seen {
    /// The empty set.
    pub fn new(alloc: Global) -> Seen
        ensures { (m : ℕ) → has result m ≡ false }
    {
        Seen {
            bits: Vec::new(alloc),
        }
    }

    /// The same set. Refuses for want of memory alone.
    pub fn copy(&self, alloc: Global) -> Result<Seen, NoMemory>
        ensures { IfOk result (λ copy. copy.bits.items ≡ self.now.bits.items) }
    {
        Ok(Seen {
            bits: Vec::from_slice(alloc, self.bits.as_slice())?,
        })
    }

    /// Whether a spot is a member.
    pub fn has(&self, spot: usize) -> bool
        ensures { result ≡ has self.now spot }
    {
        match self.bits.get(spot) {
            Some(bit) => *bit,
            None => false,
        }
    }

    /// Adds a spot. Refuses for want of memory alone.
    pub fn add(&mut self, spot: usize) -> Result<(), NoMemory>
        requires { spot + 1 < 2 ^ 64 }
        ensures { IfOk result (λ _. (m : ℕ) → has self.new m ≡ ((spot == m) || has self.old m)) }
    {
        if self.bits.len() <= spot {
            self.bits.resize(spot + 1, false)?;
        }
        self.bits[spot] = true;
        Ok(())
    }

    /// Takes out all members.
    pub fn clear(&mut self)
        ensures { (m : ℕ) → has self.new m ≡ false }
    {
        self.bits.clear();
    }
}
