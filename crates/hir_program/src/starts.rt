//! The places where the threads of a search begin.

ghost use Rattle.std.specs.Prelude.{◌≡◌, ◌+◌, ◌≤◌, ℕ, List, length};
ghost use Rattle.hir_program.specs.Masks.{NoRun};
ghost use Rattle.hir_program.specs.Scan.{IsFilterOf};
ghost use Rattle.hir_program.specs.declared.spot.Spot.{Spot};

use crate::scan::Scan;

/// Where the next thread of a search may begin.
#[derive(Clone, Copy)]
pub struct Starts {
    /// The next place.
    pub place: usize,
    /// How far the filter looked, so that it goes over no part of the text again and again.
    looked: usize,
}

impl Starts {
    /// The places from one on.
    pub fn from(at: usize) -> Starts
        ensures { result.place ≡ at }
    {
        Starts {
            place: at,
            looked: at,
        }
    }

    /// Passes over places at which the filter looked, as long as no run begins by what stands there.
    fn pass_looked(&mut self, filter: &Scan, text: &[u8])
        ensures none { (spots : List Spot) → IsFilterOf spots filter.now → NoRun text.now spots self.old.place self.new.place }
        ensures after { self.old.place ≤ self.new.place }
        ensures within { self.old.place ≤ length text.now + 1 → self.new.place ≤ length text.now + 1 }
    {
        let end = self.looked.min(text.len());
        while self.place < end && !filter.may_start(text, self.place) {
            self.place += 1;
        }
    }

    /// Passes over places that have no match, as a filter tells.
    #[inline(always)]
    pub fn pass_over(&mut self, filter: &Scan, text: &[u8])
        requires { self.old.place ≤ length text.now + 1 }
        ensures none { (spots : List Spot) → IsFilterOf spots filter.now → NoRun text.now spots self.old.place self.new.place }
        ensures after { self.old.place ≤ self.new.place }
        ensures within { self.new.place ≤ length text.now + 1 }
    {
        self.pass_looked(filter, text);
        if self.place < self.looked || self.place > text.len() {
            return;
        }
        match filter.next(text, self.place) {
            None => self.place = text.len() + 1,
            Some(candidate) => {
                self.place = candidate.from;
                self.looked = candidate.until;
            }
        }
    }
}
