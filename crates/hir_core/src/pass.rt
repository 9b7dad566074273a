//! Pike's virtual machine: one pass over a text, which keeps one run for each spot and byte.

ghost use Rattle.std.specs.Prelude.{◌≡◌, ◌+◌, ◌-◌, ◌*◌, ◌≤◌, ℕ, List, [], None, is_some, length, IfOk, IfSome, IsTrue, ◌++◌};
ghost use Rattle.std.specs.Option.{option_or};
ghost use Rattle.hir_program.specs.Program.{ClosesFall};
ghost use Rattle.hir_program.specs.Scan.{IsFilterOf};
ghost use Rattle.sd_base.specs.Steps.{TicksAtMost};
ghost use Rattle.hir_program.specs.declared.spot.Spot.{Spot};
ghost use Rattle.hir_core.specs.Pass.{stops_give, match_of, first_of, begins_unless, answer, first_from, best_in, AllLater, AllFrom, counted};

use crate::closure::Closure;
use crate::thread_list::ThreadList;
use crate::trail::Trail;
use hir_program::{Scan, Spot};
use sd_base::{Ledger, NoMemory, Steps};
use std::alloc::Global;
use std::mem;

/// The best match so far, in a list that is used again.
#[derive(Drop)]
pub struct Best {
    /// The place of the text where it ends, if there is one.
    end: Option<usize>,
    /// What its groups hold.
    groups: Vec<Option<(usize, usize)>>,
}

impl Best {
    /// No match.
    pub fn new(alloc: Global) -> Best
        ensures { best_in result ≡ None }
    {
        let groups = Vec::new(alloc);
        Best { end: None, groups }
    }

    /// Drops the match, if there is one.
    pub fn clear(&mut self)
        ensures { best_in self.new ≡ None }
    {
        self.end = None;
    }

    /// Takes the match of a trail in the place of what it has, if there is one; the trail then has other groups.
    pub fn update(&mut self, found: bool, trail: &mut Trail)
        ensures { best_in self.new ≡ option_or (match_of found trail.old) (best_in self.old) }
    {
        if found {
            self.end = Some(trail.at);
            mem::swap(&mut self.groups, &mut trail.groups);
        }
    }

    /// Whether there is a match.
    pub fn is_some(&self) -> bool
        ensures { result ≡ is_some (best_in self.now) }
    {
        self.end.is_some()
    }

    /// What the groups of the match hold.
    pub fn groups(&self) -> &[Option<(usize, usize)>]
        ensures { result.now ≡ self.now.groups.items }
    {
        &self.groups
    }
}

/// A search that is under way, and its lists, which it uses again at each place.
#[derive(Drop)]
pub struct Pass {
    /// The threads that are to be followed, in order.
    threads: ThreadList,
    /// The best match so far.
    best: Best,
    /// The search of a place.
    closure: Closure,
}

impl Pass {
    /// A pass with empty lists.
    pub fn new(alloc: Global) -> Pass
        ensures threads { result.threads ≡ [] }
        ensures best { best_in result.best ≡ None }
    {
        Pass {
            threads: ThreadList::new(alloc),
            best: Best::new(alloc),
            closure: Closure::new(alloc),
        }
    }

    /// Follows the threads at a place, and then one that begins there, as long as nothing was found. Says whether there is a
    /// match: the trail then holds it. Refuses for want of memory alone.
    fn follow_place<L: Ledger>(
        &mut self,
        spots: &[Spot],
        text: &[u8],
        at: usize,
        groups: u32,
        steps: &mut Steps<L>,
    ) -> Result<bool, NoMemory>
        requires falls { ClosesFall spots.now }
        requires at { at ≤ length text.now }
        requires from { AllFrom text.now at self.old.threads }
        ensures finds { IfOk result (λ found. option_or (first_of (stops_give text.now spots.now self.new.closure.later)) (match_of found self.new.closure.trail)
            ≡ first_of (stops_give text.now spots.now self.old.threads ++ begins_unless text.now spots.now groups at (best_in self.old.best))) }
        ensures later { IfOk result (λ _. AllLater text.now at self.new.closure.later) }
        ensures best { self.new.best ≡ self.old.best }
        ensures ticks { TicksAtMost L.noted (counted spots.now) steps.old steps.new }
    {
        self.closure.visited.next_place(spots.len())?;
        self.closure.later.clear();
        let found = self
            .closure
            .follow_all(spots, text, at, &self.threads, steps)?;
        if found || self.best.is_some() {
            return Ok(found);
        }
        self.closure.trail.begin(at, groups)?;
        self.closure.follow(spots, text, 0, steps)
    }

    /// Goes on from a place to the next. Refuses for want of memory alone.
    fn round<L: Ledger>(
        &mut self,
        spots: &[Spot],
        text: &[u8],
        at: usize,
        groups: u32,
        steps: &mut Steps<L>,
    ) -> Result<(), NoMemory>
        requires falls { ClosesFall spots.now }
        requires at { at ≤ length text.now }
        requires from { AllFrom text.now at self.old.threads }
        ensures from { IfOk result (λ _. AllFrom text.now (at + 1) self.new.threads) }
        ensures answer { IfOk result (λ _.
            answer text.now spots.now groups (at + 1) (stops_give text.now spots.now self.new.threads) (best_in self.new.best)
            ≡ answer text.now spots.now groups at (stops_give text.now spots.now self.old.threads) (best_in self.old.best)) }
        ensures ticks { TicksAtMost L.noted (counted spots.now) steps.old steps.new }
    {
        let found = self.follow_place(spots, text, at, groups, steps)?;
        self.best.update(found, &mut self.closure.trail);
        mem::swap(&mut self.threads, &mut self.closure.later);
        Ok(())
    }

    /// Whether no thread is followed, and there is no match.
    fn is_idle(&self) -> bool
        ensures { IsTrue result → (self.now.threads ≡ []) × (best_in self.now.best ≡ None) }
    {
        self.threads.is_empty() && !self.best.is_some()
    }

    /// The place from which the search goes on that has come to a place: the filter may pass over some that have no match.
    /// `looked` is how far the filter has looked, so that it goes over no part of the text again and again.
    fn next_place(
        &self,
        filter: Option<&Scan>,
        text: &[u8],
        place: usize,
        looked: &mut usize,
    ) -> usize
        requires from { AllFrom text.now place self.now.threads }
        requires within { place ≤ length text.now + 1 }
        ensures from { AllFrom text.now result self.now.threads }
        ensures after { place ≤ result }
        ensures within { result ≤ length text.now + 1 }
        ensures answer { (spots : List Spot) (groups : ℕ) → IfSome filter.entry (λ f. IsFilterOf spots f.now)
            → answer text.now spots groups result (stops_give text.now spots self.now.threads) (best_in self.now.best)
            ≡ answer text.now spots groups place (stops_give text.now spots self.now.threads) (best_in self.now.best) }
    {
        let Some(filter) = filter else {
            return place;
        };
        if place < *looked || place > text.len() || !self.is_idle() {
            return place;
        }
        match filter.next(text, place) {
            None => text.len() + 1,
            Some(candidate) => {
                *looked = candidate.until;
                candidate.from
            }
        }
    }

    /// Looks for the first run of the least place, from one on, at which a program gives a run, and says whether there is one:
    /// it is then the best match. A filter of the program makes the search quicker. Refuses for want of memory alone.
    pub fn search<L: Ledger>(
        &mut self,
        spots: &[Spot],
        filter: Option<&Scan>,
        text: &[u8],
        at: usize,
        groups: u32,
        steps: &mut Steps<L>,
    ) -> Result<bool, NoMemory>
        requires falls { ClosesFall spots.now }
        requires filters { IfSome filter (λ f. IsFilterOf spots.now f.now) }
        requires at { at ≤ length text.now }
        ensures found { IfOk result (λ found. found ≡ is_some (best_in self.new.best)) }
        ensures first { IfOk result (λ _. best_in self.new.best ≡ first_from text.now spots.now groups (length text.now + 1 - at) at) }
        ensures ticks { TicksAtMost L.noted ((length text.now + 1 - at) * counted spots.now) steps.old steps.new }
    {
        self.threads.clear();
        self.best.clear();
        let mut looked = at;
        let mut place = self.next_place(filter, text, at, &mut looked);
        while place <= text.len() {
            self.round(spots, text, place, groups, steps)?;
            if self.threads.is_empty() && self.best.is_some() {
                return Ok(true);
            }
            place = self.next_place(filter, text, place + 1, &mut looked);
        }
        Ok(self.best.is_some())
    }

    /// What the groups of the best match hold.
    pub fn groups(&self) -> &[Option<(usize, usize)>]
        ensures { result.now ≡ self.now.best.groups.items }
    {
        self.best.groups()
    }
}
