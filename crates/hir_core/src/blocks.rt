//! The search over a text, block by block: bounded backtracking in each, and the threads that go on past it are kept for the next.

ghost use Rattle.std.specs.Prelude.{◌≡◌, ◌+◌, ◌-◌, ◌*◌, ◌≤◌, ◌<◌, [], None, false, true, is_some, length, IfOk};
ghost use Rattle.std.specs.Option.{option_or};
ghost use Rattle.hir_core.specs.Blocks.{AreSpent};
ghost use Rattle.hir_core.specs.Pass.{answer, begins, best_in, counted, first_from, first_of, match_of, stops_give, AllFrom};
ghost use Rattle.hir_program.specs.Program.{ClosesFall, some_run};
ghost use Rattle.hir_program.specs.Scan.{IsFilterOf};
ghost use Rattle.sd_base.specs.Steps.{TicksAtMost};

use crate::block::{Block, Places};
use crate::first_way::follow_first_way;
use crate::pass::Best;
use crate::thread_list::ThreadList;
use hir_program::{Scan, Spot, Starts};
use sd_base::{Ledger, NoMemory, Steps};
use std::alloc::Global;
use std::mem;

/// How many places a block has at most.
pub const PLACES: usize = 256;

/// A search that is under way, and its lists, which it uses again in each block.
#[derive(Drop)]
pub struct Blocks {
    /// The threads that come into the block, in order.
    threads: ThreadList,
    /// The best match so far.
    best: Best,
    /// The search of a block.
    block: Block,
}

impl Blocks {
    /// A search with empty lists.
    pub fn new(alloc: Global) -> Blocks {
        Blocks {
            threads: ThreadList::new(alloc),
            best: Best::new(alloc),
            block: Block::new(alloc),
        }
    }

    /// Follows the threads that come into a block, and then those that begin in it, as long as nothing was found. Says whether there
    /// is a match: the trail then holds it. Refuses for want of memory alone.
    fn follow_block<L: Ledger>(
        &mut self,
        spots: &[Spot],
        filter: &Scan,
        text: &[u8],
        places: Places,
        starts: &mut Starts,
        groups: u32,
        steps: &mut Steps<L>,
    ) -> Result<bool, NoMemory>
        requires falls { ClosesFall spots.now }
        requires filters { IsFilterOf spots.now filter.now }
        requires few { length spots.now ≤ 256 }
        requires places { places.end ≤ places.begin + 256 }
        requires end { places.end ≤ length text.now + 1 }
        requires from { AllFrom text.now places.begin self.old.threads }
        requires begin { is_some (best_in self.old.best) ≡ false → places.begin ≤ starts.old.place }
        requires within { starts.old.place ≤ length text.now + 1 }
        ensures answer { IfOk result (λ found.
            answer text.now spots.now groups starts.new.place (stops_give text.now spots.now self.new.block.later)
            (option_or (match_of found self.new.block.trail) (best_in self.old.best))
            ≡ answer text.now spots.now groups starts.old.place (stops_give text.now spots.now self.old.threads) (best_in self.old.best)) }
        ensures later { IfOk result (λ _. AllFrom text.now places.end self.new.block.later) }
        ensures within { IfOk result (λ _. starts.new.place ≤ length text.now + 1) }
        ensures past { IfOk result (λ found. found ≡ false → is_some (best_in self.old.best) ≡ false → places.end ≤ starts.new.place) }
        ensures best { self.new.best ≡ self.old.best }
        ensures ticks { TicksAtMost L.noted ((places.end - places.begin) * counted spots.now) steps.old steps.new }
    {
        self.block.enter(spots.len() * PLACES)?;
        let found = self
            .block
            .follow_all(spots, filter, text, places, &self.threads, steps)?;
        if found || self.best.is_some() {
            return Ok(found);
        }
        self.block
            .follow_starts(spots, filter, text, places, starts, groups, steps)
    }

    /// Goes over a block. Refuses for want of memory alone.
    fn round<L: Ledger>(
        &mut self,
        spots: &[Spot],
        filter: &Scan,
        text: &[u8],
        places: Places,
        starts: &mut Starts,
        groups: u32,
        steps: &mut Steps<L>,
    ) -> Result<(), NoMemory>
        requires falls { ClosesFall spots.now }
        requires filters { IsFilterOf spots.now filter.now }
        requires few { length spots.now ≤ 256 }
        requires places { places.end ≤ places.begin + 256 }
        requires end { places.end ≤ length text.now + 1 }
        requires from { AllFrom text.now places.begin self.old.threads }
        requires begin { is_some (best_in self.old.best) ≡ false → places.begin ≤ starts.old.place }
        requires within { starts.old.place ≤ length text.now + 1 }
        ensures answer { IfOk result (λ _.
            answer text.now spots.now groups starts.new.place (stops_give text.now spots.now self.new.threads) (best_in self.new.best)
            ≡ answer text.now spots.now groups starts.old.place (stops_give text.now spots.now self.old.threads) (best_in self.old.best)) }
        ensures from { IfOk result (λ _. AllFrom text.now places.end self.new.threads) }
        ensures within { IfOk result (λ _. starts.new.place ≤ length text.now + 1) }
        ensures past { IfOk result (λ _. is_some (best_in self.new.best) ≡ false → places.end ≤ starts.new.place) }
        ensures ticks { TicksAtMost L.noted ((places.end - places.begin) * counted spots.now) steps.old steps.new }
    {
        let found = self.follow_block(spots, filter, text, places, starts, groups, steps)?;
        self.best.update(found, &mut self.block.trail);
        if !self.threads.is_empty() || !self.block.later.is_empty() {
            mem::swap(&mut self.threads, &mut self.block.later);
        }
        Ok(())
    }

    /// Goes the first way of the thread that begins at a place, if the text has that place, and says whether it comes to a match: it is then the
    /// best one. Else nothing is noted. Where blocks have another size than usual, as tests ask for, it isn't gone. Refuses for want of memory
    /// alone.
    fn follow_first_way<L: Ledger>(
        &mut self,
        spots: &[Spot],
        filter: &Scan,
        text: &[u8],
        at: usize,
        groups: u32,
        count: usize,
        steps: &mut Steps<L>,
    ) -> Result<bool, NoMemory>
        requires falls { ClosesFall spots.now }
        requires filters { IsFilterOf spots.now filter.now }
        requires within { at ≤ length text.now + 1 }
        ensures found { IfOk result (λ found. found ≡ true → (at ≤ length text.now) × (is_some (best_in self.new.best) ≡ true)
            × (best_in self.new.best ≡ first_of (begins text.now spots.now groups at))) }
        ensures best { IfOk result (λ found. found ≡ false → self.new.best ≡ self.old.best) }
        ensures threads { self.new.threads ≡ self.old.threads }
        ensures silent { IfOk result (λ found. found ≡ false → steps.new ≡ steps.old) }
        ensures ticks { TicksAtMost L.noted ((length text.now + 1 - at) * counted spots.now) steps.old steps.new }
    {
        if at > text.len() || count < PLACES {
            return Ok(false);
        }
        let trail = &mut self.block.trail;
        trail.begin_whole(at, groups)?;
        if !follow_first_way(spots, filter, text, filter.entry(), trail, steps)? {
            return Ok(false);
        }
        self.best.update(true, trail);
        Ok(true)
    }

    /// Looks for the first run of the least place, from one on, at which a program gives a run, and says whether there is one:
    /// it is then the best match. A block has so many places, at least one and at most [`PLACES`]. Refuses for want of memory alone.
    pub fn search<L: Ledger>(
        &mut self,
        spots: &[Spot],
        filter: &Scan,
        text: &[u8],
        at: usize,
        groups: u32,
        count: usize,
        steps: &mut Steps<L>,
    ) -> Result<bool, NoMemory>
        requires falls { ClosesFall spots.now }
        requires filters { IsFilterOf spots.now filter.now }
        requires few { length spots.now ≤ 256 }
        requires at { at ≤ length text.now }
        ensures found { IfOk result (λ found. found ≡ is_some (best_in self.new.best)) }
        ensures first { IfOk result (λ _. best_in self.new.best ≡ first_from text.now spots.now groups (length text.now + 1 - at) at) }
        ensures ticks { TicksAtMost L.noted ((length text.now + 1 - at) * counted spots.now) steps.old steps.new }
    {
        self.threads.clear();
        self.best.clear();
        let count = count.clamp(1, PLACES);
        let mut starts = Starts::from(at);
        starts.pass_over(filter, text);
        if self.follow_first_way(spots, filter, text, starts.place, groups, count, steps)? {
            return Ok(true);
        }
        let mut begin = starts.place;
        while begin <= text.len() {
            let end = (begin + count).min(text.len() + 1);
            let places = Places { begin, end };
            self.round(spots, filter, text, places, &mut starts, groups, steps)?;
            begin = end;
            if self.threads.is_empty() {
                if self.best.is_some() {
                    return Ok(true);
                }
                begin = starts.place;
            }
        }
        Ok(self.best.is_some())
    }

    /// What the groups of the best match hold.
    pub fn groups(&self) -> &[Option<(usize, usize)>]
        ensures { result.now ≡ self.now.best.groups.items }
    {
        self.best.groups()
    }
}
