//! The search of one place, as in Pike's virtual machine: it visits each spot once at most.

ghost use Rattle.std.specs.Prelude.{◌≡◌, ◌+◌, ◌^◌, ◌≤◌, ◌<◌, [], ◌++◌, false, length, IfOk, IfSome};
ghost use Rattle.hir_program.specs.Program.{ClosesFall, spot_at, some_run};
ghost use Rattle.hir_core.specs.Trails.{way_of, stops_of, stops_on};
ghost use Rattle.sd_base.specs.Steps.{IsTicked};
ghost use Rattle.hir_core.specs.Pass.{leads, taken, match_of, stops_give, Spent, Turned, Followed, AllLater, AllFrom, stop_gives, was_visited, visiting, is_counted, visit_ticks, CountsVisits};

use crate::holds;
use crate::set_size::{byte_size, char_size};
use crate::thread_list::ThreadList;
use crate::trail::Trail;
use crate::visited::Visited;
use hir_program::Spot;
use sd_base::{Ledger, NoMemory, Steps};
use std::alloc::Global;

/// What one turn of a thread comes to.
#[derive(Drop)]
pub enum Turn {
    /// The thread is a match.
    Match,
    /// The thread goes on at this spot, or else an alternative is tried.
    On(Option<usize>),
}

/// The spot that a spot leads to without a byte, if there is one; a second one is put before the alternatives. Refuses for want
/// of memory alone.
#[inline(always)]
pub fn lead(spot: &Spot, text: &[u8], trail: &mut Trail) -> Result<Option<usize>, NoMemory>
    requires { trail.old.at ≤ length text.now }
    ensures { IfOk result
        (λ on. stops_on on trail.new ≡ leads text.now spot.now (way_of trail.old) ++ stops_of trail.old) }
{
    match spot {
        Spot::Look { look, next } => {
            if holds(*look, text, trail.at) {
                return Ok(Some(*next as usize));
            }
            Ok(None)
        }
        Spot::Jump { next } => Ok(Some(*next as usize)),
        Spot::Split { first, second } => {
            trail.push(*second as usize)?;
            Ok(Some(*first as usize))
        }
        Spot::Open { next } => {
            trail.open()?;
            Ok(Some(*next as usize))
        }
        Spot::Close { index, next } => {
            trail.close(*index as usize)?;
            Ok(Some(*next as usize))
        }
        _ => Ok(None),
    }
}

/// Keeps the thread of a trail, which goes on by so many bytes to another spot, if there are any. Refuses for want of memory
/// alone.
fn keep(
    size: Option<usize>,
    next: usize,
    trail: &Trail,
    later: &mut ThreadList,
) -> Result<(), NoMemory>
    requires { IfSome size (λ bytes. trail.now.at + bytes < 2 ^ 64) }
    ensures { IfOk result (λ _. later.new ≡ later.old ++ taken size next (way_of trail.now)) }
{
    let Some(bytes) = size else {
        return Ok(());
    };
    later.push(next, trail.at + bytes, trail)
}

/// Whether a visit of a spot is counted.
pub fn is_counted(spot: &Spot) -> bool
    ensures { result ≡ is_counted spot.now }
{
    match spot {
        Spot::Bytes { .. } | Spot::Chars { .. } | Spot::Look { .. } | Spot::Split { .. } => true,
        Spot::Close { index, .. } => *index > 0,
        _ => false,
    }
}

/// Counts a visit of a spot.
pub fn count<L: Ledger>(spot: &Spot, steps: &mut Steps<L>)
    ensures { IsTicked L.noted (visit_ticks spot.now false) steps.old steps.new }
{
    if is_counted(spot) {
        steps.tick();
    }
}

/// The search of a place: the thread that is followed, the spots that were visited, and the threads that go on later.
#[derive(Drop)]
pub struct Closure {
    /// The thread that is followed, and the alternatives at its place.
    pub trail: Trail,
    /// Which spots were visited at this place.
    pub visited: Visited,
    /// The threads that go on later, in order.
    pub later: ThreadList,
}

impl Closure {
    /// A search with empty lists.
    pub fn new(alloc: Global) -> Closure
        ensures visited { result.visited ≡ [] }
        ensures later { result.later ≡ [] }
    {
        Closure {
            trail: Trail::new(alloc),
            visited: Visited::new(alloc),
            later: ThreadList::new(alloc),
        }
    }

    /// Follows the thread to the spots that this one leads to at its place, and says whether it is a match, or where it goes
    /// on. Refuses for want of memory alone.
    fn turn<L: Ledger>(
        &mut self,
        spots: &[Spot],
        text: &[u8],
        spot: usize,
        steps: &mut Steps<L>,
    ) -> Result<Turn, NoMemory>
        requires room { length self.old.visited ≡ length spots.now }
        requires at { self.old.trail.at ≤ length text.now }
        ensures turned { IfOk result (λ turn. Turned text.now spots.now turn (spot, way_of self.old.trail) self.new.trail
            self.old.visited self.new.visited (stops_of self.old.trail) self.old.later self.new.later) }
        ensures visited { self.new.visited ≡ visiting (spot_at spots.now spot) spot self.old.visited }
        ensures ticks { IsTicked L.noted (visit_ticks (spot_at spots.now spot) (was_visited self.old.visited spot)) steps.old steps.new }
    {
        let Some(here) = spots.get(spot) else {
            return Ok(Turn::On(None));
        };
        if let Spot::Match = here {
            return Ok(Turn::Match);
        }
        if self.visited.has(spot) {
            return Ok(Turn::On(None));
        }
        self.visited.add(spot);
        count(here, steps);
        let at = self.trail.at;
        match here {
            Spot::Bytes { next, set } => {
                let size = byte_size(set, text, at);
                keep(size, *next as usize, &self.trail, &mut self.later)?;
                Ok(Turn::On(None))
            }
            Spot::Chars { next, set } => {
                let size = char_size(set, text, at);
                keep(size, *next as usize, &self.trail, &mut self.later)?;
                Ok(Turn::On(None))
            }
            _ => Ok(Turn::On(lead(here, text, &mut self.trail)?)),
        }
    }

    /// Follows the thread from a spot until what it leads to takes bytes, or is a match, and says whether it is one: the
    /// trail then holds it. Refuses for want of memory alone.
    pub fn follow<L: Ledger>(
        &mut self,
        spots: &[Spot],
        text: &[u8],
        spot: usize,
        steps: &mut Steps<L>,
    ) -> Result<bool, NoMemory>
        requires falls { ClosesFall spots.now }
        requires room { length self.old.visited ≡ length spots.now }
        requires at { self.old.trail.at ≤ length text.now }
        requires later { AllLater text.now self.old.trail.at self.old.later }
        requires spent { Spent text.now spots.now self.old.trail.at self.old.visited (some_run (stops_give text.now spots.now self.old.later)) }
        ensures followed { IfOk result (λ found. Followed text.now spots.now self.old.trail.at (stop_gives text.now spots.now (spot, way_of self.old.trail))
            (match_of found self.new.trail) self.new.visited self.old.later self.new.later) }
        ensures later { IfOk result (λ _. AllLater text.now self.old.trail.at self.new.later) }
        ensures room { length self.new.visited ≡ length self.old.visited }
        ensures ticks { CountsVisits L.noted spots.now self.old.visited self.new.visited steps.old steps.new }
    {
        self.trail.clear();
        let mut on = Some(spot);
        while let Some(here) = self.trail.next(on)? {
            match self.turn(spots, text, here, steps)? {
                Turn::Match => return Ok(true),
                Turn::On(next) => on = next,
            }
        }
        Ok(false)
    }

    /// Follows the thread that was taken up, if it is at a place, or keeps it, if it goes on later, and says whether it comes
    /// to a match. Refuses for want of memory alone.
    fn follow_or_keep<L: Ledger>(
        &mut self,
        spots: &[Spot],
        text: &[u8],
        at: usize,
        spot: usize,
        steps: &mut Steps<L>,
    ) -> Result<bool, NoMemory>
        requires falls { ClosesFall spots.now }
        requires room { length self.old.visited ≡ length spots.now }
        requires at { at ≤ self.old.trail.at }
        requires within { self.old.trail.at ≤ length text.now }
        requires later { AllLater text.now at self.old.later }
        requires spent { Spent text.now spots.now at self.old.visited (some_run (stops_give text.now spots.now self.old.later)) }
        ensures followed { IfOk result (λ found. Followed text.now spots.now at (stop_gives text.now spots.now (spot, way_of self.old.trail))
            (match_of found self.new.trail) self.new.visited self.old.later self.new.later) }
        ensures later { IfOk result (λ _. AllLater text.now at self.new.later) }
        ensures room { length self.new.visited ≡ length self.old.visited }
        ensures ticks { CountsVisits L.noted spots.now self.old.visited self.new.visited steps.old steps.new }
    {
        if self.trail.at > at {
            self.later.push(spot, self.trail.at, &self.trail)?;
            return Ok(false);
        }
        self.follow(spots, text, spot, steps)
    }

    /// Follows the threads that are at a place, up to the first match, and keeps those that go on later. Says whether there
    /// is a match: the trail then holds it. Refuses for want of memory alone.
    pub fn follow_all<L: Ledger>(
        &mut self,
        spots: &[Spot],
        text: &[u8],
        at: usize,
        threads: &ThreadList,
        steps: &mut Steps<L>,
    ) -> Result<bool, NoMemory>
        requires falls { ClosesFall spots.now }
        requires room { length self.old.visited ≡ length spots.now }
        requires from { AllFrom text.now at threads.now }
        requires later { AllLater text.now at self.old.later }
        requires spent { Spent text.now spots.now at self.old.visited (some_run (stops_give text.now spots.now self.old.later)) }
        ensures followed { IfOk result (λ found. Followed text.now spots.now at (stops_give text.now spots.now threads.now)
            (match_of found self.new.trail) self.new.visited self.old.later self.new.later) }
        ensures later { IfOk result (λ _. AllLater text.now at self.new.later) }
        ensures room { length self.new.visited ≡ length self.old.visited }
        ensures ticks { CountsVisits L.noted spots.now self.old.visited self.new.visited steps.old steps.new }
    {
        for i in 0..threads.len() {
            let spot = threads.load(i, &mut self.trail)?;
            if self.follow_or_keep(spots, text, at, spot, steps)? {
                return Ok(true);
            }
        }
        Ok(false)
    }
}
