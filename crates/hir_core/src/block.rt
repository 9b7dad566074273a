//! The search of a block of places: bounded backtracking, depth first, which tries each spot at each place once at most.

ghost use Rattle.std.specs.Prelude.{◌≡◌, ℕ, List, ◌+◌, ◌-◌, ◌*◌, ◌^◌, ◌≤◌, ◌<◌, [], ◌++◌, false, length, replicate, None, IfOk, IfSome};
ghost use Rattle.hir_core.specs.Blocks.{AreSpent, IsFollowed, KeepsMarks, TurnedAt, mark_of};
ghost use Rattle.hir_core.specs.Pass.{answer, leads, leads_on, match_of, stop_gives, stops_give, taken, AllFrom};
ghost use Rattle.hir_program.specs.Program.{ClosesFall, some_run, spot_at};
ghost use Rattle.hir_program.specs.Scan.{IsFilterOf};
ghost use Rattle.hir_core.specs.Sizes.{IsSizeTaken};
ghost use Rattle.hir_core.specs.Trails.{stops_of, stops_on, way_of};
ghost use Rattle.hir_core.specs.Tries.{CountsTries};
ghost use Rattle.hir_program.specs.declared.spot.Spot.{Spot};
ghost use Rattle.hir_program.specs.declared.spot.Spot.TheVariants as spot;

use crate::closure::{Turn, count, lead};
use crate::run_over::run_over;
use crate::set_size::{byte_size, char_size};
use crate::thread_list::ThreadList;
use crate::trail::Trail;
use crate::visited::Visited;
use hir_program::{Scan, Spot, Starts};
use sd_base::{Ledger, NoMemory, Steps};
use std::alloc::Global;

/// The places of a block: from the first one to before the end.
#[derive(Clone, Copy)]
pub struct Places {
    /// The first place.
    pub begin: usize,
    /// The place after the last one.
    pub end: usize,
}

/// Which mark is that of a spot at a place, where there are so many spots.
pub fn mark_of(spots: usize, places: Places, at: usize, spot: usize) -> usize
    requires few { spots * (places.end - places.begin) ≤ 65536 }
    requires begin { places.begin ≤ at }
    requires end { at < places.end }
    requires spot { spot < spots }
    ensures mark { result ≡ mark_of spots places.begin at spot }
    ensures within { result < spots * (places.end - places.begin) }
{
    (at - places.begin) * spots + spot
}

/// Moves a trail on by so many bytes, if there are any, and gives the spot at which it goes on then.
fn move_on(size: Option<usize>, next: usize, trail: &mut Trail) -> Option<usize>
    requires { IfSome size (λ bytes. trail.old.at + bytes < 2 ^ 64) }
    ensures { stops_on result trail.new ≡ taken size next (way_of trail.old) ++ stops_of trail.old }
{
    match size {
        None => None,
        Some(bytes) => {
            trail.move_on(bytes);
            Some(next)
        }
    }
}

/// How many bytes a spot takes at a place, if it takes any. Of a byte of ASCII the filter tells by a bit.
#[inline(always)]
pub fn taken_size(
    spots: &[Spot],
    filter: &Scan,
    text: &[u8],
    at: usize,
    spot: usize,
) -> Option<usize>
    requires filters { IsFilterOf spots.now filter.now }
    requires at { at ≤ length text.now }
    ensures { IsSizeTaken text.now (spot_at spots.now spot) at result }
{
    let here = spots.get(spot)?;
    if let Some(byte) = text.get(at)
        && let Some(takes) = filter.takes_ascii(spot, *byte)
    {
        return if takes { Some(1) } else { None };
    }
    match here {
        Spot::Bytes { set, .. } => byte_size(set, text, at),
        Spot::Chars { set, .. } => char_size(set, text, at),
        _ => None,
    }
}

/// The spot that a spot leads to, at the place of the trail or after bytes from there, if there is one; a second one is put before
/// the alternatives. Refuses for want of memory alone.
fn advance(
    spots: &[Spot],
    filter: &Scan,
    text: &[u8],
    spot: usize,
    trail: &mut Trail,
) -> Result<Option<usize>, NoMemory>
    requires filters { IsFilterOf spots.now filter.now }
    requires at { trail.old.at ≤ length text.now }
    ensures { let s = spot_at spots.now spot in IfOk result (λ on. stops_on on trail.new
        ≡ (leads text.now s (way_of trail.old) ++ leads_on text.now s (way_of trail.old)) ++ stops_of trail.old) }
{
    match spots.get(spot) {
        Some(Spot::Bytes { next, .. } | Spot::Chars { next, .. }) => {
            let size = taken_size(spots, filter, text, trail.at, spot);
            Ok(move_on(size, *next as usize, trail))
        }
        Some(here) => lead(here, text, trail),
        None => Ok(None),
    }
}

/// The index of the group that ends at a spot, if a match ends behind it.
#[inline(always)]
pub fn last_end(spots: &[Spot], here: &Spot) -> Option<usize>
    ensures { IfSome result (λ index. (next : ℕ) × (here.now ≡ spot.Close index next) × (spot_at spots.now next ≡ spot.Match)) }
{
    let Spot::Close { index, next } = here else {
        return None;
    };
    match spots.get(*next as usize) {
        Some(Spot::Match) => Some(*index as usize),
        _ => None,
    }
}

/// The search of a block: the thread that is followed, the spots that were tried, and the threads that go on past the block.
#[derive(Drop)]
pub struct Block {
    /// The thread that is followed, and the alternatives on its way.
    pub trail: Trail,
    /// Which spots were tried at which places: a row of all spots for each place of the block.
    pub marks: Visited,
    /// The threads that go on past the block, in order.
    pub later: ThreadList,
}

impl Block {
    /// A search with empty lists.
    pub fn new(alloc: Global) -> Block
        ensures later { result.later ≡ [] }
    {
        Block {
            trail: Trail::new(alloc),
            marks: Visited::new(alloc),
            later: ThreadList::new(alloc),
        }
    }

    /// Comes to a block with so many marks, where nothing was tried. Refuses for want of memory alone.
    pub fn enter(&mut self, marks: usize) -> Result<(), NoMemory>
        ensures marks { IfOk result (λ _. self.new.marks ≡ replicate marks false) }
        ensures later { IfOk result (λ _. self.new.later ≡ []) }
    {
        self.marks.next_place(marks)?;
        self.later.clear();
        Ok(())
    }

    /// Follows the thread, which is in the block, from this spot to those that it leads to, and says whether it comes to a match, or
    /// where it goes on. Of two ways it leaves out one that can't come to a match. Refuses for want of memory alone.
    fn turn<L: Ledger>(
        &mut self,
        spots: &[Spot],
        filter: &Scan,
        text: &[u8],
        places: Places,
        spot: usize,
        steps: &mut Steps<L>,
    ) -> Result<Turn, NoMemory>
        requires filters { IsFilterOf spots.now filter.now }
        requires room { length spots.now * (places.end - places.begin) ≤ length self.old.marks }
        requires few { length self.old.marks ≤ 65536 }
        requires begin { places.begin ≤ self.old.trail.at }
        requires end { self.old.trail.at < places.end }
        requires at { self.old.trail.at ≤ length text.now }
        ensures turned { IfOk result (λ turn. TurnedAt text.now spots.now places.begin turn (spot, way_of self.old.trail) self.new.trail
            self.old.marks self.new.marks (stops_of self.old.trail)) }
        ensures later { self.new.later ≡ self.old.later }
        ensures ticks { CountsTries L.noted spots.now places.begin places.end self.old.marks self.new.marks steps.old steps.new }
    {
        let Some(here) = spots.get(spot) else {
            return Ok(Turn::On(None));
        };
        if let Spot::Match = here {
            return Ok(Turn::Match);
        }
        if let Some(index) = last_end(spots, here) {
            self.trail.close(index)?;
            return Ok(Turn::Match);
        }
        let mark = mark_of(spots.len(), places, self.trail.at, spot);
        if self.marks.has(mark) {
            return Ok(Turn::On(None));
        }
        self.marks.add(mark);
        count(here, steps);
        if let Spot::Split { first, second } = here {
            let at = self.trail.at;
            if !filter.may_go_on(*first as usize, text, at) {
                return Ok(Turn::On(Some(*second as usize)));
            }
            if !filter.may_go_on(*second as usize, text, at) {
                return Ok(Turn::On(Some(*first as usize)));
            }
        }
        Ok(Turn::On(advance(spots, filter, text, spot, &mut self.trail)?))
    }

    /// Follows the thread from a spot, within the block, and says whether it comes to a match: the trail then holds it. What goes on
    /// past the block is kept. Refuses for want of memory alone.
    fn follow<L: Ledger>(
        &mut self,
        spots: &[Spot],
        filter: &Scan,
        text: &[u8],
        places: Places,
        spot: usize,
        steps: &mut Steps<L>,
    ) -> Result<bool, NoMemory>
        requires falls { ClosesFall spots.now }
        requires filters { IsFilterOf spots.now filter.now }
        requires room { length spots.now * (places.end - places.begin) ≤ length self.old.marks }
        requires few { length self.old.marks ≤ 65536 }
        requires begin { places.begin ≤ self.old.trail.at }
        requires at { self.old.trail.at ≤ length text.now }
        requires later { AllFrom text.now places.end self.old.later }
        requires spent { AreSpent text.now spots.now places.begin self.old.marks (some_run (stops_give text.now spots.now self.old.later)) }
        ensures followed { IfOk result (λ found. IsFollowed text.now spots.now places.begin (stop_gives text.now spots.now (spot, way_of self.old.trail))
            (match_of found self.new.trail) self.new.marks self.old.later self.new.later) }
        ensures later { IfOk result (λ _. AllFrom text.now places.end self.new.later) }
        ensures marks { IfOk result (λ _. KeepsMarks self.old.marks self.new.marks) }
        ensures ticks { CountsTries L.noted spots.now places.begin places.end self.old.marks self.new.marks steps.old steps.new }
    {
        self.trail.clear();
        let mut on = Some(spot);
        while let Some(here) = self.trail.next(on)? {
            let loops = filter.loops();
            run_over(
                spots,
                loops,
                text,
                places,
                here,
                &mut self.trail,
                &mut self.marks,
                steps,
            );
            if self.trail.at >= places.end {
                self.later.push(here, self.trail.at, &self.trail)?;
                on = None;
                continue;
            }
            match self.turn(spots, filter, text, places, here, steps)? {
                Turn::Match => return Ok(true),
                Turn::On(next) => on = next,
            }
        }
        Ok(false)
    }

    /// Follows threads within the block, up to the first match, and says whether there is one: the trail then holds it. Refuses for
    /// want of memory alone.
    pub fn follow_all<L: Ledger>(
        &mut self,
        spots: &[Spot],
        filter: &Scan,
        text: &[u8],
        places: Places,
        threads: &ThreadList,
        steps: &mut Steps<L>,
    ) -> Result<bool, NoMemory>
        requires falls { ClosesFall spots.now }
        requires filters { IsFilterOf spots.now filter.now }
        requires room { length spots.now * (places.end - places.begin) ≤ length self.old.marks }
        requires few { length self.old.marks ≤ 65536 }
        requires from { AllFrom text.now places.begin threads.now }
        requires later { AllFrom text.now places.end self.old.later }
        requires spent { AreSpent text.now spots.now places.begin self.old.marks (some_run (stops_give text.now spots.now self.old.later)) }
        ensures followed { IfOk result (λ found. IsFollowed text.now spots.now places.begin (stops_give text.now spots.now threads.now)
            (match_of found self.new.trail) self.new.marks self.old.later self.new.later) }
        ensures later { IfOk result (λ _. AllFrom text.now places.end self.new.later) }
        ensures marks { IfOk result (λ _. KeepsMarks self.old.marks self.new.marks) }
        ensures ticks { CountsTries L.noted spots.now places.begin places.end self.old.marks self.new.marks steps.old steps.new }
    {
        for i in 0..threads.len() {
            let spot = threads.load(i, &mut self.trail)?;
            if self.follow(spots, filter, text, places, spot, steps)? {
                return Ok(true);
            }
        }
        Ok(false)
    }

    /// Passes over places that have no match, as a filter tells, where no thread goes on.
    fn pass_over(&self, filter: &Scan, text: &[u8], starts: &mut Starts)
        requires { starts.old.place ≤ length text.now + 1 }
        ensures answer { (spots : List Spot) (groups : ℕ) → IsFilterOf spots filter.now
            → answer text.now spots groups starts.new.place (stops_give text.now spots self.now.later) None
            ≡ answer text.now spots groups starts.old.place (stops_give text.now spots self.now.later) None }
        ensures after { starts.old.place ≤ starts.new.place }
        ensures within { starts.new.place ≤ length text.now + 1 }
    {
        if self.later.is_empty() {
            starts.pass_over(filter, text);
        }
    }

    /// Follows threads that begin in the block, where a match may begin, up to the first match, and says whether there is one: the
    /// trail then holds it. Refuses for want of memory alone.
    pub fn follow_starts<L: Ledger>(
        &mut self,
        spots: &[Spot],
        filter: &Scan,
        text: &[u8],
        places: Places,
        starts: &mut Starts,
        groups: u32,
        steps: &mut Steps<L>,
    ) -> Result<bool, NoMemory>
        requires falls { ClosesFall spots.now }
        requires filters { IsFilterOf spots.now filter.now }
        requires room { length spots.now * (places.end - places.begin) ≤ length self.old.marks }
        requires few { length self.old.marks ≤ 65536 }
        requires begin { places.begin ≤ starts.old.place }
        requires within { starts.old.place ≤ length text.now + 1 }
        requires end { places.end ≤ length text.now + 1 }
        requires later { AllFrom text.now places.end self.old.later }
        requires spent { AreSpent text.now spots.now places.begin self.old.marks (some_run (stops_give text.now spots.now self.old.later)) }
        ensures answer { IfOk result (λ found.
            answer text.now spots.now groups starts.new.place (stops_give text.now spots.now self.new.later) (match_of found self.new.trail)
            ≡ answer text.now spots.now groups starts.old.place (stops_give text.now spots.now self.old.later) None) }
        ensures later { IfOk result (λ _. AllFrom text.now places.end self.new.later) }
        ensures within { IfOk result (λ _. starts.new.place ≤ length text.now + 1) }
        ensures past { IfOk result (λ found. found ≡ false → places.end ≤ starts.new.place) }
        ensures marks { IfOk result (λ _. KeepsMarks self.old.marks self.new.marks) }
        ensures ticks { CountsTries L.noted spots.now places.begin places.end self.old.marks self.new.marks steps.old steps.new }
    {
        while starts.place < places.end {
            self.trail.begin_whole(starts.place, groups)?;
            starts.place += 1;
            if self.follow(spots, filter, text, places, filter.entry(), steps)? {
                return Ok(true);
            }
            self.pass_over(filter, text, starts);
        }
        Ok(false)
    }
}
