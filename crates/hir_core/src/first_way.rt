//! The first way of a thread, which is tried before blocks are searched: at each spot the preferred way that the filter doesn't rule out is
//! gone, with no marks, and none is kept to come back to. Most patterns that match often match so.

ghost use Rattle.std.specs.Prelude.{◌≡◌, ◌+◌, ◌-◌, ◌*◌, ◌<◌, ◌≤◌, ◌^◌, ◌⊎◌, ℕ, List, [], true, false, length, slice_index, slice_index_or, Some, IfNone, IfOk, IfSome};
ghost use Rattle.sd_base.specs.Steps.{IsTicked, TicksAtMost};
ghost use Rattle.hir_program.specs.Loops.{AreLoops};
ghost use Rattle.hir_program.specs.Masks.{IsDead, is_taker, next_of};
ghost use Rattle.hir_program.specs.Program.{ClosesFall, is_close, spot_at};
ghost use Rattle.hir_program.specs.Scan.{IsFilterOf};
ghost use Rattle.hir_program.specs.declared.spot.Spot.{Spot};
ghost use Rattle.hir_program.specs.declared.spot.Spot.TheVariants as spot;
ghost use Rattle.hir_core.specs.FirstWays.{GoesFirst, GoesRound};
ghost use Rattle.hir_core.specs.Pass.{counted, first_of, stop_gives};
ghost use Rattle.hir_core.specs.Trails.{placed_at, stops_of, way_of};

use crate::block::{last_end, taken_size};
use crate::closure::{is_counted, lead};
use crate::trail::Trail;
use hir_program::{Loops, Scan, Spot, run_end};
use sd_base::{Ledger, NoMemory, Steps};

/// How many turns are made at most: what takes more is searched block by block.
const TURNS: usize = 64;

/// How far a first way was gone.
#[derive(Clone, Copy)]
pub struct Reached {
    /// The spot that comes next.
    pub spot: usize,
    /// No spot from this one on was passed at the place, but for ends of groups.
    pub bar: usize,
    /// How many visits were made that are counted.
    pub visits: usize,
}

/// Goes over bytes by which the loop at a spot only goes round.
#[inline(always)]
fn go_round(loops: &Loops, text: &[u8], spot: usize, trail: &mut Trail)
    requires { trail.old.at ≤ length text.now }
    ensures round { (spots : List Spot) → AreLoops spots loops.now → GoesRound text.now spots spot trail.old.at trail.new.at }
    ensures way { way_of trail.new ≡ placed_at trail.new.at (way_of trail.old) }
    ensures stops { stops_of trail.new ≡ stops_of trail.old }
    ensures forward { trail.old.at ≤ trail.new.at }
    ensures within { trail.new.at ≤ length text.now }
{
    let Some(row) = loops.row(spot) else {
        return;
    };
    let at = run_end(row, text, trail.at);
    trail.move_on(at - trail.at);
}

/// The first of two ways, or the second where the filter rules the first one out.
#[inline(always)]
fn first_of_two(filter: &Scan, text: &[u8], at: usize, first: usize, second: usize) -> usize
    requires { at ≤ length text.now }
    ensures { (result ≡ first) ⊎ ((result ≡ second) × ((spots : List Spot) → IsFilterOf spots filter.now → IsDead text.now spots at first)) }
{
    if filter.may_go_on(first, text, at) {
        first
    } else {
        second
    }
}

/// Takes bytes at a spot, if it takes any there, and goes on behind them.
#[inline(always)]
fn take(
    spots: &[Spot],
    filter: &Scan,
    text: &[u8],
    now: Reached,
    next: usize,
    trail: &mut Trail,
) -> Option<Reached>
    requires falls { ClosesFall spots.now }
    requires filters { IsFilterOf spots.now filter.now }
    requires at { trail.old.at ≤ length text.now }
    requires next { (is_taker (spot_at spots.now now.spot) ≡ true) × (next_of (spot_at spots.now now.spot) ≡ next) }
    ensures gone { IfSome result (λ next. GoesFirst text.now spots.now now trail.old next trail.new) }
    ensures anew { IfSome result (λ next. next.bar ≡ 0) }
    ensures stays { IfNone result (trail.new ≡ trail.old) }
{
    let size = taken_size(spots, filter, text, trail.at, now.spot)?;
    trail.move_on(size);
    Some(Reached {
        spot: next,
        bar: 0,
        visits: now.visits.saturating_add(1),
    })
}

/// Takes bytes at a spot, if it takes any there, and goes on behind them, and behind all rounds of the loop that it leads to, if it does.
#[inline(always)]
fn take_rounds(
    spots: &[Spot],
    filter: &Scan,
    text: &[u8],
    now: Reached,
    trail: &mut Trail,
) -> Option<Reached>
    requires falls { ClosesFall spots.now }
    requires filters { IsFilterOf spots.now filter.now }
    requires at { trail.old.at ≤ length text.now }
    ensures gone { IfSome result (λ next. GoesFirst text.now spots.now now trail.old next trail.new) }
    ensures stays { IfNone result (trail.new ≡ trail.old) }
{
    let Some(Spot::Bytes { next, .. } | Spot::Chars { next, .. }) = spots.get(now.spot) else {
        return None;
    };
    let behind = take(spots, filter, text, now, *next as usize, trail)?;
    let Some(Spot::Split { first, second }) = spots.get(behind.spot) else {
        return Some(behind);
    };
    let (first, second) = (*first as usize, *second as usize);
    Some(split(spots, filter, text, behind, first, second, trail))
}

/// Goes into a repetition at the spot before it, as `\w*` has one: by a jump to a spot that takes bytes, and on behind these. `None` where it
/// is no such spot, or none are taken.
#[inline(always)]
fn enter(
    spots: &[Spot],
    filter: &Scan,
    text: &[u8],
    now: Reached,
    first: usize,
    second: usize,
    trail: &mut Trail,
) -> Option<Reached>
    requires falls { ClosesFall spots.now }
    requires filters { IsFilterOf spots.now filter.now }
    requires at { trail.old.at ≤ length text.now }
    requires split { spot_at spots.now now.spot ≡ spot.Split first second }
    requires new_here { now.bar ≤ now.spot }
    ensures gone { IfSome result (λ next. GoesFirst text.now spots.now now trail.old next trail.new) }
    ensures stays { IfNone result (trail.new ≡ trail.old) }
{
    let Some(Spot::Jump { next }) = spots.get(first) else {
        return None;
    };
    if first <= now.spot {
        return None;
    }
    let round = Reached {
        spot: *next as usize,
        bar: first + 1,
        visits: now.visits.saturating_add(1),
    };
    take_rounds(spots, filter, text, round, trail)
}

/// Goes on both ways at a spot, by the first one that the filter doesn't rule out, behind all rounds of a loop.
#[inline(always)]
fn split(
    spots: &[Spot],
    filter: &Scan,
    text: &[u8],
    now: Reached,
    first: usize,
    second: usize,
    trail: &mut Trail,
) -> Reached
    requires falls { ClosesFall spots.now }
    requires filters { IsFilterOf spots.now filter.now }
    requires at { trail.old.at ≤ length text.now }
    requires split { spot_at spots.now now.spot ≡ spot.Split first second }
    requires within { now.spot < length spots.now }
    requires new_here { now.bar ≤ now.spot }
    ensures { GoesFirst text.now spots.now now trail.old result trail.new }
{
    let from = trail.at;
    go_round(filter.loops(), text, now.spot, trail);
    Reached {
        spot: first_of_two(filter, text, trail.at, first, second),
        bar: now.spot + 1,
        visits: now.visits.saturating_add(trail.at - from).saturating_add(1),
    }
}

/// Goes on both ways at a spot: into a repetition, or else as [`split`] does.
#[inline(always)]
fn fork(
    spots: &[Spot],
    filter: &Scan,
    text: &[u8],
    now: Reached,
    first: usize,
    second: usize,
    trail: &mut Trail,
) -> Reached
    requires falls { ClosesFall spots.now }
    requires filters { IsFilterOf spots.now filter.now }
    requires at { trail.old.at ≤ length text.now }
    requires split { spot_at spots.now now.spot ≡ spot.Split first second }
    requires within { now.spot < length spots.now }
    requires new_here { now.bar ≤ now.spot }
    ensures { GoesFirst text.now spots.now now trail.old result trail.new }
{
    match enter(spots, filter, text, now, first, second, trail) {
        Some(next) => next,
        None => split(spots, filter, text, now, first, second, trail),
    }
}

/// The bar behind a spot that was passed.
#[inline(always)]
fn bar_behind(here: &Spot, now: Reached) -> usize
    requires { now.spot + 1 < 2 ^ 64 }
    ensures end { is_close here.now ≡ true → result ≡ now.bar }
    ensures other { is_close here.now ≡ false → result ≡ now.spot + 1 }
{
    match here {
        Spot::Close { .. } => now.bar,
        _ => now.spot + 1,
    }
}

/// Goes on from a spot that takes no bytes and has one way at most. Refuses for want of memory alone.
#[inline(always)]
fn pass(
    spots: &[Spot],
    text: &[u8],
    here: &Spot,
    now: Reached,
    trail: &mut Trail,
) -> Result<Option<Reached>, NoMemory>
    requires falls { ClosesFall spots.now }
    requires at { trail.old.at ≤ length text.now }
    requires here { here.now ≡ spot_at spots.now now.spot }
    requires within { now.spot < length spots.now }
    requires new_here { (is_close here.now ≡ true) ⊎ (now.bar ≤ now.spot) }
    ensures { IfOk result (λ next. IfSome next (λ next. GoesFirst text.now spots.now now trail.old next trail.new)) }
{
    trail.clear();
    let Some(spot) = lead(here, text, trail)? else {
        return Ok(None);
    };
    let own = if is_counted(here) { 1 } else { 0 };
    Ok(Some(Reached {
        spot,
        bar: bar_behind(here, now),
        visits: now.visits.saturating_add(own),
    }))
}

/// Makes a turn: goes on to where the spot leads first. `None` where that is nowhere, or the spot may have been passed at its place. Refuses
/// for want of memory alone.
#[inline(always)]
fn turn(
    spots: &[Spot],
    filter: &Scan,
    text: &[u8],
    now: Reached,
    trail: &mut Trail,
) -> Result<Option<Reached>, NoMemory>
    requires falls { ClosesFall spots.now }
    requires filters { IsFilterOf spots.now filter.now }
    requires at { trail.old.at ≤ length text.now }
    ensures { IfOk result (λ next. IfSome next (λ next. GoesFirst text.now spots.now now trail.old next trail.new)) }
{
    match spots.get(now.spot) {
        Some(Spot::Bytes { next, .. } | Spot::Chars { next, .. }) => {
            Ok(take(spots, filter, text, now, *next as usize, trail))
        }
        Some(here @ Spot::Close { .. }) => pass(spots, text, here, now, trail),
        Some(_) if now.spot < now.bar => Ok(None),
        Some(Spot::Split { first, second }) => {
            let (first, second) = (*first as usize, *second as usize);
            Ok(Some(fork(spots, filter, text, now, first, second, trail)))
        }
        Some(here) => pass(spots, text, here, now, trail),
        None => Ok(None),
    }
}

/// Goes the first way from a spot, and says how many counted visits it made if it came to a match, whose way the trail then has. Refuses for
/// want of memory alone.
#[inline(always)]
fn walk(
    spots: &[Spot],
    filter: &Scan,
    text: &[u8],
    spot: usize,
    trail: &mut Trail,
) -> Result<Option<usize>, NoMemory>
    requires falls { ClosesFall spots.now }
    requires filters { IsFilterOf spots.now filter.now }
    requires at { trail.old.at ≤ length text.now }
    ensures first { IfOk result (λ visits. IfSome visits (λ _. first_of (stop_gives text.now spots.now (spot, way_of trail.old)) ≡ Some (way_of trail.new).run)) }
    ensures visits { IfOk result (λ visits. IfSome visits (λ n. 0 < n → 0 < counted spots.now)) }
{
    let mut now = Reached {
        spot,
        bar: 0,
        visits: 0,
    };
    for _turn in 0..TURNS {
        let Some(here) = spots.get(now.spot) else {
            return Ok(None);
        };
        if let Spot::Match = here {
            return Ok(Some(now.visits));
        }
        if let Some(index) = last_end(spots, here) {
            // nothing is come back to, and with no alternative nothing is noted for that
            trail.clear();
            trail.close(index)?;
            return Ok(Some(now.visits));
        }
        let Some(next) = turn(spots, filter, text, now, trail)? else {
            return Ok(None);
        };
        now = next;
    }
    Ok(None)
}

/// Takes so many steps.
fn tick_all<L: Ledger>(count: usize, steps: &mut Steps<L>)
    ensures { IsTicked L.noted count steps.old steps.new }
{
    for _step in 0..count {
        steps.tick();
    }
}

/// Goes the first way of a thread from a spot, and says whether it comes to a match: the trail then holds it, and the thread gives no run
/// before it. Else nothing is known, and nothing was noted. Refuses for want of memory alone.
pub fn follow_first_way<L: Ledger>(
    spots: &[Spot],
    filter: &Scan,
    text: &[u8],
    spot: usize,
    trail: &mut Trail,
    steps: &mut Steps<L>,
) -> Result<bool, NoMemory>
    requires falls { ClosesFall spots.now }
    requires filters { IsFilterOf spots.now filter.now }
    requires at { trail.old.at ≤ length text.now }
    ensures first { IfOk result (λ found. found ≡ true → first_of (stop_gives text.now spots.now (spot, way_of trail.old)) ≡ Some (way_of trail.new).run) }
    ensures silent { IfOk result (λ found. found ≡ false → steps.new ≡ steps.old) }
    ensures ticks { TicksAtMost L.noted ((length text.now + 1 - trail.old.at) * counted spots.now) steps.old steps.new }
{
    let room = text.len() + 1 - trail.at;
    let Some(visits) = walk(spots, filter, text, spot, trail)? else {
        return Ok(false);
    };
    tick_all(visits.min(room), steps);
    Ok(true)
}
