//! Bytes of a loop of one set, as `[a-z]+` has one, which the search of a block runs over in one go.

ghost use Rattle.std.specs.Prelude.{◌≡◌, ◌-◌, ◌*◌, ◌≤◌, length};
ghost use Rattle.hir_core.specs.RunsOver.{RunsOver};
ghost use Rattle.hir_core.specs.Trails.{placed_at, stops_of, way_of};
ghost use Rattle.hir_core.specs.Tries.{CountsTries};
ghost use Rattle.hir_program.specs.Loops.{AreLoops, IsRow};

use crate::block::{Places, mark_of};
use crate::trail::Trail;
use crate::visited::Visited;
use hir_program::{ByteTable, Loops, Spot};
use sd_base::{Ledger, Steps};

/// The place up to which bytes of a block are run over, from one on, at a loop that has a row: up to where the spot was tried. It is
/// tried, and counted, at each of them then.
fn run_end<L: Ledger>(
    spots: &[Spot],
    row: &ByteTable,
    text: &[u8],
    places: Places,
    spot: usize,
    from: usize,
    marks: &mut Visited,
    steps: &mut Steps<L>,
) -> usize
    requires row { IsRow spots.now spot row.now }
    requires room { length spots.now * (places.end - places.begin) ≤ length marks.old }
    requires few { length marks.old ≤ 65536 }
    requires begin { places.begin ≤ from }
    requires at { from ≤ length text.now }
    ensures over { RunsOver text.now spots.now places.begin places.end spot (result - from) from marks.old marks.new }
    ensures room { length marks.new ≡ length marks.old }
    ensures forward { from ≤ result }
    ensures within { result ≤ length text.now }
    ensures ticks { CountsTries L.noted spots.now places.begin places.end marks.old marks.new steps.old steps.new }
{
    let end = places.end.min(text.len());
    let mut at = from;
    while at < end && row[text[at] as usize] {
        if !marks.visit(mark_of(spots.len(), places, at, spot)) {
            return at;
        }
        steps.tick();
        at += 1;
    }
    at
}

/// Runs over bytes of a block by which the loop at a spot only goes round, from the place of the trail on, up to where the spot was
/// tried. It is tried, and counted, at each of them then.
pub fn run_over<L: Ledger>(
    spots: &[Spot],
    loops: &Loops,
    text: &[u8],
    places: Places,
    spot: usize,
    trail: &mut Trail,
    marks: &mut Visited,
    steps: &mut Steps<L>,
)
    requires loops { AreLoops spots.now loops.now }
    requires room { length spots.now * (places.end - places.begin) ≤ length marks.old }
    requires few { length marks.old ≤ 65536 }
    requires begin { places.begin ≤ trail.old.at }
    requires at { trail.old.at ≤ length text.now }
    ensures over { RunsOver text.now spots.now places.begin places.end spot (trail.new.at - trail.old.at) trail.old.at marks.old marks.new }
    ensures room { length marks.new ≡ length marks.old }
    ensures way { way_of trail.new ≡ placed_at trail.new.at (way_of trail.old) }
    ensures stops { stops_of trail.new ≡ stops_of trail.old }
    ensures forward { trail.old.at ≤ trail.new.at }
    ensures within { trail.new.at ≤ length text.now }
    ensures ticks { CountsTries L.noted spots.now places.begin places.end marks.old marks.new steps.old steps.new }
{
    let Some(row) = loops.row(spot) else {
        return;
    };
    let at = run_end(spots, row, text, places, spot, trail.at, marks, steps);
    trail.move_on(at - trail.at);
}
