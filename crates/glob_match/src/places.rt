//! Sets of places in a path. A path of n characters has the places 0 to n between them.

ghost use Rattle.std.specs.Prelude.{◌≡◌, ◌≢◌, ◌+◌, ◌-◌, ◌<◌, ◌⊎◌, ◌↔◌, ℕ, length, slice_get, IfOk, IsTrue, Some, true, false};
ghost use Rattle.glob_match.specs.Takes.{IsInClass, IsInRanges, IsAfterSeparator, TakesOne};
ghost use Rattle.glob_match.specs.Places.{IsStartAlone, IsStep, TakesAt};
ghost use Rattle.glob_match.specs.declared.piece.Piece.TheVariants as piece;
ghost use Rattle.sd_base.specs.Steps.{IsTicked};

use crate::piece::{Piece, Single};
use sd_base::{Ledger, NoMemory, Steps};
use std::alloc::Global;

/// The set of places that holds the start of a path alone.
pub fn start_alone(alloc: Global, characters: usize) -> Result<Vec<bool>, NoMemory>
    ensures { IfOk result (λ places. IsStartAlone characters places.items) }
{
    let mut places = Vec::new(alloc);
    places.push(true)?;
    for _ in 0..characters {
        places.push(false)?;
    }
    Ok(places)
}

/// Turns a set of places into the set that a piece leads to from there. Takes a step for each place.
pub fn after_piece<L: Ledger>(
    piece: &Piece,
    path: &[char],
    places: &mut [bool],
    steps: &mut Steps<L>,
)
    requires { length places.old ≡ length path.now + 1 }
    ensures places { IsStep piece.now path.now places.old places.new }
    ensures ticks { IsTicked L.noted (length path.now + 1) steps.old steps.new }
{
    match piece {
        Piece::One(single) => after_one(single, path, places, steps),
        Piece::AnyRun => after_run(path, places, steps),
        Piece::AnyDepth => after_depth(path, places, steps),
        Piece::AnyRest => after_rest(path, places, steps),
    }
}

impl Single {
    /// Whether it takes this character.
    fn takes(&self, c: char) -> bool
        ensures { IsTrue result ↔ TakesOne self.now c }
    {
        match self {
            Single::Character(own) => *own == c,
            Single::AnyCharacter => c != '/',
            Single::Class { negated, ranges } => ranges.contains(c) != *negated,
        }
    }
}

/// Whether it takes the character that stands right after a place.
pub fn takes_at(single: &Single, path: &[char], place: usize) -> bool
    ensures { IsTrue result ↔ TakesAt single.now path.now place }
{
    match path.get(place) {
        Some(c) => single.takes(*c),
        None => false,
    }
}

/// Turns a set of places into the set that what takes one character leads to from there.
fn after_one<L: Ledger>(single: &Single, path: &[char], places: &mut [bool], steps: &mut Steps<L>)
    requires { length places.old ≡ length path.now + 1 }
    ensures places { IsStep (piece.One single.now) path.now places.old places.new }
    ensures ticks { IsTicked L.noted (length path.now + 1) steps.old steps.new }
{
    let mut before = false;
    for (place, to) in places.iter_mut().enumerate() {
        steps.tick();
        let from = *to;
        *to = before;
        before = from && takes_at(single, path, place);
    }
}

/// Whether a `/` stands right after a place.
pub fn is_separator(path: &[char], place: usize) -> bool
    ensures { IsTrue result ↔ (slice_get path.now place ≡ Some 47) }
{
    path.get(place) == Some(&'/')
}

/// Turns a set of places into the set that `*` leads to from there.
fn after_run<L: Ledger>(path: &[char], places: &mut [bool], steps: &mut Steps<L>)
    requires { length places.old ≡ length path.now + 1 }
    ensures places { IsStep piece.AnyRun path.now places.old places.new }
    ensures ticks { IsTicked L.noted (length path.now + 1) steps.old steps.new }
{
    let mut running = false;
    for (place, to) in places.iter_mut().enumerate() {
        steps.tick();
        let leads = *to || running;
        *to = leads;
        running = leads && !is_separator(path, place);
    }
}

/// Whether a place is the path's start, or just after a `/`.
pub fn is_after_separator(path: &[char], place: usize) -> bool
    ensures { IsTrue result ↔ IsAfterSeparator path.now place }
{
    place == 0 || is_separator(path, place - 1)
}

/// Turns a set of places into the set that a star token with its `/` leads to from there.
fn after_depth<L: Ledger>(path: &[char], places: &mut [bool], steps: &mut Steps<L>)
    requires { length places.old ≡ length path.now + 1 }
    ensures places { IsStep piece.AnyDepth path.now places.old places.new }
    ensures ticks { IsTicked L.noted (length path.now + 1) steps.old steps.new }
{
    let mut reached = false;
    for (place, to) in places.iter_mut().enumerate() {
        steps.tick();
        let here = *to || reached;
        *to = here && is_after_separator(path, place);
        reached = here;
    }
}

/// Turns a set of places into the set that a star token at the glob's end leads to from there.
fn after_rest<L: Ledger>(path: &[char], places: &mut [bool], steps: &mut Steps<L>)
    requires { length places.old ≡ length path.now + 1 }
    ensures places { IsStep piece.AnyRest path.now places.old places.new }
    ensures ticks { IsTicked L.noted (length path.now + 1) steps.old steps.new }
{
    let mut reached = false;
    for to in places.iter_mut() {
        steps.tick();
        let here = *to || reached;
        *to = here;
        reached = here;
    }
}
