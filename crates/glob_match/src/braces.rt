//! Braces that are open while a path is matched.

ghost use Rattle.std.specs.Prelude.{◌≡◌, ◌↔◌, ◌⊎◌, ◌+◌, [], ◌∷◌, ◌++◌, Bool, List, All, length, IfOk};
ghost use Rattle.glob_match.specs.Places.{IsUnion, IsNowhere, IsOfPlaces};
ghost use Rattle.glob_match.specs.Braces.{IsOpened, IsPlain, IsParted, IsClosed};
ghost use Rattle.sd_base.specs.Steps.{IsTicked};

use crate::piece::{Piece, Single};
use crate::places::after_piece;
use sd_base::{Ledger, NoMemory, Steps};
use std::alloc::Global;
use std::marker::Model;

/// A brace that is open. Where a glob is taken from its end, a brace begins at its `}`.
#[derive(Drop)]
pub struct Brace {
    /// The places where it begins, and so each option.
    start: Vec<bool>,
    /// The places to which its options so far lead.
    reached: Vec<bool>,
}

impl Model for Brace {
    ghost use Rattle.glob_match.specs.Places.{OpenBrace};

    ghost Value = { OpenBrace };

    ghost view = { λ brace. record { start = brace.start.items; reached = brace.reached.items } };
}

/// The empty set of places.
pub fn nowhere(alloc: Global, places: usize) -> Result<Vec<bool>, NoMemory>
    ensures { IfOk result (λ none. IsNowhere places none.items) }
{
    let mut none = Vec::new(alloc);
    for _ in 0..places {
        none.push(false)?;
    }
    Ok(none)
}

/// Adds the places of a set to another. Takes a step for each place.
fn add<L: Ledger>(others: &[bool], places: &mut [bool], steps: &mut Steps<L>)
    requires { length others.now ≡ length places.old }
    ensures places { IsUnion places.old others.now places.new }
    ensures ticks { IsTicked L.noted (length places.old) steps.old steps.new }
{
    for (place, to) in places.iter_mut().enumerate() {
        steps.tick();
        *to = *to || others[place];
    }
}

impl Brace {
    /// A brace that begins at these places.
    fn open(alloc: Global, places: &[bool]) -> Result<Brace, NoMemory>
        ensures start { IfOk result (λ brace. brace.start ≡ places.now) }
        ensures reached { IfOk result (λ brace. IsNowhere (length places.now) brace.reached) }
    {
        Ok(Brace {
            start: places.to_vec(alloc)?,
            reached: nowhere(alloc, places.len())?,
        })
    }

    /// Ends an option that leads to these places, and goes back to the brace's start for the next one.
    pub fn next_option<L: Ledger>(self, places: &mut [bool], steps: &mut Steps<L>) -> Brace
        requires { IsOfPlaces (length places.old) self }
        ensures start { result.start ≡ self.start }
        ensures reached { IsUnion self.reached places.old result.reached }
        ensures back { places.new ≡ self.start }
        ensures ticks { IsTicked L.noted (length places.old) steps.old steps.new }
    {
        let Brace { start, mut reached } = self;
        add(places, &mut reached, steps);
        places.copy_from_slice(&start);
        Brace { start, reached }
    }

    /// Ends the last option, and goes on from the places to which any of the options leads.
    pub fn close<L: Ledger>(self, places: &mut [bool], steps: &mut Steps<L>)
        requires { IsOfPlaces (length places.old) self }
        ensures places { IsUnion places.old self.reached places.new }
        ensures ticks { IsTicked L.noted (length places.old) steps.old steps.new }
    {
        add(&self.reached, places, steps);
    }
}

/// Opens a brace at these places, inside the open ones.
pub fn open_brace(alloc: Global, braces: &mut Vec<Brace>, places: &[bool]) -> Result<(), NoMemory>
    ensures { IfOk result (λ _. IsOpened braces.old.items places.now braces.new.items) }
{
    braces.push(Brace::open(alloc, places)?)?;
    Ok(())
}

/// Takes a `,`: the next option of the innermost open brace, or a character outside braces.
pub fn part_brace<L: Ledger>(
    braces: &mut Vec<Brace>,
    path: &[char],
    places: &mut [bool],
    steps: &mut Steps<L>,
) -> Result<(), NoMemory>
    requires path { length places.old ≡ length path.now + 1 }
    requires braces { All (IsOfPlaces (length places.old)) braces.old.items }
    ensures outside { IfOk result (λ _. IsPlain 44 path.now braces.old.items places.old braces.new.items places.new) }
    ensures inside { IfOk result (λ _. IsParted braces.old.items places.old braces.new.items places.new) }
    ensures ticks { IsTicked L.noted (length path.now + 1) steps.old steps.new }
{
    match braces.pop() {
        None => after_piece(&Piece::One(Single::Character(',')), path, places, steps),
        Some(brace) => braces.push(brace.next_option(places, steps))?,
    }
    Ok(())
}

/// Takes a `}`: the end of the innermost open brace, or a character outside braces.
pub fn close_brace<L: Ledger>(
    braces: &mut Vec<Brace>,
    path: &[char],
    places: &mut [bool],
    steps: &mut Steps<L>,
)
    requires path { length places.old ≡ length path.now + 1 }
    requires braces { All (IsOfPlaces (length places.old)) braces.old.items }
    ensures outside { IsPlain 125 path.now braces.old.items places.old braces.new.items places.new }
    ensures inside { IsClosed braces.old.items places.old braces.new.items places.new }
    ensures ticks { IsTicked L.noted (length path.now + 1) steps.old steps.new }
{
    match braces.pop() {
        None => after_piece(&Piece::One(Single::Character('}')), path, places, steps),
        Some(brace) => brace.close(places, steps),
    }
}
