//! What a glob captures of a path, by one walk over its tokens.
//!
//! The sets of `onward` say from which places what is left of the glob goes on. So each piece goes to the nearest
//! place from which the others can go on, and each brace takes its first option that can.

ghost use Rattle.std.specs.Prelude.{◌≡◌, ◌<◌, [], ◌∷◌, ◌++◌, All, List, length, reverse, Bool, IfOk, IsSome, MatchOption, None, Some};
ghost use Rattle.glob_match.specs.Pieces.{Pieces};
ghost use Rattle.glob_match.specs.Reading.{pieces_of_tokens};
ghost use Rattle.glob_match.specs.Takes.{Takes};
ghost use Rattle.glob_match.specs.Captures.{captured, Captures};
ghost use Rattle.glob_match.specs.Walk.{AreAfter, ended, IsParting, stand_of, Moves, PassesAt, IsNearest, IsPieceStep, IsLooked, IsOpenStep, IsPlainStep, IsPartStep, IsCloseStep, IsWalkStep, HasCapture};
ghost use Rattle.glob_match.specs.declared.piece.Piece.TheVariants as piece;
ghost use Rattle.glob_match.specs.declared.piece.Single.{Single};

use crate::onward::{PlaceSet, onward_sets};
use crate::piece::{Piece, Single, Token};
use crate::places::{is_after_separator, is_separator};
use sd_base::NoMemory;
use std::alloc::Global;

/// A part of a path, from one place between its characters to another.
#[derive(Clone, Copy)]
pub struct Capture {
    pub from: usize,
    pub to: usize,
}

/// How far an open brace's choice of an option is.
#[derive(Clone, Copy)]
pub enum State {
    /// No option so far can go on.
    Looking,
    /// This option is taken.
    Taking,
    /// An option before this one was taken, or the brace itself isn't.
    Passing,
}

/// An open brace's choice of an option.
#[derive(Clone, Copy)]
pub struct Choice {
    /// Where the brace's capture stands among the captures.
    capture: usize,
    start: usize,
    state: State,
}

/// A walk over the tokens of a glob.
#[derive(Drop)]
pub struct Walk {
    /// The place of the path that is reached.
    place: usize,
    captures: Vec<Capture>,
    /// The braces that are open, the innermost last.
    choices: Vec<Choice>,
}

/// The nearest place to which what takes one character leads, and from which one may go on.
fn nearest_one(path: &[char], from: usize) -> usize
    ensures { (single : Single) (next : List Bool) → IsNearest (piece.One single) path.now next from result }
{
    match path.get(from) {
        Some(_) => from + 1,
        None => from,
    }
}

/// The nearest place to which `*` leads, and from which one may go on.
fn nearest_run(path: &[char], from: usize, next: &PlaceSet) -> usize
    ensures { IsNearest piece.AnyRun path.now next.now from result }
{
    for to in from..path.len() {
        if next.holds(to) || is_separator(path, to) {
            return to;
        }
    }
    path.len()
}

/// The nearest place to which a star token with its `/` leads, and from which one may go on.
fn nearest_depth(path: &[char], from: usize, next: &PlaceSet) -> usize
    ensures { IsNearest piece.AnyDepth path.now next.now from result }
{
    for to in from..path.len() {
        if next.holds(to) && is_after_separator(path, to) {
            return to;
        }
    }
    path.len()
}

/// The nearest place to which a star token at the glob's end leads, and from which one may go on.
fn nearest_rest(path: &[char], from: usize, next: &PlaceSet) -> usize
    ensures { IsNearest piece.AnyRest path.now next.now from result }
{
    for to in from..path.len() {
        if next.holds(to) {
            return to;
        }
    }
    path.len()
}

/// The nearest place to which a piece leads, and from which one may go on.
fn nearest(piece: &Piece, path: &[char], from: usize, next: &PlaceSet) -> usize
    ensures { IsNearest piece.now path.now next.now from result }
{
    match piece {
        Piece::One(_) => nearest_one(path, from),
        Piece::AnyRun => nearest_run(path, from, next),
        Piece::AnyDepth => nearest_depth(path, from, next),
        Piece::AnyRest => nearest_rest(path, from, next),
    }
}

/// What a piece captures that took what stands between two places: a star token with its `/` leaves out the last `/`.
fn captured(piece: &Piece, from: usize, to: usize) -> Option<Capture>
    ensures { MatchOption result (captured piece.now from to ≡ []) (λ one. captured piece.now from to ≡ one ∷ []) }
{
    match piece {
        Piece::One(Single::Character(_)) => None,
        Piece::AnyDepth => Some(Capture {
            from,
            to: from.max(to.saturating_sub(1)),
        }),
        _ => Some(Capture { from, to }),
    }
}

/// Adds what a piece captures.
fn add(captures: &mut Vec<Capture>, piece: &Piece, from: usize, to: usize) -> Result<(), NoMemory>
    ensures { IfOk result (λ _. captures.new.items ≡ captures.old.items ++ captured piece.now from to) }
{
    if let Some(one) = captured(piece, from, to) {
        captures.push(one)?;
    }
    Ok(())
}

/// Where the innermost brace starts if pieces are passed in it, or `None` where they move the walk.
fn passes_at(choices: &[Choice]) -> Option<usize>
    ensures { MatchOption result (Moves choices.now) (λ start. PassesAt choices.now start) }
{
    match choices {
        [
            ..,
            Choice {
                state: State::Looking | State::Passing,
                start,
                ..
            },
        ] => Some(*start),
        _ => None,
    }
}

/// Whether an option is taken that begins at a place.
fn looked(next: &PlaceSet, place: usize) -> State
    ensures { IsLooked next.now place result }
{
    if next.holds(place) {
        State::Taking
    } else {
        State::Looking
    }
}

impl Walk {
    /// A walk at the path's start.
    fn new(alloc: Global) -> Walk
        ensures { stand_of result ≡ record { place = 0; captures = []; choices = [] } }
    {
        Walk {
            place: 0,
            captures: Vec::new(alloc),
            choices: Vec::new(alloc),
        }
    }

    /// Takes a piece.
    fn take_piece(&mut self, piece: &Piece, path: &[char], next: &PlaceSet) -> Result<(), NoMemory>
        ensures { IfOk result (λ _. IsPieceStep piece.now path.now next.now (stand_of self.old) (stand_of self.new)) }
    {
        let from = self.place;
        match passes_at(&self.choices) {
            None => {
                self.place = nearest(piece, path, from, next);
                add(&mut self.captures, piece, from, self.place)
            }
            Some(start) => add(&mut self.captures, piece, start, start),
        }
    }

    /// Takes a `{`.
    fn open(&mut self, next: &PlaceSet) -> Result<(), NoMemory>
        ensures { IfOk result (λ _. IsOpenStep next.now (stand_of self.old) (stand_of self.new)) }
    {
        let (start, state) = match passes_at(&self.choices) {
            None => (self.place, looked(next, self.place)),
            Some(start) => (start, State::Passing),
        };
        self.choices.push(Choice {
            capture: self.captures.len(),
            start,
            state,
        })?;
        self.captures.push(Capture {
            from: start,
            to: start,
        })?;
        Ok(())
    }

    /// Ends the capture of a brace at the place reached.
    fn end(&mut self, choice: Choice)
        requires { choice.capture < length self.old.captures.items }
        ensures { stand_of self.new ≡ record { place = self.old.place; captures = ended choice self.old.place self.old.captures.items; choices = self.old.choices.items } }
    {
        self.captures[choice.capture] = Capture {
            from: choice.start,
            to: self.place,
        };
    }

    /// Begins the next option of a brace, which is closed meanwhile.
    fn next_option(&mut self, choice: Choice, next: &PlaceSet) -> Result<(), NoMemory>
        requires { choice.capture < length self.old.captures.items }
        ensures { IfOk result (λ _. IsParting choice.state next.now self.old.choices.items choice (stand_of self.old) (stand_of self.new)) }
    {
        let state = match choice.state {
            State::Looking => {
                self.place = choice.start;
                looked(next, choice.start)
            }
            State::Taking => {
                self.end(choice);
                State::Passing
            }
            State::Passing => State::Passing,
        };
        self.choices.push(Choice { state, ..choice })?;
        Ok(())
    }

    /// Takes a `,`: the next option of the innermost brace, or a character outside braces.
    fn part(&mut self, path: &[char], next: &PlaceSet) -> Result<(), NoMemory>
        requires { All (HasCapture (length self.old.captures.items)) self.old.choices.items }
        ensures outside { IfOk result (λ _. IsPlainStep 44 path.now next.now (stand_of self.old) (stand_of self.new)) }
        ensures inside { IfOk result (λ _. IsPartStep next.now (stand_of self.old) (stand_of self.new)) }
    {
        match self.choices.pop() {
            None => self.take_piece(&Piece::One(Single::Character(',')), path, next),
            Some(choice) => self.next_option(choice, next),
        }
    }

    /// Takes a `}`: the end of the innermost brace, or a character outside braces.
    fn close(&mut self, path: &[char], next: &PlaceSet) -> Result<(), NoMemory>
        requires { All (HasCapture (length self.old.captures.items)) self.old.choices.items }
        ensures outside { IfOk result (λ _. IsPlainStep 125 path.now next.now (stand_of self.old) (stand_of self.new)) }
        ensures inside { IfOk result (λ _. IsCloseStep (stand_of self.old) (stand_of self.new)) }
    {
        match self.choices.pop() {
            None => self.take_piece(&Piece::One(Single::Character('}')), path, next)?,
            Some(choice) => {
                if let State::Taking = choice.state {
                    self.end(choice);
                }
            }
        }
        Ok(())
    }

    /// Takes a token, after which one may go on from the places of a set.
    fn take(&mut self, token: &Token, path: &[char], next: &PlaceSet) -> Result<(), NoMemory>
        requires { All (HasCapture (length self.old.captures.items)) self.old.choices.items }
        ensures { IfOk result (λ _. IsWalkStep token.now path.now next.now (stand_of self.old) (stand_of self.new)) }
    {
        match token {
            Token::Piece(piece) => self.take_piece(piece, path, next),
            Token::Open => self.open(next),
            Token::Comma => self.part(path, next),
            Token::Close => self.close(path, next),
        }
    }
}

/// What the tokens of a glob capture of a path that they take, by the sets after each token, the last first.
fn walk_over(
    alloc: Global,
    tokens: &[Token],
    path: &[char],
    mut sets: Vec<PlaceSet>,
) -> Result<Vec<Capture>, NoMemory>
    requires sets { AreAfter 0 tokens.now path.now (reverse sets.items) }
    ensures { IfOk result (λ captures. (pieces : Pieces) → pieces_of_tokens (Some tokens.now) ≡ Some pieces → Takes pieces path.now 0 (length path.now) → Captures pieces path.now captures.items) }
{
    let mut walk = Walk::new(alloc);
    for token in tokens {
        let Some(next) = sets.pop() else {
            unreachable!()
        };
        walk.take(token, path, &next)?;
    }
    Ok(walk.captures)
}

/// What the tokens of a glob capture of a path, or `None` where they don't take it.
pub fn captures_of(
    alloc: Global,
    tokens: &[Token],
    path: &[char],
) -> Result<Option<Vec<Capture>>, NoMemory>
    requires { IsSome (pieces_of_tokens (Some tokens.now)) }
    ensures { IfOk result (λ found. (pieces : Pieces) → pieces_of_tokens (Some tokens.now) ≡ Some pieces → MatchOption found (¬ (Takes pieces path.now 0 (length path.now))) (λ captures. Takes pieces path.now 0 (length path.now) × Captures pieces path.now captures.items)) }
{
    let mut sets = onward_sets(alloc, tokens, path)?;
    match sets.pop() {
        Some(first) if first.holds(0) => Ok(Some(walk_over(alloc, tokens, path, sets)?)),
        _ => Ok(None),
    }
}
