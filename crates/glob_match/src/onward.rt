//! From where in a path what is left of a glob goes on to the path's end, with the tokens taken from the last to the
//! first.
//!
//! So a brace begins at its `}`. Each of its options is taken from the places after the brace, and before the brace are
//! the places from which any of them leads there.

ghost use Rattle.std.specs.Prelude.{◌≡◌, ◌↔◌, ◌+◌, ◌<◌, All, length, reverse, Some, IfOk, IsSome, IsTrue};
ghost use Rattle.glob_match.specs.Reading.{pieces_of_tokens};
ghost use Rattle.glob_match.specs.Places.{Holds, IsOfPlaces};
ghost use Rattle.glob_match.specs.Braces.{IsParted, IsClosed};
ghost use Rattle.glob_match.specs.Onward.{AreOnward, depth_after};
ghost use Rattle.glob_match.specs.Backward.{IsEndAlone, IsStepBack, IsKept, IsTokenStepBack, depths_from};
ghost use Rattle.glob_match.specs.declared.piece.Piece.TheVariants as piece;

use crate::braces::{Brace, nowhere, open_brace};
use crate::piece::{Piece, Single, Token};
use crate::places::{is_after_separator, is_separator, takes_at};
use sd_base::{NoMemory, Silent, Steps};
use std::alloc::Global;
use std::marker::Model;

/// A set of places of a path.
#[derive(Drop)]
pub struct PlaceSet {
    places: Vec<bool>,
}

impl Model for PlaceSet {
    ghost use Rattle.std.specs.Prelude.{Bool, List};

    ghost Value = { List Bool };

    ghost view = { λ set. set.places.items };
}

impl PlaceSet {
    /// A copy of the set.
    fn new(alloc: Global, places: &[bool]) -> Result<PlaceSet, NoMemory>
        ensures { IfOk result (λ set. set ≡ places.now) }
    {
        Ok(PlaceSet {
            places: places.to_vec(alloc)?,
        })
    }

    /// Whether a place is in the set.
    pub fn holds(&self, place: usize) -> bool
        ensures { IsTrue result ↔ Holds self.now place }
    {
        self.places.get(place) == Some(&true)
    }
}

/// The set of places that holds the end of a path alone.
fn end_alone(alloc: Global, characters: usize) -> Result<Vec<bool>, NoMemory>
    ensures { IfOk result (λ places. IsEndAlone characters places.items) }
{
    let mut places = nowhere(alloc, characters)?;
    places.push(true)?;
    Ok(places)
}

/// Turns a set of places into the set from which what takes one character leads there.
fn before_one(single: &Single, path: &[char], places: &mut [bool])
    requires { length places.old ≡ length path.now + 1 }
    ensures { IsStepBack (piece.One single.now) path.now places.old places.new }
{
    let mut after = false;
    for place in (0..places.len()).rev() {
        let here = places[place];
        places[place] = after && takes_at(single, path, place);
        after = here;
    }
}

/// Turns a set of places into the set from which `*` leads there.
fn before_run(path: &[char], places: &mut [bool])
    requires { length places.old ≡ length path.now + 1 }
    ensures { IsStepBack piece.AnyRun path.now places.old places.new }
{
    let mut after = false;
    for place in (0..places.len()).rev() {
        after = places[place] || (after && !is_separator(path, place));
        places[place] = after;
    }
}

/// Turns a set of places into the set from which a star token with its `/` leads there.
fn before_depth(path: &[char], places: &mut [bool])
    requires { length places.old ≡ length path.now + 1 }
    ensures { IsStepBack piece.AnyDepth path.now places.old places.new }
{
    let mut after = false;
    for place in (0..places.len()).rev() {
        after = after || (places[place] && is_after_separator(path, place));
        places[place] = after;
    }
}

/// Turns a set of places into the set from which a star token at the glob's end leads there.
fn before_rest(path: &[char], places: &mut [bool])
    requires { length places.old ≡ length path.now + 1 }
    ensures { IsStepBack piece.AnyRest path.now places.old places.new }
{
    let mut after = false;
    for place in (0..places.len()).rev() {
        after = after || places[place];
        places[place] = after;
    }
}

/// Turns a set of places into the set from which a piece leads there.
fn before_piece(piece: &Piece, path: &[char], places: &mut [bool])
    requires { length places.old ≡ length path.now + 1 }
    ensures { IsStepBack piece.now path.now places.old places.new }
{
    match piece {
        Piece::One(single) => before_one(single, path, places),
        Piece::AnyRun => before_run(path, places),
        Piece::AnyDepth => before_depth(path, places),
        Piece::AnyRest => before_rest(path, places),
    }
}

/// Takes the `,` of a brace: what comes before it is another option, from the brace's end.
fn before_comma(braces: &mut Vec<Brace>, places: &mut [bool]) -> Result<(), NoMemory>
    requires { All (IsOfPlaces (length places.old)) braces.old.items }
    ensures outside { IfOk result (λ _. IsKept braces.old.items places.old braces.new.items places.new) }
    ensures inside { IfOk result (λ _. IsParted braces.old.items places.old braces.new.items places.new) }
{
    if let Some(brace) = braces.pop() {
        braces.push(brace.next_option(places, &mut Steps::new(Silent)))?;
    }
    Ok(())
}

/// Takes the `{` of a brace: it goes on from where any of its options does.
fn before_open(braces: &mut Vec<Brace>, places: &mut [bool])
    requires { All (IsOfPlaces (length places.old)) braces.old.items }
    ensures outside { IsKept braces.old.items places.old braces.new.items places.new }
    ensures inside { IsClosed braces.old.items places.old braces.new.items places.new }
{
    if let Some(brace) = braces.pop() {
        brace.close(places, &mut Steps::new(Silent));
    }
}

/// Turns the places and the braces after a token, before which so many braces are open, into those before it.
fn before_token(
    alloc: Global,
    token: &Token,
    depth: usize,
    path: &[char],
    braces: &mut Vec<Brace>,
    places: &mut [bool],
) -> Result<(), NoMemory>
    requires path { length places.old ≡ length path.now + 1 }
    requires braces { All (IsOfPlaces (length places.old)) braces.old.items }
    ensures { IfOk result (λ _. IsTokenStepBack depth token.now path.now braces.old.items places.old braces.new.items places.new) }
{
    match token {
        Token::Piece(piece) => before_piece(piece, path, places),
        Token::Open => before_open(braces, places),
        Token::Comma if depth > 0 => before_comma(braces, places)?,
        Token::Comma => before_piece(&Piece::One(Single::Character(',')), path, places),
        Token::Close if depth > 0 => open_brace(alloc, braces, places)?,
        Token::Close => before_piece(&Piece::One(Single::Character('}')), path, places),
    }
    Ok(())
}

/// How many braces are open after a token, where so many are open before it.
fn depth_after(depth: usize, token: &Token) -> usize
    requires { depth < usize.MAX }
    ensures { result ≡ depth_after depth token.now }
{
    match token {
        Token::Open => depth + 1,
        Token::Close => depth.saturating_sub(1),
        Token::Piece(_) | Token::Comma => depth,
    }
}

/// How many braces are open before each token.
fn depths_of(alloc: Global, tokens: &[Token]) -> Result<Vec<usize>, NoMemory>
    ensures { IfOk result (λ depths. depths.items ≡ depths_from 0 tokens.now) }
{
    let mut depths = Vec::new(alloc);
    let mut depth = 0;
    for token in tokens {
        depths.push(depth)?;
        depth = depth_after(depth, token);
    }
    Ok(depths)
}

/// For each place between tokens, from the glob's end to its start, the places of the path from which what stands after
/// it goes on to the path's end.
pub fn onward_sets(
    alloc: Global,
    tokens: &[Token],
    path: &[char],
) -> Result<Vec<PlaceSet>, NoMemory>
    ensures { IfOk result (λ sets. IsSome (pieces_of_tokens (Some tokens.now)) → AreOnward 0 tokens.now path.now (reverse sets.items)) }
{
    let depths = depths_of(alloc, tokens)?;
    let mut places = end_alone(alloc, path.len())?;
    let mut braces = Vec::new(alloc);
    let mut sets = Vec::new(alloc);
    sets.push(PlaceSet::new(alloc, &places)?)?;
    for at in (0..tokens.len()).rev() {
        before_token(
            alloc,
            &tokens[at],
            depths[at],
            path,
            &mut braces,
            &mut places,
        )?;
        sets.push(PlaceSet::new(alloc, &places)?)?;
    }
    Ok(sets)
}
