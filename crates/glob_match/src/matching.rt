//! The tokens of a glob, one after another, over the places of a path.

ghost use Rattle.std.specs.Prelude.{◌≡◌, ◌↔◌, ◌+◌, ◌*◌, All, length, chars, Some, IfOk, IsTrue};
ghost use Rattle.glob_match.specs.Pieces.{Pieces};
ghost use Rattle.glob_match.specs.Reading.{pieces_of_tokens};
ghost use Rattle.glob_match.specs.Places.{IsOfPlaces, IsReached};
ghost use Rattle.glob_match.specs.Braces.{IsTokenStep};
ghost use Rattle.glob_match.specs.Takes.{Fits};
ghost use Rattle.sd_base.specs.Steps.{TicksAtMost};

use crate::braces::{Brace, close_brace, open_brace, part_brace};
use crate::glob::Glob;
use crate::piece::Token;
use crate::places::{after_piece, start_alone};
use sd_base::{Ledger, NoMemory, Silent, Steps};
use std::alloc::Global;

/// Turns the places reached and the open braces into those after one more token.
fn after_token<L: Ledger>(
    alloc: Global,
    token: &Token,
    path: &[char],
    braces: &mut Vec<Brace>,
    places: &mut [bool],
    steps: &mut Steps<L>,
) -> Result<(), NoMemory>
    requires path { length places.old ≡ length path.now + 1 }
    requires braces { All (IsOfPlaces (length places.old)) braces.old.items }
    ensures places { IfOk result (λ _. IsTokenStep token.now path.now braces.old.items places.old braces.new.items places.new) }
    ensures ticks { TicksAtMost L.noted (length path.now + 1) steps.old steps.new }
{
    match token {
        Token::Piece(piece) => after_piece(piece, path, places, steps),
        Token::Open => open_brace(alloc, braces, places)?,
        Token::Comma => part_brace(braces, path, places, steps)?,
        Token::Close => close_brace(braces, path, places, steps),
    }
    Ok(())
}

/// The places to which the pieces of a glob lead from the path's start.
pub fn places_after<L: Ledger>(
    alloc: Global,
    tokens: &[Token],
    path: &[char],
    steps: &mut Steps<L>,
) -> Result<Vec<bool>, NoMemory>
    ensures reached { IfOk result (λ places. (pieces : Pieces) → pieces_of_tokens (Some tokens.now) ≡ Some pieces → IsReached pieces path.now places.items) }
    ensures ticks { TicksAtMost L.noted (length tokens.now * (length path.now + 1)) steps.old steps.new }
{
    let mut places = start_alone(alloc, path.len())?;
    let mut braces = Vec::new(alloc);
    for token in tokens {
        after_token(alloc, token, path, &mut braces, &mut places, steps)?;
    }
    Ok(places)
}

/// Whether a glob is valid and fits a path.
///
/// `?` takes one character but `/`, `*` any text without `/`, `[..]` a character of a class, `{a,b}` what one of
/// its options takes, `**/` any folders, and `**` at the end any text. A `!` at the start negates the answer, and a
/// backslash takes a sign's meaning away. An invalid glob fits nothing.
/// Refuses for want of memory alone.
pub fn glob_match(alloc: Global, glob: &str, path: &str) -> Result<bool, NoMemory>
    ensures { IfOk result (λ fits. IsTrue fits ↔ Fits (chars glob.now) (chars path.now)) }
{
    glob_match_steps(alloc, glob, path, &mut Steps::new(Silent))
}

/// [`glob_match`], with a step for each test of a piece at a place between the path's characters.
///
/// Takes at most as many steps as the glob has characters times the path has places, one more than its characters, at each
/// answer and where memory is wanting. Reading the glob, and making a set of places for the path and for each brace, take none.
pub fn glob_match_steps<L: Ledger>(
    alloc: Global,
    glob: &str,
    path: &str,
    steps: &mut Steps<L>,
) -> Result<bool, NoMemory>
    ensures answer { IfOk result (λ fits. IsTrue fits ↔ Fits (chars glob.now) (chars path.now)) }
    ensures ticks { TicksAtMost L.noted (length (chars glob.now) * (length (chars path.now) + 1)) steps.old steps.new }
{
    match Glob::read(alloc, glob)? {
        None => Ok(false),
        Some(glob) => glob.fits_steps(alloc, path, steps),
    }
}
