//! The reading of a text from left to right.

ghost use Rattle.std.specs.Prelude.{◌≡◌, ◌<◌, true, ◌≤◌, IfOk, None, length, slice_index, drop};
ghost use Rattle.pattern_syntax.specs.Readers.{IsRepetitionRead};
ghost use Rattle.pattern_core.specs.Parsing.{IsAtToken, IsWhole, ReachesBehind, Repeats, Steps, is_other};

use crate::PatternFault;
use crate::parsing::names::Names;
use crate::parsing::pieces::Piece;
use crate::parsing::state::State;
use pattern_syntax::{Flags, Literals, behind_blanks, read_opening, read_repetition, read_single};
use sd_base::NoMemory;
use std::alloc::Global;

/// A whole pattern.
#[derive(Drop)]
pub(crate) struct Whole {
    pub(crate) piece: Piece,
    pub(crate) groups: u32,
    pub(crate) names: Names,
    pub(crate) literals: Literals,
}

/// A piece with all repetitions that come next, and the place behind them. Refuses for want of memory alone.
fn repeat(
    alloc: Global,
    text: &[char],
    at: usize,
    piece: Piece,
    flags: Flags,
    limit: u32,
) -> Result<(Piece, usize), NoMemory>
    requires { at ≤ length text.now }
    ensures repeats { IfOk result (λ read. Repeats limit text.now flags piece at read.0 read.1) }
    ensures all { IfOk result (λ read. IsRepetitionRead flags text.now read.1 None) }
{
    let mut piece = piece;
    let mut at = at;
    while let Some((repetition, next)) = read_repetition(text, at, flags)? {
        piece = piece.repeated(alloc, repetition, flags, limit)?;
        at = next;
    }
    Ok((piece, at))
}

/// The state behind an item that stands before its place, and behind its repetitions. Refuses for want of memory alone.
fn read_repeated(
    alloc: Global,
    text: &[char],
    state: State,
    piece: Piece,
    limit: u32,
) -> Result<State, NoMemory>
    requires { state.at ≤ length text.now }
    ensures { IfOk result (ReachesBehind limit text.now state piece) }
{
    let (piece, next) = repeat(alloc, text, state.at, piece, state.flags, limit)?;
    state.item(piece, next)
}

/// The state behind the group that ends at its place.
fn end_group(alloc: Global, text: &[char], state: State, limit: u32) -> Result<State, PatternFault>
    requires within { state.at < length text.now }
    requires is { slice_index text.now state.at ≡ 41 }
    ensures { Steps limit text.now state result }
{
    let next = state.at + 1;
    let Some((state, piece)) = state.leave(alloc, limit, next)? else {
        return Err(PatternFault::Grammar);
    };
    Ok(read_repeated(alloc, text, state, piece, limit)?)
}

/// The state behind what is opened at its place.
fn begin_group(
    alloc: Global,
    text: &[char],
    state: State,
    limit: u32,
) -> Result<State, PatternFault>
    requires within { state.at < length text.now }
    requires is { slice_index text.now state.at ≡ 40 }
    requires clear { IsAtToken state.flags (drop state.at text.now) }
    ensures { Steps limit text.now state result }
{
    let Some((opening, next)) = read_opening(alloc, text, state.at, state.flags)? else {
        return Err(PatternFault::Grammar);
    };
    Ok(state.opened(alloc, opening, next)?)
}

/// The state behind the single item at its place.
fn read_item(alloc: Global, text: &[char], state: State, limit: u32) -> Result<State, PatternFault>
    requires within { state.at < length text.now }
    requires other { is_other (slice_index text.now state.at) ≡ true }
    requires clear { IsAtToken state.flags (drop state.at text.now) }
    ensures { Steps limit text.now state result }
{
    let Some((item, next)) = read_single(alloc, text, state.at, state.flags)? else {
        return Err(PatternFault::Grammar);
    };
    let piece = Piece {
        hir: item.hir,
        depth: item.depth,
    }
    .within(limit);
    let state = state.note(item.literals, next);
    Ok(read_repeated(alloc, text, state, piece, limit)?)
}

/// The state behind what stands at its place.
fn step(alloc: Global, text: &[char], state: State, limit: u32) -> Result<State, PatternFault>
    requires within { state.at < length text.now }
    requires clear { IsAtToken state.flags (drop state.at text.now) }
    ensures { Steps limit text.now state result }
{
    match text[state.at] {
        '|' => {
            let next = state.at + 1;
            Ok(state.bar(alloc, limit, next)?)
        }
        ')' => end_group(alloc, text, state, limit),
        '(' => begin_group(alloc, text, state, limit),
        _ => read_item(alloc, text, state, limit),
    }
}

/// The state behind white space, and behind what comes next.
fn advance(alloc: Global, text: &[char], state: State, limit: u32) -> Result<State, PatternFault>
    requires within { state.at < length text.now }
    ensures { Steps limit text.now state result }
{
    let mut state = state;
    state.at = behind_blanks(text, state.at, state.flags.spaces);
    if state.at == text.len() {
        return Ok(state);
    }
    step(alloc, text, state, limit)
}

/// Reads a pattern. Pieces that nest deeper than the limit are left out.
pub(crate) fn read(
    alloc: Global,
    text: &[char],
    flags: Flags,
    limit: u32,
) -> Result<Whole, PatternFault>
    ensures { IsWhole limit text.now flags result }
{
    let mut state = State::new(alloc, flags);
    while state.at < text.len() {
        state = advance(alloc, text, state, limit)?;
    }
    if !state.frames.is_empty() {
        return Err(PatternFault::Grammar);
    }
    Ok(Whole {
        piece: state.level.finished(limit)?,
        groups: state.groups,
        names: state.names,
        literals: state.literals,
    })
}
