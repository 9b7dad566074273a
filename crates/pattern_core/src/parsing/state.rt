//! What a parser has so far.

ghost use Rattle.std.specs.Prelude.{◌≡◌, ◌+◌, ℕ, List, [], ◌∷◌, ◌++◌, IfOk, IfSome};
ghost use Rattle.pattern_syntax.specs.Readers.{HasLiterals, IsOpening};
ghost use Rattle.pattern_syntax.specs.Tokens.{Token, bar};
ghost use Rattle.pattern_syntax.specs.Reads.{Part};
ghost use Rattle.pattern_core.specs.Progress.{Progress, with_literals};
ghost use Rattle.pattern_core.specs.Parsing.{IsPart, IsState, Enters, IsLeft, begun, behind_token, behind_item, noted};

use crate::parsing::names::Names;
use crate::parsing::pieces::{Group, Level, Piece};
use pattern_syntax::{Flags, Literals, Opening};
use sd_base::{NoMemory, Text};
use std::alloc::Global;

/// An open group, and what stands before it, under which flags.
#[derive(Drop)]
pub(crate) struct Frame {
    pub(crate) group: Group,
    pub(crate) flags: Flags,
    pub(crate) level: Level,
}

/// What a parser has so far, and the place where it goes on.
#[derive(Drop)]
pub(crate) struct State {
    /// The open groups, the outermost first.
    pub(crate) frames: Vec<Frame>,
    /// What stands in the innermost of them.
    pub(crate) level: Level,
    /// The flags that hold.
    pub(crate) flags: Flags,
    /// How many groups have numbers.
    pub(crate) groups: u32,
    /// The names of groups.
    pub(crate) names: Names,
    /// The literal characters.
    pub(crate) literals: Literals,
    /// The place.
    pub(crate) at: usize,
}

impl State {
    /// Nothing read, under flags.
    pub(crate) fn new(alloc: Global, flags: Flags) -> State
        ensures is { (limit : ℕ) → IsState limit result (begun flags) }
        ensures place { result.at ≡ 0 }
    {
        State {
            frames: Vec::new(alloc),
            level: Level::new(alloc),
            flags,
            groups: 0,
            names: Names::new(alloc),
            literals: Literals {
                any: false,
                uppercase: false,
            },
            at: 0,
        }
    }

    /// The state behind a `|`. Refuses for want of memory alone.
    pub(crate) fn bar(self, alloc: Global, limit: u32, next: usize) -> Result<State, NoMemory>
        ensures is { IfOk result (λ state. (before : Progress) → IsState limit self before → IsState limit state (behind_token bar before)) }
        ensures place { IfOk result (λ state. state.at ≡ next) }
    {
        let mut state = self;
        state.level = state.level.close_branch(alloc, limit)?;
        state.at = next;
        Ok(state)
    }

    /// The state behind an item that is read. Refuses for want of memory alone.
    pub(crate) fn item(self, piece: Piece, next: usize) -> Result<State, NoMemory>
        ensures is { IfOk result (λ state. (limit : ℕ) (before : Progress) (part : Part) → IsState limit self before → IsPart limit piece part
            → IsState limit state (behind_item part before)) }
        ensures place { IfOk result (λ state. state.at ≡ next) }
    {
        let mut state = self;
        state.level = state.level.push(piece)?;
        state.at = next;
        Ok(state)
    }

    /// The state with literal characters more.
    pub(crate) fn note(self, literals: Literals, next: usize) -> State
        ensures is { (limit : ℕ) (before : Progress) (more : List ℕ) → IsState limit self before → HasLiterals literals more
            → IsState limit result (noted more before) }
        ensures place { result.at ≡ next }
    {
        let mut state = self;
        state.literals = Literals {
            any: state.literals.any || literals.any,
            uppercase: state.literals.uppercase || literals.uppercase,
        };
        state.at = next;
        state
    }

    /// The state within a group. Refuses for want of memory alone.
    fn enter(
        self,
        alloc: Global,
        group: Group,
        flags: Flags,
        next: usize,
    ) -> Result<State, NoMemory>
        ensures { IfOk result (Enters self group flags next) }
    {
        let State {
            mut frames,
            level,
            flags: outer,
            groups,
            names,
            literals,
            at: _,
        } = self;
        frames.push(Frame {
            group,
            flags: outer,
            level,
        })?;
        Ok(State {
            frames,
            level: Level::new(alloc),
            flags,
            groups,
            names,
            literals,
            at: next,
        })
    }

    /// The state within a group that captures. Refuses for want of memory alone.
    fn enter_capturing(
        self,
        alloc: Global,
        name: Option<Text>,
        next: usize,
    ) -> Result<State, NoMemory>
        ensures { IfOk result (Enters (record self { groups = self.groups + 1 }) (Group.Capturing (self.groups + 1) name) self.flags next) }
    {
        let mut state = self;
        let index = state.groups.checked_add(1).ok_or(NoMemory)?;
        state.groups = index;
        let flags = state.flags;
        state.enter(alloc, Group::Capturing(index, name), flags, next)
    }

    /// The state behind an opening. Refuses for want of memory alone.
    pub(crate) fn opened(
        self,
        alloc: Global,
        opening: Opening,
        next: usize,
    ) -> Result<State, NoMemory>
        ensures is { IfOk result (λ state. (limit : ℕ) (before : Progress) (token : Token) → IsState limit self before → IsOpening self.flags token opening
            → IsState limit state (behind_token token before)) }
        ensures place { IfOk result (λ state. state.at ≡ next) }
    {
        let mut state = self;
        match opening {
            Opening::Sets(flags) => {
                state.flags = flags;
                state.item(Piece::empty(), next)
            }
            Opening::Plain(flags) => state.enter(alloc, Group::Plain, flags, next),
            Opening::Numbered => state.enter_capturing(alloc, None, next),
            Opening::Named(name) => {
                state.names.add(alloc, &name)?;
                state.enter_capturing(alloc, Some(name), next)
            }
        }
    }

    /// The state behind a group that ends, and the group, if one is open. Refuses for want of memory alone.
    pub(crate) fn leave(
        self,
        alloc: Global,
        limit: u32,
        next: usize,
    ) -> Result<Option<(State, Piece)>, NoMemory>
        ensures is { IfOk result (λ left. (before : Progress) → IsState limit self before → IsLeft limit before left) }
        ensures place { IfOk result (λ left. IfSome left (λ left. left.0.at ≡ next)) }
    {
        let mut state = self;
        let Some(frame) = state.frames.pop() else {
            return Ok(None);
        };
        let piece = state.level.finished(limit)?;
        let piece = piece.grouped(alloc, frame.group, limit)?;
        state.level = frame.level;
        state.flags = frame.flags;
        state.at = next;
        Ok(Some((state, piece)))
    }
}
