//! Parts of a pattern that were read.

ghost use Rattle.std.specs.Prelude.{◌≡◌, ◌+◌, ℕ, IfOk, not};
ghost use Rattle.pattern_syntax.specs.SetTree as set_tree;
ghost use Rattle.pattern_syntax.specs.SetTree.{SetTree, SetTrees};
ghost use Rattle.pattern_syntax.specs.Class.{xor};
ghost use Rattle.pattern_syntax.specs.Reads.{Part, Row as Parts, at_depth, no_parts, united, sequence, choice, grouped};
ghost use Rattle.pattern_syntax.specs.Syntax.{Kind};
ghost use Rattle.pattern_core.specs.Progress as progress;
ghost use Rattle.pattern_core.specs.Parsing.{IsPart, IsRow, IsLevel, IsGroup, part_of, row_of};

use hir_tree::Hir;
use pattern_syntax::{Flags, Repetition, captured};
use sd_base::{NoMemory, Text};
use std::alloc::Global;

/// A part that was read: its tree, and how deep it nests. One that nests deeper than the limit is left out: its tree is empty.
#[derive(Drop)]
pub(crate) struct Piece {
    pub(crate) hir: Hir,
    pub(crate) depth: usize,
}

/// Parts one after the other: their trees, and how deep the deepest nests.
#[derive(Drop)]
pub(crate) struct Row {
    pub(crate) hirs: Vec<Hir>,
    pub(crate) depth: usize,
}

/// The branches of a group that are closed, and the items of the one that is open.
#[derive(Drop)]
pub(crate) struct Level {
    pub(crate) closed: Row,
    pub(crate) items: Row,
}

/// What a group is.
#[derive(Drop)]
pub(crate) enum Group {
    /// It doesn't capture.
    Plain,
    /// It captures under this number, and under a name if it has one.
    Capturing(u32, Option<Text>),
}

/// One level deeper. Refuses, for want of memory, a depth that has no number.
fn deeper(depth: usize) -> Result<usize, NoMemory>
    ensures { IfOk result (λ deeper. deeper ≡ depth + 1) }
{
    depth.checked_add(1).ok_or(NoMemory)
}

impl Piece {
    /// Nothing.
    pub(crate) fn empty() -> Piece
        ensures { part_of result ≡ at_depth 0 set_tree.empty }
    {
        Piece {
            hir: Hir::Empty,
            depth: 0,
        }
    }

    /// The piece, or where it nests deeper than the limit one that is left out.
    pub(crate) fn within(self, limit: u32) -> Piece
        ensures { IsPart limit result (part_of self) }
    {
        let Piece { hir, depth } = self;
        if depth > limit as usize {
            return Piece {
                hir: Hir::Empty,
                depth,
            };
        }
        Piece { hir, depth }
    }

    /// The piece several times, under flags. Refuses for want of memory alone.
    pub(crate) fn repeated(
        self,
        alloc: Global,
        repetition: Repetition,
        flags: Flags,
        limit: u32,
    ) -> Result<Piece, NoMemory>
        ensures { IfOk result (λ piece. (part : Part) → IsPart limit self part → IsPart limit piece
            (at_depth (part.depth + 1) (set_tree.repetition repetition.min repetition.max (not (xor repetition.swaps flags.swaps)) part.tree))) }
    {
        let Piece { hir, depth } = self;
        let greedy = repetition.swaps == flags.swaps;
        let hir = pattern_syntax::repeated(alloc, hir, repetition.min, repetition.max, greedy)?;
        let depth = deeper(depth)?;
        Ok(Piece { hir, depth }.within(limit))
    }

    /// The piece as a group. Refuses for want of memory alone.
    pub(crate) fn grouped(self, alloc: Global, group: Group, limit: u32) -> Result<Piece, NoMemory>
        ensures { IfOk result (λ piece. (part : Part) (kind : Kind) (before : ℕ) → IsPart limit self part → IsGroup group kind before
            → IsPart limit piece (progress.in_group kind before part)) }
    {
        let Piece { hir, depth } = self;
        let hir = match group {
            Group::Plain => hir,
            Group::Capturing(index, name) => captured(alloc, hir, index, name)?,
        };
        let depth = deeper(depth)?;
        Ok(Piece { hir, depth }.within(limit))
    }
}

impl Row {
    /// No parts.
    pub(crate) fn new(alloc: Global) -> Row
        ensures { row_of result ≡ no_parts }
    {
        Row {
            hirs: Vec::new(alloc),
            depth: 0,
        }
    }

    /// Adds a part at the end. Refuses for want of memory alone.
    pub(crate) fn push(self, piece: Piece) -> Result<Row, NoMemory>
        ensures { IfOk result (λ row. row_of row ≡ progress.behind (row_of self) (part_of piece)) }
    {
        let Row { mut hirs, depth } = self;
        hirs.push(piece.hir)?;
        let depth = depth.max(piece.depth);
        Ok(Row { hirs, depth })
    }

    /// How deep the parts nest as one. Refuses, for want of memory, a depth that has no number.
    fn depth_as_one(&self) -> Result<usize, NoMemory>
        ensures { IfOk result (λ depth. (make : SetTrees → SetTree) → depth ≡ (united make (row_of self.now).trees (row_of self.now).depth).depth) }
    {
        match self.hirs.len() {
            0 => Ok(0),
            1 => Ok(self.depth),
            _ => deeper(self.depth),
        }
    }

    /// The parts one after the other. Refuses for want of memory alone.
    fn sequence(self, limit: u32) -> Result<Piece, NoMemory>
        ensures { IfOk result (λ piece. IsPart limit piece (sequence (row_of self))) }
    {
        let depth = self.depth_as_one()?;
        let hir = pattern_syntax::sequence(self.hirs);
        Ok(Piece { hir, depth }.within(limit))
    }

    /// The first of the parts that goes on. Refuses for want of memory alone.
    fn choice(self, limit: u32) -> Result<Piece, NoMemory>
        ensures { IfOk result (λ piece. IsPart limit piece (choice (row_of self))) }
    {
        let depth = self.depth_as_one()?;
        let hir = pattern_syntax::choice(self.hirs);
        Ok(Piece { hir, depth }.within(limit))
    }
}

impl Level {
    /// No branches and no items.
    pub(crate) fn new(alloc: Global) -> Level
        ensures { (limit : ℕ) → IsLevel limit result progress.fresh }
    {
        Level {
            closed: Row::new(alloc),
            items: Row::new(alloc),
        }
    }

    /// Adds an item. Refuses for want of memory alone.
    pub(crate) fn push(self, piece: Piece) -> Result<Level, NoMemory>
        ensures { IfOk result (λ level. (limit : ℕ) (before : progress.Level) (part : Part) → IsLevel limit self before → IsPart limit piece part
            → IsLevel limit level (progress.push part before)) }
    {
        let Level { closed, items } = self;
        let items = items.push(piece)?;
        Ok(Level { closed, items })
    }

    /// Closes the open branch. Refuses for want of memory alone.
    pub(crate) fn close_branch(self, alloc: Global, limit: u32) -> Result<Level, NoMemory>
        ensures { IfOk result (λ level. (before : progress.Level) → IsLevel limit self before → IsLevel limit level (progress.close_branch before)) }
    {
        let Level { closed, items } = self;
        let closed = closed.push(items.sequence(limit)?)?;
        let items = Row::new(alloc);
        Ok(Level { closed, items })
    }

    /// The whole group. Refuses for want of memory alone.
    pub(crate) fn finished(self, limit: u32) -> Result<Piece, NoMemory>
        ensures { IfOk result (λ piece. (level : progress.Level) → IsLevel limit self level → IsPart limit piece (progress.finished level)) }
    {
        let Level { closed, items } = self;
        closed.push(items.sequence(limit)?)?.choice(limit)
    }
}
