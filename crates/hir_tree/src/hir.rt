//! The tree of a pattern.

ghost use Rattle.std.specs.Prelude.{◌≡◌, ◌<◌, ◌∷◌, [], ◌++◌, length, slice_get, OnOk, OnErr, Some};
ghost use Rattle.hir_tree.specs.Hirs.{parts_of};

use crate::{ByteRanges, Bytes, CharRanges, Look};
use sd_base::{NoMemory, Text};
use std::alloc::Global;

/// What a pattern matches, as a tree.
#[derive(Drop)]
#[cycle(hir)]
pub enum Hir {
    /// Nothing.
    Empty,
    /// These bytes, at least one.
    Literal(Bytes),
    /// The UTF-8 of one character of the set.
    ClassChars(CharRanges),
    /// One byte of the set.
    ClassBytes(ByteRanges),
    /// A place where the look holds.
    Look(Look),
    /// A part, several times.
    Repetition(Repeat),
    /// A part whose place is kept.
    Capture(Group),
    /// One part after the other.
    Concat(Hirs),
    /// The first part that goes on.
    Alternation(Hirs),
}

/// A part that is matched several times.
#[derive(Drop)]
#[cycle(hir)]
pub struct Repeat {
    /// How many times at least.
    pub min: u32,
    /// How many times at most, no fewer than `min`, or without a bound.
    pub max: Option<u32>,
    /// Whether more times are preferred to fewer.
    pub greedy: bool,
    /// The part.
    pub sub: Box<Hir>,
}

/// A part whose place is kept.
#[derive(Drop)]
#[cycle(hir)]
pub struct Group {
    /// The group's number, from 1.
    pub index: u32,
    /// The group's name, if it has one.
    pub name: Option<Text>,
    /// The part.
    pub sub: Box<Hir>,
}

/// A list of parts with an owner.
#[derive(Drop)]
#[cycle(hir)]
pub struct Hirs {
    parts: Vec<Hir>,
}

impl Hirs {
    /// No parts.
    pub fn new(alloc: Global) -> Hirs
        ensures { parts_of result ≡ [] }
    {
        Hirs {
            parts: Vec::new(alloc),
        }
    }

    /// Adds a part at the end. Refuses for want of memory alone, and then changes nothing.
    pub fn push(&mut self, hir: Hir) -> Result<(), NoMemory>
        ensures pushed { OnOk result (parts_of self.new ≡ parts_of self.old ++ hir ∷ []) }
        ensures refused { OnErr result (parts_of self.new ≡ parts_of self.old) }
    {
        self.parts.push(hir)?;
        Ok(())
    }

    /// The parts.
    pub fn parts(&self) -> &[Hir]
        ensures { result.now ≡ parts_of self.now }
    {
        &self.parts
    }

    /// The parts, out of the list.
    pub fn into_parts(self) -> Vec<Hir>
        ensures { result.items ≡ parts_of self }
    {
        self.parts
    }

    /// How many parts there are.
    pub fn len(&self) -> usize
        ensures { result ≡ length (parts_of self.now) }
    {
        self.parts.len()
    }

    /// The part at a place, counted from 0.
    pub fn get(&self, i: usize) -> &Hir
        requires { i < length (parts_of self.now) }
        ensures { slice_get (parts_of self.now) i ≡ Some result.now }
    {
        &self.parts[i]
    }
}

impl From<Vec<Hir>> for Hirs {
    ghost use Rattle.std.specs.Prelude.{◌≡◌};

    ghost from_gives = { λ parts hirs. parts_of hirs ≡ parts.items };

    /// These parts, in their order.
    fn from(parts: Vec<Hir>) -> Hirs {
        Hirs { parts }
    }
}
