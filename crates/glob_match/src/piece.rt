//! The parts of a glob.

ghost use Rattle.std.specs.Prelude.{◌≡◌, ◌↔◌, IsTrue};
ghost use Rattle.glob_match.specs.Takes.{IsInRanges};

use std::marker::Model;

/// A character of a glob, read with the backslash before it.
#[derive(Clone, Copy)]
pub enum Symbol {
    /// A character with no backslash before it.
    Plain(char),
    /// The character that an escape stands for: never a sign of globs.
    Escaped(char),
}

/// The characters of a class from one to another, both with it. None where the ends are reversed.
#[derive(Clone, Copy)]
pub struct CharacterRange {
    pub first: char,
    pub last: char,
}

/// The members of a class.
#[derive(Drop)]
pub struct Ranges {
    ranges: Vec<CharacterRange>,
}

impl Model for Ranges {
    ghost use Rattle.std.specs.Prelude.{List};
    ghost use Rattle.glob_match.specs.declared.piece.CharacterRange.{CharacterRange};

    ghost Value = { List CharacterRange };

    ghost view = { λ ranges. ranges.ranges.items };
}

impl Ranges {
    /// The members of these ranges.
    pub fn new(ranges: Vec<CharacterRange>) -> Ranges
        ensures { result ≡ ranges.items }
    {
        Ranges { ranges }
    }

    /// Whether a character lies in one of the ranges.
    pub fn contains(&self, c: char) -> bool
        ensures { IsTrue result ↔ IsInRanges self.now c }
    {
        lies_in(&self.ranges, c)
    }
}

/// Whether a character lies in one of the ranges.
fn lies_in(ranges: &[CharacterRange], c: char) -> bool
    ensures { IsTrue result ↔ IsInRanges ranges.now c }
{
    for range in ranges {
        if range.first <= c && c <= range.last {
            return true;
        }
    }
    false
}

/// What takes one character.
#[derive(Drop)]
pub enum Single {
    /// A character, which takes itself.
    Character(char),
    /// `?`, which takes any character but `/`.
    AnyCharacter,
    /// `[..]`, which takes what is in the class, or what isn't where the class is negated.
    Class { negated: bool, ranges: Ranges },
}

/// A piece of a glob other than a brace.
#[derive(Drop)]
pub enum Piece {
    /// One character.
    One(Single),
    /// `*`, which takes any text without `/`.
    AnyRun,
    /// `**/`, which takes any text after which the place is the start or just after `/`.
    AnyDepth,
    /// `**` at the glob's end, which takes any text.
    AnyRest,
}

/// What the text of a glob is read into: a piece, or a sign of a brace.
#[derive(Drop)]
pub enum Token {
    Piece(Piece),
    /// `{`
    Open,
    /// `,`
    Comma,
    /// `}`
    Close,
}

/// A token, and how many symbols after its first one belong to it.
#[derive(Drop)]
pub struct Found {
    pub token: Token,
    pub more: usize,
}
