//! What is read in a pattern, part by part.

use crate::Flags;
use hir_tree::Hir;
use regex_class::Class;
use sd_base::Text;

/// Whether literal characters stand in a part of a pattern, members of classes and ends of ranges too.
#[derive(Clone, Copy, Debug, PartialEq, Eq)]
pub struct Literals {
    /// Whether there is one.
    pub any: bool,
    /// Whether one of them has the property Uppercase.
    pub uppercase: bool,
}

/// What an escape stands for, in a class too.
#[derive(Drop)]
pub enum Member {
    /// One character.
    Character(char),
    /// The number of `\xHH`: a character, or with `u` off that byte.
    HexByte(u8),
    /// A set of characters, or with `u` off of bytes.
    Set(Class),
}

/// A bracketed class.
#[derive(Drop)]
pub struct BracketClass {
    /// Its members.
    pub set: Class,
    /// How deep it nests.
    pub depth: usize,
    /// Its literal characters.
    pub literals: Literals,
}

/// A single item: a character, an escape, a look, or a class.
#[derive(Drop)]
pub struct Item {
    /// Its tree.
    pub hir: Hir,
    /// How deep it nests.
    pub depth: usize,
    /// Its literal characters.
    pub literals: Literals,
}

/// What a parenthesis opens.
#[derive(Drop)]
pub enum Opening {
    /// A group with a number: `(`.
    Numbered,
    /// A group with a number and a name: `(?P<name>` or `(?<name>`.
    Named(Text),
    /// A group that doesn't capture, under these flags: `(?flags:`.
    Plain(Flags),
    /// No group: these flags hold to the end of the group that is open: `(?flags)`.
    Sets(Flags),
}

/// How often an item is repeated.
#[derive(Clone, Copy, Debug, PartialEq, Eq)]
pub struct Repetition {
    /// The least count.
    pub min: u32,
    /// The greatest count, if there is one.
    pub max: Option<u32>,
    /// Whether a `?` swaps its greed.
    pub swaps: bool,
}
