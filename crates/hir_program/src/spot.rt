//! Programs of spots, to which patterns are compiled.

use hir_tree::{Look, SharedBytes, SharedChars};

/// A spot of a program. It does one thing and names the spot that comes next, by its number in the program. It takes 16 bytes: the
/// number stands before a set, and so no room is lost between them.
#[derive(Drop)]
pub enum Spot {
    /// Takes a byte of the set.
    Bytes { next: u32, set: SharedBytes },
    /// Takes the UTF-8 of a character of the set.
    Chars { next: u32, set: SharedChars },
    /// Goes on where the look holds.
    Look { look: Look, next: u32 },
    /// Goes on.
    Jump { next: u32 },
    /// Goes on both ways, the first preferred.
    Split { first: u32, second: u32 },
    /// Begins a capture group.
    Open { next: u32 },
    /// Ends the capture group with this index, the one that began last.
    Close { index: u32, next: u32 },
    /// Goes nowhere.
    Fail,
    /// Ends a match.
    Match,
}

const _: () = prove!(size_of::<Spot>() == 16);
