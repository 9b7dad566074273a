//! Taking bytes out of patterns.

ghost use Rattle.std.specs.Prelude.{◌≡◌, ◌↔◌, ◌⊎◌, ◌<◌, ◌≤◌, ◌==◌, ◌∷◌, [], ℕ, All, List, Some, None, true, false, IfOk, IfErr, IfSome, IfNone, MatchResult, OnOk, length, filter, map};
ghost use Rattle.std.specs.Bool.{OnFalse};
ghost use Rattle.std.specs.Char.{IsScalar};
ghost use Rattle.std.specs.List.{list_any};
ghost use Rattle.grep_matcher.specs.Terminators.{terminator_bytes};
ghost use Rattle.hir_tree.specs.Cores.{core_of};
ghost use Rattle.hir_tree.specs.Ranges.{AreByteRanges, AreCharRanges, Holds};
ghost use Rattle.hir_tree.specs.Runs.{Run, runs};
ghost use Rattle.hir_tree.specs.Tree.{tree_of};
ghost use Rattle.grep_regex.specs.Building.{IsAscii, IsBeyondAscii, IsStripRefused};
ghost use Rattle.grep_regex.specs.Exact.{IsTidy, MustTake};
ghost use Rattle.grep_regex.specs.Stripping.{asks_for, beside, is_alone, is_clear, not_allowed, strip_byte, stripped, without};
ghost use Rattle.grep_regex.specs.declared.error.ErrorKind.TheVariants as kind;

use crate::{Error, ErrorKind};
use grep_matcher::LineTerminator;
use hir_core::{
    ByteRanges, Bytes, CharRanges, Group, Hir, Hirs, Repeat, a_set_has_one_list_of_ranges,
    a_tree_is_made_of_the_trees_of_the_parts,
};
use sd_base::NoMemory;
use std::alloc::Global;

/// Refuses a pattern that must match a byte: where a literal holds it, or a class is that one byte.
pub fn check_ban(hir: &Hir, byte: u8) -> Result<(), Error>
    requires ascii { byte < 128 }
    ensures unbanned { OnOk result (asks_for byte (tree_of hir.now) ≡ false) }
    ensures banned { IfErr result (λ error. error.kind ≡ kind.Banned byte) }
    ensures asked { IfErr result (λ _. asks_for byte (tree_of hir.now) ≡ true) }
    ensures rule { MatchResult result (λ _. MustTake (byte ∷ []) (tree_of hir.now) → ⊥) (λ _. MustTake (byte ∷ []) (tree_of hir.now)) }
{
    if asks_for(hir, byte) {
        return Err(Error::new(ErrorKind::Banned(byte)));
    }
    Ok(())
}

/// Takes the bytes of a terminator out of the classes of a pattern, so that no match holds one of them.
///
/// An empty class stays. It is refused where a byte of the terminator isn't ASCII, and where the pattern must match one: a literal
/// holds it, or a class that isn't empty holds nothing but bytes of the terminator. Of `\r\n` first `\r` is taken out, then `\n`.
/// What is left matches what the pattern matched without a byte of the terminator, in the same order and with the same groups.
pub fn strip_from_match(alloc: Global, hir: Hir, line_term: LineTerminator) -> Result<Hir, Error>
    ensures stripped { IfOk result (λ new. tree_of new ≡ stripped (terminator_bytes line_term) (tree_of hir)) }
    ensures ascii { OnOk result (IsAscii (terminator_bytes line_term)) }
    ensures allowed { OnOk result (not_allowed (terminator_bytes line_term) (tree_of hir) ≡ None) }
    ensures clear { IfOk result (λ new. (text : List ℕ) (n : ℕ) (r : Run) → r.at ≤ length text
        → runs text (core_of new) n r ≡ filter (λ s. is_clear (terminator_bytes line_term) text r.at s.at) (runs text (core_of hir) n r)) }
    ensures rule { OnOk result (MustTake (terminator_bytes line_term) (tree_of hir) → ⊥) }
    ensures refused { IfErr result (λ error. IsStripRefused (terminator_bytes line_term) (tree_of hir) error.kind) }
{
    let bytes = line_term.as_bytes();
    if let Some(byte) = first_beyond_ascii(bytes) {
        return Err(Error::new(ErrorKind::InvalidLineTerminator(byte)));
    }
    strip(alloc, hir, bytes)
}

/// The first of the bytes that isn't ASCII.
pub(crate) fn first_beyond_ascii(bytes: &[u8]) -> Option<u8>
    ensures beyond { IfSome result (IsBeyondAscii bytes.now) }
    ensures ascii { IfNone result (IsAscii bytes.now) }
{
    bytes.iter().copied().find(|byte| !byte.is_ascii())
}

/// Takes ASCII bytes out of the classes of a pattern, one after another. It is refused where the pattern must match one.
fn strip(alloc: Global, mut hir: Hir, bytes: &[u8]) -> Result<Hir, Error>
    requires ascii { IsAscii bytes.now }
    ensures stripped { IfOk result (λ new. tree_of new ≡ stripped bytes.now (tree_of hir)) }
    ensures allowed { OnOk result (not_allowed bytes.now (tree_of hir) ≡ None) }
    ensures sorted { OnOk result (0 < length bytes.now → IsTidy (tree_of hir)) }
    ensures refused { IfErr result (λ error. IsStripRefused bytes.now (tree_of hir) error.kind) }
{
    for byte in bytes {
        if asks_for(&hir, *byte) {
            return Err(Error::new(ErrorKind::NotAllowed(*byte)));
        }
        hir = without_byte(alloc, hir, *byte)?;
    }
    Ok(hir)
}

// ---- what a pattern must match

/// Whether a part of a pattern must match a byte: a literal holds it, or a class is that one byte.
#[cycle(asks)]
fn asks_for(hir: &Hir, byte: u8) -> bool
    ensures asks { result ≡ asks_for byte (tree_of hir.now) }
    ensures sorted { OnFalse result (IsTidy (tree_of hir.now)) }
{
    a_tree_is_made_of_the_trees_of_the_parts();
    match hir {
        Hir::Empty | Hir::Look(_) => false,
        Hir::Literal(bytes) => holds_byte(bytes, byte),
        Hir::ClassChars(set) => is_one_char(set, byte),
        Hir::ClassBytes(set) => is_one_byte(set, byte),
        Hir::Repetition(repeat) => asks_for(&repeat.sub, byte),
        Hir::Capture(group) => asks_for(&group.sub, byte),
        Hir::Concat(hirs) | Hir::Alternation(hirs) => one_asks_for(hirs.parts(), byte),
    }
}

/// Whether one of the parts must match a byte.
#[cycle(asks)]
fn one_asks_for(parts: &[Hir], byte: u8) -> bool
    ensures asks { result ≡ list_any (λ part. asks_for byte (tree_of part)) parts.now }
    ensures sorted { OnFalse result (All (λ part. IsTidy (tree_of part)) parts.now) }
{
    for part in parts {
        if asks_for(part, byte) {
            return true;
        }
    }
    false
}

/// Whether a literal holds a byte.
fn holds_byte(bytes: &Bytes, byte: u8) -> bool
    ensures { result ≡ list_any (λ c. c == byte) bytes.now }
{
    for i in 0..bytes.len() {
        if bytes.get(i) == byte {
            return true;
        }
    }
    false
}

/// Whether a set is the character with the number of a byte, alone.
fn is_one_char(set: &CharRanges, byte: u8) -> bool
    ensures alone { result ≡ is_alone byte set.now }
    ensures sorted { AreCharRanges set.now }
{
    if set.len() != 1 {
        return false;
    }
    let (start, end) = set.get(0);
    u32::from(start) == u32::from(byte) && u32::from(end) == u32::from(byte)
}

/// Whether a set is one byte alone.
fn is_one_byte(set: &ByteRanges, byte: u8) -> bool
    ensures alone { result ≡ is_alone byte set.now }
    ensures sorted { AreByteRanges set.now }
{
    if set.len() != 1 {
        return false;
    }
    let (start, end) = set.get(0);
    start == byte && end == byte
}

/// Shows that the classes of a tree are sorted ranges that neither meet nor touch: each class says so of its ranges.
#[cycle(sorted)]
pub(crate) fn show_sorted_classes(hir: &Hir)
    ensures { IsTidy (tree_of hir.now) }
{
    a_tree_is_made_of_the_trees_of_the_parts();
    match hir {
        Hir::Empty | Hir::Literal(_) | Hir::Look(_) => {}
        Hir::ClassChars(set) => {
            set.len();
        }
        Hir::ClassBytes(set) => {
            set.len();
        }
        Hir::Repetition(repeat) => show_sorted_classes(&repeat.sub),
        Hir::Capture(group) => show_sorted_classes(&group.sub),
        Hir::Concat(hirs) | Hir::Alternation(hirs) => show_sorted_classes_of_each(hirs.parts()),
    }
}

/// Shows the same of each part.
#[cycle(sorted)]
fn show_sorted_classes_of_each(parts: &[Hir])
    ensures { All (λ part. IsTidy (tree_of part)) parts.now }
{
    for part in parts {
        show_sorted_classes(part);
    }
}

// ---- patterns without a byte

/// A pattern with an ASCII byte taken out of its classes. Refuses for want of memory alone.
#[cycle(without)]
fn without_byte(alloc: Global, hir: Hir, byte: u8) -> Result<Hir, NoMemory>
    requires ascii { byte < 128 }
    ensures { IfOk result (λ rest. tree_of rest ≡ strip_byte byte (tree_of hir)) }
{
    a_tree_is_made_of_the_trees_of_the_parts();
    match hir {
        Hir::Empty => Ok(Hir::Empty),
        Hir::Literal(bytes) => Ok(Hir::Literal(bytes)),
        Hir::ClassChars(set) => Ok(Hir::ClassChars(without_char(alloc, &set, byte)?)),
        Hir::ClassBytes(set) => Ok(Hir::ClassBytes(without_one_byte(alloc, &set, byte)?)),
        Hir::Look(look) => Ok(Hir::Look(look)),
        Hir::Repetition(repeat) => {
            let sub = without_byte(alloc, Box::into_inner(repeat.sub), byte)?;
            Ok(Hir::Repetition(Repeat {
                min: repeat.min,
                max: repeat.max,
                greedy: repeat.greedy,
                sub: Box::new(alloc, sub)?,
            }))
        }
        Hir::Capture(group) => {
            let sub = without_byte(alloc, Box::into_inner(group.sub), byte)?;
            Ok(Hir::Capture(Group {
                index: group.index,
                name: group.name,
                sub: Box::new(alloc, sub)?,
            }))
        }
        Hir::Concat(hirs) => {
            let parts = each_without_byte(alloc, hirs.into_parts(), byte)?;
            Ok(Hir::Concat(Hirs::from(parts)))
        }
        Hir::Alternation(hirs) => {
            let parts = each_without_byte(alloc, hirs.into_parts(), byte)?;
            Ok(Hir::Alternation(Hirs::from(parts)))
        }
    }
}

/// The parts with an ASCII byte taken out of their classes. Refuses for want of memory alone.
#[cycle(without)]
fn each_without_byte(alloc: Global, parts: Vec<Hir>, byte: u8) -> Result<Vec<Hir>, NoMemory>
    requires ascii { byte < 128 }
    ensures { IfOk result (λ rest. map tree_of rest.items ≡ map (λ part. strip_byte byte (tree_of part)) parts.items) }
{
    let mut rest = Vec::new(alloc);
    for part in parts {
        rest.push(without_byte(alloc, part, byte)?)?;
    }
    Ok(rest)
}

/// A set without an ASCII character. Refuses for want of memory alone.
fn without_char(alloc: Global, set: &CharRanges, byte: u8) -> Result<CharRanges, NoMemory>
    requires ascii { byte < 128 }
    ensures { IfOk result (λ rest. rest ≡ without byte set.now) }
{
    a_set_has_one_list_of_ranges();
    let mut rest = CharRanges::new(alloc);
    for i in 0..set.len() {
        let (start, end) = set.get(i);
        add_chars_beside(&mut rest, start, end, byte)?;
    }
    Ok(rest)
}

/// Adds what is left of a range without an ASCII character. Refuses for want of memory alone.
fn add_chars_beside(set: &mut CharRanges, start: char, end: char, byte: u8) -> Result<(), NoMemory>
    requires ascii { byte < 128 }
    requires order { start ≤ end }
    ensures apart { AreCharRanges set.old → AreCharRanges set.new }
    ensures added { OnOk result ((c : ℕ) → IsScalar c → Holds set.new c ↔ (Holds set.old c ⊎ Holds (beside byte (start, end)) c)) }
{
    if u32::from(start) < u32::from(byte) {
        set.add(start, end.min(char::from(byte - 1)))?;
    }
    if u32::from(byte) < u32::from(end) {
        set.add(start.max(char::from(byte + 1)), end)?;
    }
    Ok(())
}

/// A set without a byte. Refuses for want of memory alone.
fn without_one_byte(alloc: Global, set: &ByteRanges, byte: u8) -> Result<ByteRanges, NoMemory>
    ensures { IfOk result (λ rest. rest ≡ without byte set.now) }
{
    a_set_has_one_list_of_ranges();
    let mut rest = ByteRanges::new(alloc);
    for i in 0..set.len() {
        let (start, end) = set.get(i);
        add_bytes_beside(&mut rest, start, end, byte)?;
    }
    Ok(rest)
}

/// Adds what is left of a range without a byte. Refuses for want of memory alone.
fn add_bytes_beside(set: &mut ByteRanges, start: u8, end: u8, byte: u8) -> Result<(), NoMemory>
    requires order { start ≤ end }
    ensures apart { AreByteRanges set.old → AreByteRanges set.new }
    ensures added { OnOk result ((b : ℕ) → Holds set.new b ↔ (Holds set.old b ⊎ Holds (beside byte (start, end)) b)) }
{
    if start < byte {
        set.add(start, end.min(byte - 1))?;
    }
    if byte < end {
        set.add(start.max(byte + 1), end)?;
    }
    Ok(())
}
