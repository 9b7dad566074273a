//! Items that are literal characters or sets.

ghost use Rattle.std.specs.Prelude.{◌≡◌, [], ◌∷◌, IfOk, encode_utf8, if◌then◌else◌};
ghost use Rattle.hir_tree.specs.Tree.{tree_of};
ghost use Rattle.regex_class.specs.Ranges.{in_ranges};
ghost use Rattle.pattern_syntax.specs.Atom as atom;
ghost use Rattle.pattern_syntax.specs.Class.{listed};
ghost use Rattle.pattern_syntax.specs.Syntax as syntax;
ghost use Rattle.pattern_syntax.specs.Reads.{at_depth, class_tree, single_part};
ghost use Rattle.pattern_syntax.specs.SetTree.{with_sets};
ghost use Rattle.pattern_syntax.specs.Readers.{HasLiterals, IsMember, part_of};
ghost use Rattle.pattern_syntax.specs.Singles as singles;

use crate::{Flags, Item, Literals, Member, class_of, closed, folds_with_another};
use hir_tree::{Bytes, Hir};
use regex_class::Class;
use sd_base::NoMemory;
use std::alloc::Global;
use unicode::properties::is_uppercase;

/// That no literal character stands there.
pub(crate) fn no_literals() -> Literals
    ensures { HasLiterals result [] }
{
    Literals {
        any: false,
        uppercase: false,
    }
}

/// That one literal character stands there.
fn one_literal(c: char) -> Literals
    ensures { HasLiterals result (c ∷ []) }
{
    Literals {
        any: true,
        uppercase: is_uppercase(c),
    }
}

/// The UTF-8 of a character. Refuses for want of memory alone.
pub(crate) fn bytes_of(alloc: Global, c: char) -> Result<Bytes, NoMemory>
    ensures { IfOk result (λ bytes. bytes ≡ encode_utf8 c) }
{
    let mut buffer = [0u8; 4];
    let text = c.encode_utf8(&mut buffer).as_bytes();
    let mut bytes = Bytes::new(alloc);
    for byte in text {
        bytes.push(*byte)?;
    }
    Ok(bytes)
}

/// The bytes of `\xHH`: the UTF-8 of that character, or with `u` off the one byte. Refuses for want of memory alone.
fn hex_bytes(alloc: Global, byte: u8, flags: Flags) -> Result<Bytes, NoMemory>
    ensures { IfOk result (λ bytes. bytes ≡ (if flags.unicode then encode_utf8 byte else byte ∷ [])) }
{
    if flags.unicode {
        return bytes_of(alloc, char::from(byte));
    }
    let mut bytes = Bytes::new(alloc);
    bytes.push(byte)?;
    Ok(bytes)
}

/// The item of a set, which nests so deep. Refuses for want of memory alone.
pub(crate) fn set_item(
    alloc: Global,
    set: &Class,
    depth: usize,
    literals: Literals,
    flags: Flags,
) -> Result<Item, NoMemory>
    ensures part { IfOk result (λ item. part_of item ≡ at_depth depth (class_tree flags (in_ranges set.now.ranges.items))) }
    ensures literals { IfOk result (λ item. item.literals ≡ literals) }
{
    let hir = class_of(alloc, set, flags)?;
    Ok(Item {
        hir,
        depth,
        literals,
    })
}

/// The tree of a literal character, or where it folds with another the class of all that do. Refuses for want of memory alone.
fn literal_tree(alloc: Global, c: char, bytes: Bytes, flags: Flags) -> Result<Hir, NoMemory>
    ensures { IfOk result (λ hir. with_sets (tree_of hir) ≡ singles.literal_tree flags c bytes) }
{
    if !flags.folds || !folds_with_another(c, flags) {
        return Ok(Hir::Literal(bytes));
    }
    let one = Class::from_ranges(alloc, &[(c as u32, c as u32)])?;
    let alike = closed(one, flags)?;
    class_of(alloc, &alike, flags)
}

/// The item of a literal character. Refuses for want of memory alone.
pub(crate) fn literal_item(
    alloc: Global,
    c: char,
    bytes: Bytes,
    flags: Flags,
) -> Result<Item, NoMemory>
    ensures part { IfOk result (λ item. part_of item ≡ at_depth 0 (singles.literal_tree flags c bytes)) }
    ensures literals { IfOk result (λ item. HasLiterals item.literals (c ∷ [])) }
{
    let hir = literal_tree(alloc, c, bytes, flags)?;
    Ok(Item {
        hir,
        depth: 0,
        literals: one_literal(c),
    })
}

/// The item of an escape. Refuses for want of memory alone.
pub(crate) fn member_item(alloc: Global, member: Member, flags: Flags) -> Result<Item, NoMemory>
    ensures part { IfOk result (λ item. (a : atom.Atom) → IsMember flags a member → part_of item ≡ single_part flags (syntax.atom a)) }
    ensures literals { IfOk result (λ item. (a : atom.Atom) → IsMember flags a member → HasLiterals item.literals (listed (atom.single_of a))) }
{
    match member {
        Member::Character(c) => {
            let bytes = bytes_of(alloc, c)?;
            literal_item(alloc, c, bytes, flags)
        }
        Member::HexByte(byte) => {
            let bytes = hex_bytes(alloc, byte, flags)?;
            literal_item(alloc, char::from(byte), bytes, flags)
        }
        Member::Set(set) => set_item(alloc, &set, 0, no_literals(), flags),
    }
}
