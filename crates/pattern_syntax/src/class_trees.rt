//! Sets as classes of patterns.

ghost use Rattle.std.specs.Prelude.{◌≡◌, ◌<◌, ◌↔◌, ◌⊎◌, ◌&&◌, IfOk, IsTrue, ℕ, OnOk, nat_lt};
ghost use Rattle.std.specs.Char.{IsScalar};
ghost use Rattle.regex_class.specs.Ranges.{in_ranges};
ghost use Rattle.hir_tree.specs.Ranges.{Holds, IsWithin};
ghost use Rattle.hir_tree.specs.Tree.{tree_of};
ghost use Rattle.pattern_syntax.specs.SetTree as set_tree;
ghost use Rattle.pattern_syntax.specs.SetTree.{with_sets};
ghost use Rattle.pattern_syntax.specs.Sets.{is_scalar};

use hir_tree::{ByteRanges, CharRanges, Hir};
use regex_class::Class;
use sd_base::NoMemory;
use std::alloc::Global;

/// Adds the characters of a range of numbers. Refuses for want of memory alone.
fn add_characters(chars: &mut CharRanges, start: u32, end: u32) -> Result<(), NoMemory>
    ensures { OnOk result ((c : ℕ) → IsScalar c → Holds chars.new c ↔ (Holds chars.old c ⊎ IsWithin (start, end) c)) }
{
    let first = if start < 0xD800 || start > 0xDFFF {
        start
    } else {
        0xE000
    };
    let last = if end < 0xD800 {
        end
    } else if end < 0xE000 {
        0xD7FF
    } else {
        end.min(0x10_FFFF)
    };
    if first > last {
        return Ok(());
    }
    let (Some(low), Some(high)) = (char::from_u32(first), char::from_u32(last)) else {
        return Ok(());
    };
    chars.add(low, high)
}

/// Adds the bytes of a range of numbers. Refuses for want of memory alone.
fn add_bytes(bytes: &mut ByteRanges, start: u32, end: u32) -> Result<(), NoMemory>
    ensures { OnOk result ((b : ℕ) → b < 256 → Holds bytes.new b ↔ (Holds bytes.old b ⊎ IsWithin (start, end) b)) }
{
    let last = end.min(0xFF);
    if start > last {
        return Ok(());
    }
    bytes.add(start as u8, last as u8)
}

/// The characters among the numbers of a set. Refuses for want of memory alone.
pub fn characters(alloc: Global, class: &Class) -> Result<CharRanges, NoMemory>
    ensures { IfOk result (λ chars. (c : ℕ) → IsScalar c → Holds chars c ↔ IsTrue (in_ranges class.now.ranges.items c)) }
{
    let mut chars = CharRanges::new(alloc);
    let ranges: &[(u32, u32)] = &class.ranges;
    for i in 0..ranges.len() {
        let (start, end) = ranges[i];
        add_characters(&mut chars, start, end)?;
    }
    Ok(chars)
}

/// The bytes among the numbers of a set. Refuses for want of memory alone.
pub fn bytes(alloc: Global, class: &Class) -> Result<ByteRanges, NoMemory>
    ensures { IfOk result (λ bytes. (b : ℕ) → b < 256 → Holds bytes b ↔ IsTrue (in_ranges class.now.ranges.items b)) }
{
    let mut bytes = ByteRanges::new(alloc);
    let ranges: &[(u32, u32)] = &class.ranges;
    for i in 0..ranges.len() {
        let (start, end) = ranges[i];
        add_bytes(&mut bytes, start, end)?;
    }
    Ok(bytes)
}

/// The class of the characters among the numbers of a set. Refuses for want of memory alone.
pub fn class_of_characters(alloc: Global, class: &Class) -> Result<Hir, NoMemory>
    ensures { IfOk result (λ hir. with_sets (tree_of hir) ≡ set_tree.chars (λ c. is_scalar c && in_ranges class.now.ranges.items c)) }
{
    Ok(Hir::ClassChars(characters(alloc, class)?))
}

/// The class of the bytes among the numbers of a set. Refuses for want of memory alone.
pub fn class_of_bytes(alloc: Global, class: &Class) -> Result<Hir, NoMemory>
    ensures { IfOk result (λ hir. with_sets (tree_of hir) ≡ set_tree.bytes (λ b. nat_lt b 256 && in_ranges class.now.ranges.items b)) }
{
    Ok(Hir::ClassBytes(bytes(alloc, class)?))
}
