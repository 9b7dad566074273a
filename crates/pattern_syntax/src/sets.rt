//! Sets of characters, or of bytes where `u` is off.

ghost use Rattle.std.specs.Prelude.{◌≡◌, IfOk};
ghost use Rattle.hir_tree.specs.Tree.{tree_of};
ghost use Rattle.regex_class.specs.Ranges.{in_ranges};
ghost use Rattle.pattern_syntax.specs.Sets as sets;
ghost use Rattle.pattern_syntax.specs.Sets.{is_any};
ghost use Rattle.pattern_syntax.specs.Reads.{class_tree};
ghost use Rattle.pattern_syntax.specs.SetTree.{with_sets};
ghost use Rattle.pattern_syntax.specs.Readers.{IsSet};

mod cases;
mod categories;
mod names;
mod perl;

use crate::{Flags, class_of_bytes, class_of_characters};
pub use cases::{closed, folds_with_another};
pub use categories::category_set;
use hir_tree::Hir;
pub use names::ascii_set;
pub use perl::perl_set;
use regex_class::{Class, ClassRange};
use sd_base::NoMemory;
use std::alloc::Global;

const SCALARS: [ClassRange; 2] = [(0, 0xD7FF), (0xE000, 0x10_FFFF)];

const SURROGATES: [ClassRange; 1] = [(0xD800, 0xDFFF)];

const BYTES: [ClassRange; 1] = [(0, 0xFF)];

/// All characters, or with `u` off all bytes.
fn any(alloc: Global, flags: Flags) -> Result<Class, NoMemory>
    ensures { IfOk result (λ all. IsSet all (is_any flags)) }
{
    if flags.unicode {
        Ok(Class::from_ranges(alloc, &SCALARS)?)
    } else {
        Ok(Class::from_ranges(alloc, &BYTES)?)
    }
}

/// The characters among the numbers of some ranges.
fn characters_in(alloc: Global, ranges: Vec<ClassRange>) -> Result<Class, NoMemory>
    ensures { IfOk result (λ set. IsSet set (sets.characters (in_ranges ranges.items))) }
{
    let surrogates = Class::from_ranges(alloc, &SURROGATES)?;
    Ok(Class::new(ranges)?.difference(&surrogates)?)
}

/// All characters, or with `u` off all bytes, that aren't in the set. Refuses for want of memory alone.
pub fn complement(set: &Class, flags: Flags) -> Result<Class, NoMemory>
    ensures { IfOk result (λ others. IsSet others (sets.complement flags (in_ranges set.now.ranges.items))) }
{
    let all = any(*set.ranges.allocator(), flags)?;
    Ok(all.difference(set)?)
}

/// The class of a set, of characters, or with `u` off of bytes. Refuses for want of memory alone.
pub fn class_of(alloc: Global, set: &Class, flags: Flags) -> Result<Hir, NoMemory>
    ensures { IfOk result (λ hir. with_sets (tree_of hir) ≡ class_tree flags (in_ranges set.now.ranges.items)) }
{
    if flags.unicode {
        class_of_characters(alloc, set)
    } else {
        class_of_bytes(alloc, set)
    }
}
