//! Sets closed under folding, and whether a character folds with another.

ghost use Rattle.std.specs.Char.{is_ascii_lowercase, is_ascii_uppercase};
ghost use Rattle.std.specs.Prelude.{◌≡◌, ◌+◌, ◌-◌, ◌&&◌, ◌||◌, ℕ, IfOk, OnOk};
ghost use Rattle.regex_class.specs.Ranges.{in_range, in_ranges};
ghost use Rattle.pattern_syntax.specs.Sets as sets;
ghost use Rattle.pattern_syntax.specs.Readers.{IsSet};

use crate::{Flags, folded};
use regex_class::{Class, ClassRange};
use sd_base::NoMemory;

/// Adds the lower case of the upper case letters of ASCII in a range.
fn add_lower_case(ranges: &mut Vec<ClassRange>, range: ClassRange) -> Result<(), NoMemory>
    ensures { OnOk result ((c : ℕ) → in_ranges ranges.new.items c ≡ (in_ranges ranges.old.items c || (is_ascii_lowercase c && in_range range (c - 32)))) }
{
    let (first, last) = (range.0.max(0x41), range.1.min(0x5A));
    if first <= last {
        ranges.push((first + 0x20, last + 0x20))?;
    }
    Ok(())
}

/// Adds the upper case of the lower case letters of ASCII in a range.
fn add_upper_case(ranges: &mut Vec<ClassRange>, range: ClassRange) -> Result<(), NoMemory>
    ensures { OnOk result ((c : ℕ) → in_ranges ranges.new.items c ≡ (in_ranges ranges.old.items c || (is_ascii_uppercase c && in_range range (c + 32)))) }
{
    let (first, last) = (range.0.max(0x61), range.1.min(0x7A));
    if first <= last {
        ranges.push((first - 0x20, last - 0x20))?;
    }
    Ok(())
}

/// The set with the other case of each of its ASCII letters.
fn with_cases(set: &Class) -> Result<Class, NoMemory>
    ensures { IfOk result (λ closed. IsSet closed (sets.with_cases (in_ranges set.now.ranges.items))) }
{
    let own: &[ClassRange] = &set.ranges;
    let mut ranges = Vec::from_slice(*set.ranges.allocator(), own)?;
    for i in 0..own.len() {
        add_lower_case(&mut ranges, own[i])?;
        add_upper_case(&mut ranges, own[i])?;
    }
    Ok(Class::new(ranges)?)
}

/// The set closed under folding, where characters fold. Refuses for want of memory alone.
pub fn closed(set: Class, flags: Flags) -> Result<Class, NoMemory>
    ensures { IfOk result (λ closed. IsSet closed (sets.closed flags (in_ranges set.ranges.items))) }
{
    if !flags.folds {
        Ok(set)
    } else if flags.unicode {
        folded(&set)
    } else {
        with_cases(&set)
    }
}

/// Whether the character folds with another.
pub fn folds_with_another(c: char, flags: Flags) -> bool
    ensures { result ≡ sets.folds_with_another flags c }
{
    if flags.unicode {
        let pairs = ucd_case::fold_pairs();
        pairs
            .binary_search_by_key(&(c as u32), |pair| pair.0)
            .is_ok()
    } else {
        c.is_ascii_alphabetic()
    }
}
