//! Sets that have a name in `[: :]`, and how names are looked up.

ghost use Rattle.std.specs.Prelude.{◌≡◌, true, false, map, None, IfOk, IfSome, IfNone, MatchOption, IsSomeAnd, is_some};
ghost use Rattle.regex_class.specs.Ranges.{HasExactly, in_ranges};
ghost use Rattle.pattern_syntax.specs.Sets as sets;
ghost use Rattle.pattern_syntax.specs.Sets.{same_text};
ghost use Rattle.pattern_syntax.specs.Readers.{IsSet};

use regex_class::{Class, ClassRange};
use sd_base::NoMemory;
use std::alloc::Global;

const ASCII_SETS: [(&str, &[ClassRange]); 14] = [
    ("alnum", &[(0x30, 0x39), (0x41, 0x5A), (0x61, 0x7A)]),
    ("alpha", &[(0x41, 0x5A), (0x61, 0x7A)]),
    ("ascii", &[(0x00, 0x7F)]),
    ("blank", &[(0x09, 0x09), (0x20, 0x20)]),
    ("cntrl", &[(0x00, 0x1F), (0x7F, 0x7F)]),
    ("digit", &[(0x30, 0x39)]),
    ("graph", &[(0x21, 0x7E)]),
    ("lower", &[(0x61, 0x7A)]),
    ("print", &[(0x20, 0x7E)]),
    (
        "punct",
        &[(0x21, 0x2F), (0x3A, 0x40), (0x5B, 0x60), (0x7B, 0x7E)],
    ),
    ("space", &[(0x09, 0x0D), (0x20, 0x20)]),
    ("upper", &[(0x41, 0x5A)]),
    (
        "word",
        &[(0x30, 0x39), (0x41, 0x5A), (0x5F, 0x5F), (0x61, 0x7A)],
    ),
    ("xdigit", &[(0x30, 0x39), (0x41, 0x46), (0x61, 0x66)]),
];

/// Whether a text is this word of ASCII.
fn spells(text: &[char], word: &str) -> bool
    ensures { result ≡ same_text word.now text.now }
{
    let word = word.as_bytes();
    if text.len() != word.len() {
        return false;
    }
    for i in 0..text.len() {
        if text[i] as u32 != u32::from(word[i]) {
            return false;
        }
    }
    true
}

/// The value in the first row with a name.
pub(crate) fn value_of<V: Copy>(mut rows: &[(&str, V)], name: &[char]) -> Option<V>
    ensures { result ≡ sets.value_of (map (λ row. (row.0.now, row.1)) rows.entry.now) name.now }
{
    while let [row, rest @ ..] = rows {
        if spells(name, row.0) {
            return Some(row.1);
        }
        rows = rest;
    }
    None
}

/// The set of the ranges in the first row with a name.
fn set_named(
    alloc: Global,
    rows: &[(&str, &[ClassRange])],
    name: &[char],
) -> Result<Option<Class>, NoMemory>
    ensures { IfOk result (λ found.
        let ranges = sets.value_of (map (λ row. (row.0.now, row.1.now)) rows.now) name.now in
        MatchOption found (ranges ≡ None) (λ set. IsSomeAnd ranges (λ own. HasExactly set.ranges.items (in_ranges own)))) }
{
    match value_of(rows, name) {
        Some(ranges) => Ok(Some(Class::from_ranges(alloc, ranges)?)),
        None => Ok(None),
    }
}

/// The set that has a name in `[: :]`; none where no set has the name. Refuses for want of memory alone.
pub fn ascii_set(alloc: Global, name: &[char]) -> Result<Option<Class>, NoMemory>
    ensures found { IfOk result (λ found. IfSome found (λ set. IsSet set (sets.ascii_set name.now) × (is_some (sets.value_of sets.ascii_names name.now) ≡ true))) }
    ensures none { IfOk result (λ found. IfNone found (is_some (sets.value_of sets.ascii_names name.now) ≡ false)) }
{
    set_named(alloc, &ASCII_SETS, name)
}
