//! General categories: `\p` and `\P`.

ghost use Rattle.std.specs.Prelude.{◌≡◌, ◌==◌, true, false, IfOk, IfSome, IfNone, codes, is_some};
ghost use Rattle.pattern_syntax.specs.Flags.{has};
ghost use Rattle.pattern_syntax.specs.Sets as sets;
ghost use Rattle.pattern_syntax.specs.Readers.{IsSet};
ghost use Rattle.pattern_syntax.specs.Escapes.{IsEscapeLetter, IsKindRead, IsCategory, IsCategoryBraced};

use crate::spelling::{read_braced, read_spaced};
use crate::{Flags, Member, category_set, complement};
use regex_class::Class;
use sd_base::NoMemory;
use std::alloc::Global;

/// Whether a category follows the letter behind a `\`.
fn is_category_letter(letter: char) -> bool
    ensures { result ≡ has letter (codes "pP") }
{
    matches!(letter, 'p' | 'P')
}

/// The set of `\p` or `\P`, by the letter, and the name of a category, if one has the name. Refuses for want of memory alone.
fn named_set(
    alloc: Global,
    letter: char,
    name: &[char],
    flags: Flags,
) -> Result<Option<Class>, NoMemory>
    ensures found { IfOk result (λ found. IfSome found (λ set. IsSet set (sets.category_set flags (letter == 80) name.now) × (is_some (sets.category_named name.now) ≡ true))) }
    ensures none { IfOk result (λ found. IfNone found (is_some (sets.category_named name.now) ≡ false)) }
{
    let Some(set) = category_set(alloc, name, flags)? else {
        return Ok(None);
    };
    if letter != 'P' {
        return Ok(Some(set));
    }
    let others = complement(&set, flags)?;
    Ok(Some(others))
}

/// The set of `\p` or `\P` and the one letter of a category. Refuses for want of memory alone.
pub(crate) fn read_category(
    alloc: Global,
    text: &[char],
    at: usize,
    letter: char,
    flags: Flags,
) -> Result<Option<(Member, usize)>, NoMemory>
    requires { IsEscapeLetter text.now at letter }
    ensures { IfOk result (IsKindRead IsCategory flags text.now at) }
{
    if !flags.unicode || !is_category_letter(letter) {
        return Ok(None);
    }
    let Some((name, next)) = read_spaced(alloc, text, at + 2, 1, flags)? else {
        return Ok(None);
    };
    let Some(set) = named_set(alloc, letter, &name, flags)? else {
        return Ok(None);
    };
    Ok(Some((Member::Set(set), next)))
}

/// The set of `\p` or `\P` and the name of a category in braces. Refuses for want of memory alone.
pub(crate) fn read_braced_category(
    alloc: Global,
    text: &[char],
    at: usize,
    letter: char,
    flags: Flags,
) -> Result<Option<(Member, usize)>, NoMemory>
    requires { IsEscapeLetter text.now at letter }
    ensures { IfOk result (IsKindRead IsCategoryBraced flags text.now at) }
{
    if !flags.unicode || !is_category_letter(letter) {
        return Ok(None);
    }
    let Some((name, next)) = read_braced(alloc, text, at + 2, flags)? else {
        return Ok(None);
    };
    let Some(set) = named_set(alloc, letter, &name, flags)? else {
        return Ok(None);
    };
    Ok(Some((Member::Set(set), next)))
}
