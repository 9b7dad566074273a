//! Characters by their numbers: `\x`, `\u` and `\U`.

ghost use Rattle.std.specs.Prelude.{◌≡◌, ◌<◌, ◌==◌, if◌then◌else◌, true, false, IfOk, IfSome, IfNone};
ghost use Rattle.pattern_syntax.specs.Atom as atom;
ghost use Rattle.pattern_syntax.specs.Escapes.{IsEscapeLetter, IsKindRead, IsCoded, IsBraced, are_code, spelled_number};

use crate::spelling::{read_braced, read_spaced};
use crate::{Flags, Member};
use sd_base::NoMemory;
use std::alloc::Global;

/// The number of the last character.
const LAST: u32 = 0x10_FFFF;

/// How many digits follow the letter, if it comes with digits.
fn coded_length(letter: char) -> usize
    ensures { result ≡ atom.coded_length letter }
{
    match letter {
        'x' => 2,
        'u' => 4,
        'U' => 8,
        _ => 0,
    }
}

/// The character whose number hexadecimal digits spell, if they do.
fn character_of(digits: &[char]) -> Option<char>
    ensures found { IfSome result (λ c. (are_code digits.now ≡ true) × (spelled_number 0 digits.now ≡ c)) }
    ensures none { IfNone result (are_code digits.now ≡ false) }
{
    if digits.is_empty() {
        return None;
    }
    let mut number = 0;
    for digit in digits {
        number = number * 16 + digit.to_digit(16)?;
        if number > LAST {
            return None;
        }
    }
    char::from_u32(number)
}

/// What the letter and its digits stand for.
fn coded_member(letter: char, c: char) -> Member
    requires { letter ≡ 120 → c < 256 }
    ensures { result ≡ (if letter == 120 then Member.HexByte c else Member.Character c) }
{
    if letter == 'x' {
        Member::HexByte(c as u32 as u8)
    } else {
        Member::Character(c)
    }
}

/// The character of `\x`, `\u` or `\U` and two, four or eight digits. Refuses for want of memory alone.
pub(crate) fn read_code(
    alloc: Global,
    text: &[char],
    at: usize,
    letter: char,
    flags: Flags,
) -> Result<Option<(Member, usize)>, NoMemory>
    requires { IsEscapeLetter text.now at letter }
    ensures { IfOk result (IsKindRead IsCoded flags text.now at) }
{
    let count = coded_length(letter);
    let Some((digits, next)) = read_spaced(alloc, text, at + 2, count, flags)? else {
        return Ok(None);
    };
    let Some(c) = character_of(&digits) else {
        return Ok(None);
    };
    Ok(Some((coded_member(letter, c), next)))
}

/// The character of `\x`, `\u` or `\U` and digits in braces. Refuses for want of memory alone.
pub(crate) fn read_braced_code(
    alloc: Global,
    text: &[char],
    at: usize,
    letter: char,
    flags: Flags,
) -> Result<Option<(Member, usize)>, NoMemory>
    requires { IsEscapeLetter text.now at letter }
    ensures { IfOk result (IsKindRead IsBraced flags text.now at) }
{
    if coded_length(letter) == 0 {
        return Ok(None);
    }
    let Some((digits, next)) = read_braced(alloc, text, at + 2, flags)? else {
        return Ok(None);
    };
    let Some(c) = character_of(&digits) else {
        return Ok(None);
    };
    Ok(Some((Member::Character(c), next)))
}
