//! Repetitions.

ghost use Rattle.std.specs.Char.{is_ascii_digit};
ghost use Rattle.std.specs.Prelude.{◌≡◌, ◌<◌, ◌≤◌, true, IfOk, SomeIff, drop, length, ◌^◌};
ghost use Rattle.pattern_syntax.specs.Flags.{begins};
ghost use Rattle.pattern_syntax.specs.Readers.{IsRepetitionRead};
ghost use Rattle.pattern_syntax.specs.CountReaders.{IsNumberRead, IsCountRead, IsSwapRead};
ghost use Rattle.std.specs.List.{list_all};
ghost use Rattle.std.specs.Str.Parse.{digits_value};

use crate::blanks::behind_blanks;
use crate::runs::{CharKind, behind, is_next};
use crate::{Flags, Repetition};
use sd_base::NoMemory;

/// How often an item is repeated, as an operator says it.
#[derive(Clone, Copy)]
pub(crate) struct Counted {
    /// The least count.
    min: u32,
    /// The greatest count, if there is one.
    max: Option<u32>,
    /// Whether it is written in braces.
    braced: bool,
    /// The place behind it.
    next: usize,
}

/// The number that digits spell, if it is below 2^32.
fn number_of(digits: &[char]) -> Option<u32>
    requires { list_all is_ascii_digit digits.now ≡ true }
    ensures { SomeIff result (digits_value 10 digits.now < 2 ^ 32) (digits_value 10 digits.now) }
{
    let mut number: u32 = 0;
    for digit in digits {
        number = number.checked_mul(10)?.checked_add(digit.to_digit(10)?)?;
    }
    Some(number)
}

/// The number that comes next, with the white space round it, and the place behind that.
fn read_number(text: &[char], at: usize) -> Option<(u32, usize)>
    requires { at ≤ length text.now }
    ensures { IsNumberRead text.now at result }
{
    let start = behind(text, at, CharKind::White);
    let end = behind(text, start, CharKind::Digit);
    if start == end {
        return None;
    }
    let number = number_of(&text[start..end])?;
    Some((number, behind(text, end, CharKind::White)))
}

/// The count in braces that comes next.
fn read_braces(text: &[char], at: usize) -> Option<Counted>
    requires { begins 123 (drop at text.now) ≡ true }
    ensures { IsCountRead text.now at result }
{
    let (min, place) = read_number(text, at + 1)?;
    if is_next(text, place, '}') {
        return Some(Counted {
            min,
            max: Some(min),
            braced: true,
            next: place + 1,
        });
    }
    if !is_next(text, place, ',') {
        return None;
    }
    if is_next(text, place + 1, '}') {
        return Some(Counted {
            min,
            max: None,
            braced: true,
            next: place + 2,
        });
    }
    let (max, end) = read_number(text, place + 1)?;
    if max < min {
        return None;
    }
    if !is_next(text, end, '}') {
        return None;
    }
    Some(Counted {
        min,
        max: Some(max),
        braced: true,
        next: end + 1,
    })
}

/// The count that comes next.
fn read_count(text: &[char], at: usize) -> Option<Counted>
    requires { at ≤ length text.now }
    ensures { IsCountRead text.now at result }
{
    if at == text.len() {
        return None;
    }
    let next = at + 1;
    match text[at] {
        '?' => Some(Counted {
            min: 0,
            max: Some(1),
            braced: false,
            next,
        }),
        '*' => Some(Counted {
            min: 0,
            max: None,
            braced: false,
            next,
        }),
        '+' => Some(Counted {
            min: 1,
            max: None,
            braced: false,
            next,
        }),
        '{' => read_braces(text, at),
        _ => None,
    }
}

/// Whether a `?` comes next, behind white space where that is passed over, and the place behind it, or this place.
fn read_swap(text: &[char], at: usize, spaces: bool) -> (bool, usize)
    requires { at ≤ length text.now }
    ensures { IsSwapRead spaces text.now at result }
{
    let mark = behind_blanks(text, at, spaces);
    if is_next(text, mark, '?') {
        (true, mark + 1)
    } else {
        (false, at)
    }
}

/// The repetition that comes next at a place, white space before it too where that is passed over, and the place behind it, if one does.
/// Refuses for want of memory alone.
pub fn read_repetition(
    text: &[char],
    at: usize,
    flags: Flags,
) -> Result<Option<(Repetition, usize)>, NoMemory>
    requires { at ≤ length text.now }
    ensures { IfOk result (IsRepetitionRead flags text.now at) }
{
    let start = behind_blanks(text, at, flags.spaces);
    match read_count(text, start) {
        Some(count) => {
            let (swaps, next) = read_swap(text, count.next, count.braced && flags.spaces);
            let repetition = Repetition {
                min: count.min,
                max: count.max,
                swaps,
            };
            Ok(Some((repetition, next)))
        }
        None => Ok(None),
    }
}
