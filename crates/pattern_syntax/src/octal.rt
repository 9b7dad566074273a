//! Characters by their octal numbers.

ghost use Rattle.std.specs.Prelude.{◌≡◌, ◌<◌, ◌≤◌, ℕ, false, IfSome, IfNone, drop, length};
ghost use Rattle.pattern_syntax.specs.Atom as atom;
ghost use Rattle.pattern_syntax.specs.Escapes.{IsEscapeLetter, IsKindRead, IsOctal, OctalDigitAt};

use crate::{Flags, Member};

/// The value of the octal digit at a place, if one stands there.
fn octal_digit(text: &[char], at: usize) -> Option<u32>
    requires { at ≤ length text.now }
    ensures found { IfSome result (λ value. OctalDigitAt text.now at value) }
    ensures none { IfNone result (atom.octal_next (drop at text.now) ≡ false) }
{
    if at == text.len() {
        return None;
    }
    let digit = text[at];
    if !('0'..='7').contains(&digit) {
        return None;
    }
    Some(digit as u32 - '0' as u32)
}

/// The character with a number of three octal digits at most.
fn octal_character(number: u32) -> Member
    requires { number < 512 }
    ensures { result ≡ Member.Character number }
{
    Member::Character(char::from_u32(number).unwrap())
}

/// The character of one to three octal digits, as many as stand there, where they stand for one.
pub(crate) fn read_octal(text: &[char], at: usize, flags: Flags) -> Option<(Member, usize)>
    requires { (letter : ℕ) × IsEscapeLetter text.now at letter }
    ensures { IsKindRead IsOctal flags text.now at result }
{
    if !flags.octal {
        return None;
    }
    let first = octal_digit(text, at + 1)?;
    let Some(second) = octal_digit(text, at + 2) else {
        return Some((octal_character(first), at + 2));
    };
    let Some(third) = octal_digit(text, at + 3) else {
        return Some((octal_character(first * 8 + second), at + 3));
    };
    Some((octal_character((first * 8 + second) * 8 + third), at + 4))
}
