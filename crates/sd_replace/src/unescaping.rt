//! Escapes of a replacement text.

ghost use Rattle.std.specs.Prelude.{◌≡◌, ◌≤◌, ◌<◌, IfOk, length};
ghost use Rattle.sd_replace.specs.Unescaped as form;

use sd_base::{NoMemory, Text};
use std::alloc::Global;

/// What an escape stands for.
#[derive(Clone, Copy)]
pub struct Escape {
    /// Its character.
    character: char,
    /// How many characters it takes behind its `\`.
    width: usize,
}

/// A replacement text with each escape replaced by its character. `None` where an escape isn't one of these:
///
/// - `\b`, `\f`, `\n`, `\r`, `\t`, `\'`, `\"` and `\\`;
/// - `\x` and two hexadecimal digits, `\u` and four, which are the number of a character;
/// - `\` and three octal digits that begin with 0 to 3, or else two.
///
/// Refuses for want of memory alone. `a\tb` becomes `a`, a tab and `b`, and `\q` is none.
pub fn unescape(alloc: Global, s: &str) -> Result<Option<Text>, NoMemory>
    ensures { IfOk result (λ text. text ≡ form.unescaped s.now) }
{
    let characters: Vec<char> = s.chars().collect(alloc)?;
    unescape_characters(alloc, &characters)
}

/// The text of characters with each escape replaced. Refuses for want of memory alone.
fn unescape_characters(alloc: Global, characters: &[char]) -> Result<Option<Text>, NoMemory>
    ensures { IfOk result (λ text. text ≡ form.unescaped_characters characters.now) }
{
    let mut plain = String::new(alloc);
    let mut at = 0;
    while at < characters.len() {
        let Some(read) = read_at(characters[at], &characters[at + 1..]) else {
            return Ok(None);
        };
        plain.push(read.character)?;
        at += 1 + read.width;
    }
    Ok(Some(Text::from(plain)))
}

/// What the first character of a text stands for, with how many behind it.
fn read_at(first: char, text: &[char]) -> Option<Escape>
    ensures { result ≡ form.read_at first text.now }
{
    if first == '\\' {
        escape_at(text)
    } else {
        Some(Escape {
            character: first,
            width: 0,
        })
    }
}

/// What the characters behind a `\` stand for.
fn escape_at(text: &[char]) -> Option<Escape>
    ensures { result ≡ form.escape_at text.now }
{
    match text.first() {
        Some(letter) => escape_of(*letter, text),
        None => None,
    }
}

/// What characters behind a `\` stand for that begin with this letter.
fn escape_of(letter: char, text: &[char]) -> Option<Escape>
    requires { 0 < length text.now }
    ensures { result ≡ form.escape_of letter text.now }
{
    match letter {
        'u' => read_as(5, spelled(16, 4, &text[1..])),
        'x' => read_as(3, spelled(16, 2, &text[1..])),
        '0'..='7' => octal(letter, text),
        _ => read_as(1, lettered(letter)),
    }
}

/// A character that is read, where there is one.
fn read_as(width: usize, character: Option<char>) -> Option<Escape>
    ensures { result ≡ form.read_as width character }
{
    Some(Escape {
        character: character?,
        width,
    })
}

/// The character of a letter behind a `\`.
fn lettered(letter: char) -> Option<char>
    ensures { result ≡ form.lettered letter }
{
    match letter {
        'b' => Some('\u{8}'),
        'f' => Some('\u{c}'),
        'n' => Some('\n'),
        'r' => Some('\r'),
        't' => Some('\t'),
        '\'' | '"' | '\\' => Some(letter),
        _ => None,
    }
}

/// The character of three octal digits that begin with 0 to 3, or else of two.
fn octal(first: char, text: &[char]) -> Option<Escape>
    ensures { result ≡ form.octal first text.now }
{
    match three_octal(first, text) {
        Some(read) => Some(read),
        None => read_as(2, spelled(8, 2, text)),
    }
}

/// The character of three octal digits that begin with 0 to 3.
fn three_octal(first: char, text: &[char]) -> Option<Escape>
    ensures { result ≡ form.three_octal first text.now }
{
    if first > '3' {
        return None;
    }
    read_as(3, spelled(8, 3, text))
}

/// The character whose number so many digits spell at the front of a text.
fn spelled(radix: u32, count: usize, text: &[char]) -> Option<char>
    requires lower_bound { 2 ≤ radix }
    requires upper_bound { radix ≤ 16 }
    requires few { count ≤ 4 }
    ensures { result ≡ form.spelled radix count text.now }
{
    if count > text.len() {
        return None;
    }
    char::from_u32(number(radix, &text[..count])?)
}

/// The number that digits spell.
fn number(radix: u32, digits: &[char]) -> Option<u32>
    requires lower_bound { 2 ≤ radix }
    requires upper_bound { radix ≤ 16 }
    requires few { length digits.now ≤ 4 }
    ensures { result ≡ form.number radix digits.now }
{
    let mut number = 0;
    for digit in digits {
        number = number * radix + digit.to_digit(radix)?;
    }
    Some(number)
}
