//! Patterns for tests, written as a row of signs.

use hir_core::{ByteRanges, Bytes, CharRanges, Group, Hir, Hirs, Look, Repeat};
use sd_base::NoMemory;
use std::alloc::Global;

/// The pattern of a row of signs, each part before the sign of what is made of it:
///
/// - `0` takes nothing, `-` is a choice without parts, `[` a byte of `[a-z]`, `{` a character of `[x-é]`, `}` one of `[x-z]`, and
///   any other sign takes itself;
/// - `^` is the start of the text, `<` the start of a line, `>` its end, and `:` an edge of an ASCII word;
/// - `?`, `*` and `+` repeat the last part, `!`, `~` and `#` do so with the fewest times preferred, `=` is two or three times and
///   `%` 62 times;
/// - `1` and `2` make the last part a group with this index;
/// - `.` is one after the other of the last two parts, and `|` one or the other.
///
/// Trees have few ways out of the functions that hold them, so that these are quickly proved.
pub fn pattern(alloc: Global, signs: &[u8]) -> Result<Hir, NoMemory> {
    let mut parts = Vec::new(alloc);
    let whole = match add_parts(alloc, signs, &mut parts) {
        Ok(()) => Ok(last(&mut parts)),
        Err(error) => Err(error),
    };
    drop(parts);
    whole
}

/// Adds the part of each sign, and takes its parts off.
fn add_parts(alloc: Global, signs: &[u8], parts: &mut Vec<Hir>) -> Result<(), NoMemory> {
    for sign in signs {
        let next = node(alloc, *sign, parts)?;
        parts.push(next)?;
    }
    Ok(())
}

/// The last part, taken off.
fn last(parts: &mut Vec<Hir>) -> Hir {
    parts.pop().unwrap_or(Hir::Empty)
}

/// The node of a sign, with its parts taken off.
fn node(alloc: Global, sign: u8, parts: &mut Vec<Hir>) -> Result<Hir, NoMemory> {
    match sign {
        b'.' | b'|' => {
            let second = last(parts);
            let first = last(parts);
            joined(alloc, sign, first, second)
        }
        b'1' => group(alloc, 1, last(parts)),
        b'2' => group(alloc, 2, last(parts)),
        b'?' | b'*' | b'+' | b'!' | b'~' | b'#' | b'=' | b'%' => repeated(alloc, sign, last(parts)),
        _ => leaf(alloc, sign),
    }
}

/// A node without parts.
fn leaf(alloc: Global, sign: u8) -> Result<Hir, NoMemory> {
    Ok(match sign {
        b'0' => Hir::Empty,
        b'-' => Hir::Alternation(Hirs::new(alloc)),
        b'^' => Hir::Look(Look::Start),
        b'<' => Hir::Look(Look::StartLF),
        b'>' => Hir::Look(Look::EndLF),
        b':' => Hir::Look(Look::WordAscii),
        b'[' => Hir::ClassBytes(letters(alloc)?),
        b'{' | b'}' => Hir::ClassChars(characters(alloc, sign)?),
        _ => Hir::Literal(one_byte(alloc, sign)?),
    })
}

/// `[a-z]`.
fn letters(alloc: Global) -> Result<ByteRanges, NoMemory> {
    let mut letters = ByteRanges::new(alloc);
    letters.add(b'a', b'z')?;
    Ok(letters)
}

/// `[x-é]` or `[x-z]`.
fn characters(alloc: Global, sign: u8) -> Result<CharRanges, NoMemory> {
    let mut characters = CharRanges::new(alloc);
    characters.add('x', if sign == b'{' { 'é' } else { 'z' })?;
    Ok(characters)
}

/// One byte as a text.
pub fn one_byte(alloc: Global, byte: u8) -> Result<Bytes, NoMemory> {
    let mut bytes = Bytes::new(alloc);
    bytes.push(byte)?;
    Ok(bytes)
}

/// A part, several times.
fn repeated(alloc: Global, sign: u8, part: Hir) -> Result<Hir, NoMemory> {
    let (min, max) = match sign {
        b'?' | b'!' => (0, Some(1)),
        b'+' | b'#' => (1, None),
        b'=' => (2, Some(3)),
        b'%' => (62, Some(62)),
        _ => (0, None),
    };
    let greedy = !matches!(sign, b'!' | b'~' | b'#');
    let sub = Box::new(alloc, part)?;
    Ok(Hir::Repetition(Repeat {
        min,
        max,
        greedy,
        sub,
    }))
}

/// A group.
fn group(alloc: Global, index: u32, part: Hir) -> Result<Hir, NoMemory> {
    let sub = Box::new(alloc, part)?;
    let name = None;
    Ok(Hir::Capture(Group { index, name, sub }))
}

/// One part after the other, or one or the other.
fn joined(alloc: Global, sign: u8, first: Hir, second: Hir) -> Result<Hir, NoMemory> {
    let parts = two(alloc, first, second)?;
    Ok(if sign == b'.' {
        Hir::Concat(parts)
    } else {
        Hir::Alternation(parts)
    })
}

/// Two parts.
pub fn two(alloc: Global, first: Hir, second: Hir) -> Result<Hirs, NoMemory> {
    let parts = Vec::from_array(alloc, [first, second])?;
    Ok(Hirs::from(parts))
}
