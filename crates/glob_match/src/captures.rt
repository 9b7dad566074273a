//! What a glob captures of a path, as ranges of bytes.

ghost use Rattle.std.specs.Prelude.{◌≡◌, All, chars, length, map, IfOk, IfSome, MatchOption, None, Some};
ghost use Rattle.glob_match.specs.Takes.{Fits};
ghost use Rattle.glob_match.specs.Captures.{GlobCaptures, GlobRanges, AreBytePlaces, LiesIn, LiesOnBoundaries, byte_range};

use crate::parse::{after_signs, read};
use crate::walk::{Capture, captures_of};
use sd_base::NoMemory;
use std::alloc::Global;
use std::ops::Range;

/// What a glob captures of a path, both by their characters, or `None` where it doesn't fit. It's nothing under an odd
/// number of `!`.
fn captures_in(
    alloc: Global,
    glob: &[char],
    path: &[char],
) -> Result<Option<Vec<Capture>>, NoMemory>
    ensures captured { IfOk result (λ found. MatchOption found (¬ Fits glob.now path.now) (λ captures. Fits glob.now path.now × GlobCaptures glob.now path.now captures.items)) }
    ensures within { IfOk result (λ found. IfSome found (λ captures. All (LiesIn (length path.now)) captures.items)) }
{
    let (negated, text) = after_signs(glob);
    let Some(tokens) = read(alloc, text)? else {
        return Ok(None);
    };
    let found = captures_of(alloc, &tokens, path)?;
    if !negated {
        return Ok(found);
    }
    match found {
        None => Ok(Some(Vec::new(alloc))),
        Some(_) => Ok(None),
    }
}

/// The byte at which each place between a path's characters stands.
fn byte_places(alloc: Global, path: &str) -> Result<Vec<usize>, NoMemory>
    ensures { IfOk result (λ bytes. AreBytePlaces (chars path.now) bytes.items) }
{
    let mut bytes = Vec::new(alloc);
    let mut at = 0;
    for c in path.chars() {
        bytes.push(at)?;
        at += c.len_utf8();
    }
    bytes.push(at)?;
    Ok(bytes)
}

/// Captures as ranges of bytes.
fn byte_ranges(
    alloc: Global,
    captures: &[Capture],
    path: &str,
) -> Result<Vec<Range<usize>>, NoMemory>
    requires { All (LiesIn (length (chars path.now))) captures.now }
    ensures ranges { IfOk result (λ ranges. ranges.items ≡ map (byte_range (chars path.now)) captures.now) }
    ensures boundaries { IfOk result (λ ranges. All (LiesOnBoundaries path.now) ranges.items) }
{
    let bytes = byte_places(alloc, path)?;
    let mut ranges = Vec::new(alloc);
    for capture in captures {
        ranges.push(bytes[capture.from]..bytes[capture.to])?;
    }
    Ok(ranges)
}

/// What a glob captures of a path, as ranges of its bytes, or `None` where the glob is invalid or doesn't fit the path.
///
/// There is a range for each `?`, `*`, star token, class and brace, in the order of their beginnings in the glob.
/// The pieces take the path from left to right, each `?`, `*`, star token and class the shortest text after which
/// the others can go on, and each brace its first option that can. A star token with its `/` doesn't count the last
/// `/` that it took. What stands in an option that isn't taken has an empty range at its brace's start. A glob with
/// an odd number of `!` has no ranges. The ranges lie on the boundaries of characters.
///
/// Refuses for want of memory alone.
pub fn glob_match_with_captures(
    alloc: Global,
    glob: &str,
    path: &str,
) -> Result<Option<Vec<Range<usize>>>, NoMemory>
    ensures captured { IfOk result (λ found. MatchOption found (¬ Fits (chars glob.now) (chars path.now)) (λ ranges. Fits (chars glob.now) (chars path.now) × GlobRanges (chars glob.now) (chars path.now) ranges.items)) }
    ensures boundaries { IfOk result (λ found. IfSome found (λ ranges. All (LiesOnBoundaries path.now) ranges.items)) }
{
    let glob: Vec<char> = glob.chars().collect(alloc)?;
    let characters: Vec<char> = path.chars().collect(alloc)?;
    match captures_in(alloc, &glob, &characters)? {
        None => Ok(None),
        Some(captures) => Ok(Some(byte_ranges(alloc, &captures, path)?)),
    }
}
