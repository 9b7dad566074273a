//! The calls on trees: taking a terminator out, the ban, and the bytes in no match.

use grep_matcher::LineTerminator;
use grep_regex::{ErrorKind, check_ban, non_matching_bytes, strip_from_match};
use hir_core::Hir;
use pattern_core::{PatternFlags, parse};
use sd_base::NoMemory;
use std::alloc::Global;
use std::test::Fail;

const FLAGS: PatternFlags = PatternFlags {
    case_insensitive: false,
    multi_line: false,
    dot_matches_new_line: false,
    swap_greed: false,
    ignore_whitespace: false,
    unicode: true,
    octal: false,
    crlf: false,
    nest_limit: 250,
};

/// The tree of a pattern.
pub fn tree(alloc: Global, pattern: &str) -> Result<Hir, Fail> {
    Ok(parse(alloc, pattern, &FLAGS)?.hir)
}

/// The ranges of the class of bytes at the end of a sequence.
fn last_ranges(alloc: Global, hir: &Hir) -> Result<Option<Vec<(u8, u8)>>, NoMemory> {
    let Hir::Concat(parts) = hir else {
        return Ok(None);
    };
    let Some(Hir::ClassBytes(ranges)) = parts.parts().last() else {
        return Ok(None);
    };
    let mut list = Vec::new(alloc);
    for i in 0..ranges.len() {
        list.push(ranges.get(i))?;
    }
    Ok(Some(list))
}

/// White space without a line feed: whether that is in no match of it, and the ranges of its class. Trees are let go where they are
/// asked, so that tests are quickly proved.
fn space_in_a_line(alloc: Global) -> Result<(bool, Vec<(u8, u8)>), Fail> {
    let space = tree(alloc, r"(?-u)\s")?;
    let line = strip_from_match(alloc, space, LineTerminator::byte(b'\n'))?;
    let is_skipped = non_matching_bytes(&line).contains(b'\n');
    let ranges = last_ranges(alloc, &line);
    drop(line);
    Ok((is_skipped, ranges?.ok_or("no class")?))
}

#[test]
fn a_line_feed_is_taken_out_of_white_space(rt: HostRuntime) -> Result<(), Fail> {
    let (is_skipped, ranges) = space_in_a_line(rt.alloc())?;
    assert!(rt; is_skipped);
    assert_eq!(rt;
        ranges.as_slice(),
        [(0x09, 0x09), (0x0B, 0x0D), (0x20, 0x20)].as_slice()
    );
    Ok(())
}

/// Why a terminator is not taken out of a pattern, if so.
fn refusal(alloc: Global, pattern: &str, end: LineTerminator) -> Result<Option<ErrorKind>, Fail> {
    match strip_from_match(alloc, tree(alloc, pattern)?, end) {
        Ok(stripped) => {
            drop(stripped);
            Ok(None)
        }
        Err(error) => Ok(Some(*error.kind())),
    }
}

#[test]
fn refusals_on_trees(rt: HostRuntime) -> Result<(), Fail> {
    let alloc = rt.alloc();
    for (pattern, end, kind) in [
        (
            r"a\n",
            LineTerminator::byte(b'\n'),
            ErrorKind::NotAllowed(b'\n'),
        ),
        (
            "a",
            LineTerminator::byte(200),
            ErrorKind::InvalidLineTerminator(200),
        ),
        (
            r"\n\r",
            LineTerminator::crlf(),
            ErrorKind::NotAllowed(b'\r'),
        ),
        (
            r"[\r\n]",
            LineTerminator::crlf(),
            ErrorKind::NotAllowed(b'\n'),
        ),
    ] {
        assert_eq!(rt; refusal(alloc, pattern, end)?, Some(kind), "{pattern}");
    }
    Ok(())
}

/// Whether a pattern is refused where `b` is banned.
fn asks_for_b(alloc: Global, pattern: &str) -> Result<bool, Fail> {
    let tree = tree(alloc, pattern)?;
    let is_refused = check_ban(&tree, b'b').is_err();
    drop(tree);
    Ok(is_refused)
}

#[test]
fn bans_on_trees(rt: HostRuntime) -> Result<(), Fail> {
    let alloc = rt.alloc();
    for (pattern, banned) in [
        ("abc", true),
        ("[b]", true),
        ("[ab]", false),
        ("(?i)b", false),
        ("(x|(?:b)*)", true),
        ("a", false),
    ] {
        assert_eq!(rt; asks_for_b(alloc, pattern)?, banned, "{pattern}");
    }
    Ok(())
}
