//! What replacement texts become with the groups of a match.

ghost use Rattle.grep_matcher.specs.Replaced.{Extends};

use crate::Answer;
use case_reader::Case;
use grep_matcher::{Captures, Match};
use sd_base::NoMemory;
use std::alloc::Global;

/// The group that a name stands for: `foo` for the group 2, and others for none.
fn group_of(name: &str) -> Option<usize> {
    if name == "foo" { Some(2) } else { None }
}

/// Adds `xxx` for the group 2, and nothing for others.
fn append_text(group: usize, dst: &mut Vec<u8>) -> Result<(), NoMemory>
    ensures { Extends dst.old.items dst.new.items }
{
    if group == 2 {
        dst.extend_from_slice(b"xxx")?;
    }
    Ok(())
}

/// Adds a replacement text, where the group 2 has the text `xxx` and others have none.
fn append_interpolated(replacement: &[u8], dst: &mut Vec<u8>) -> Result<(), NoMemory> {
    grep_matcher::interpolate(
        replacement,
        |group, dst: &mut Vec<u8>| append_text(group, dst),
        |name| group_of(name),
        dst,
    )
}

/// A replacement text: what it becomes where the group 2, which has the name `foo`, has the text `xxx`, and others have none.
pub fn interpolate(alloc: Global, case: &Case<'_>) -> Answer {
    let replacement = case.line().bytes(alloc, 0)?;
    let mut dst = Vec::new(alloc);
    append_interpolated(&replacement, &mut dst)?;
    Ok(Some(dst))
}

/// Three groups.
#[derive(Drop)]
struct Three([Option<Match>; 3]);

impl Captures for Three {
    ghost groups = { λ three. three.0 };

    fn len(&self) -> usize {
        self.0.as_slice().len()
    }

    fn get(&self, i: usize) -> Option<Match> {
        self.0.get(i).copied().unwrap_or(None)
    }
}

/// Adds a replacement text with the groups of a match of the whole of `abcxxx`, of which the group 2 is `xxx`.
fn append_expansion(replacement: &[u8], dst: &mut Vec<u8>) -> Result<(), NoMemory> {
    let groups = Three([Some(Match::new(0, 6)), None, Some(Match::new(3, 6))]);
    groups.interpolate(|name| group_of(name), b"abcxxx", replacement, dst)
}

/// A replacement text: what it becomes with the groups of a match of the whole of `abcxxx`, of which the group 2 is `xxx` and has the
/// name `foo`.
pub fn expand(alloc: Global, case: &Case<'_>) -> Answer {
    let replacement = case.line().bytes(alloc, 0)?;
    let mut dst = Vec::new(alloc);
    append_expansion(&replacement, &mut dst)?;
    Ok(Some(dst))
}
