//! Replacement texts with the groups of a match.

ghost use Rattle.std.specs.Prelude.{◌≡◌, ◌++◌, OnOk, None};
ghost use Rattle.grep_matcher.specs.References.{LieIn, expand, group_text};

use grep_matcher::{Captures, Match};
use sd_base::NoMemory;
use std::test::Fail;

/// Three groups.
#[derive(Drop)]
struct Three([Option<Match>; 3]);

impl Captures for Three {
    ghost groups = { λ three. three.0 };

    fn len(&self) -> usize {
        self.0.as_slice().len()
    }

    fn get(&self, i: usize) -> Option<Match> {
        self.0.get(i).copied().unwrap_or(None)
    }
}

/// Only numbers name groups.
fn without_names(
    groups: &Three,
    haystack: &[u8],
    replacement: &[u8],
    dst: &mut Vec<u8>,
) -> Result<(), NoMemory>
    requires { LieIn groups.now.0 haystack.now }
    ensures { OnOk result (dst.new.items ≡ dst.old.items ++ expand (group_text haystack.now groups.now.0) (λ _. None) replacement.now) }
{
    groups.interpolate(|_name| None, haystack, replacement, dst)
}

/// Appends a replacement text, where no name is of a group.
fn append_without_names(dst: &mut Vec<u8>) -> Result<(), NoMemory> {
    let groups = Three([Some(Match::new(0, 2)), None, Some(Match::new(1, 2))]);
    without_names(&groups, b"ab", b"$2$foo$0$1.", dst)
}

#[test]
fn names_without_numbers(rt: HostRuntime) -> Result<(), Fail> {
    let mut dst = Vec::from_slice(rt.alloc(), b">")?;
    assert!(rt; append_without_names(&mut dst).is_ok());
    assert!(rt; dst.as_slice() == b">bab.".as_slice());
    Ok(())
}
