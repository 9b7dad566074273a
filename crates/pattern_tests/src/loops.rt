//! Loops of one set, which are run over in one go: searches find what the search by a stack of alternatives finds.

use crate::all_small_patterns::compare_patterns;
use crate::searches::Way;
use std::process::Abort;
use std::test::Fail;

/// Loops at the end of a pattern, before the end of a line, before a letter that they take or don't take, and in groups and loops, greedy
/// and lazy. In `c[#2+1.>.` the way out of the inner loop leads back to what it takes.
const PATTERNS: &str = "\
[+
[*
[#
[~
[+1
[+2*1
[+>.
[*>.1
[#>.
[~>.
c[#2+1.>.
c[#2+1.
[*2#1>.
[+2+1c.
[*a.
[~a.
{+1>.
{~2+c.
{+}|*>.
[a|+>.
[+:.
<[*>..
ac|+1>.
ac|#2*1c.";

/// The ways that are compared: over blocks of one place, of two, and of as many as a search has.
const WAYS: &[Way] = &[Way::ByBlocks(1), Way::ByBlocks(2), Way::ByBlocks(256)];

// On the 121 texts over two letters and the line feed with at most four bytes, which have 547 places.
#[test]
fn loops_match_as_by_the_stack(rt: HostRuntime) -> Result<(), Fail> {
    let comparisons = compare_patterns(&rt, PATTERNS, b"ac\n", WAYS)?;
    assert_eq!(rt; comparisons, 24 * 547);
    Ok(())
}
