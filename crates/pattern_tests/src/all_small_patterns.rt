//! All small patterns on all short texts: the searches in one pass find what the search by a stack of alternatives finds.

use crate::searches::{Way, search_from, searcher_for, slots_for};
use hir_core::{Searcher, Slots};
use sd_base::NoMemory;
use std::alloc::Global;
use std::process::Abort;
use std::test::Fail;

/// The signs of the patterns: three leaves, six nodes with one part, and two with two parts.
const SIGNS: &[u8] = b"0ab?!*~=1.|";

/// The same with looks: a letter and the looks at starts and ends of lines and at edges of words, two nodes with one part, and two
/// with two parts.
const LOOKS: &[u8] = b"a<>:?*.|";

/// The words with the numbers below this one, among those over some letters from the shortest on.
fn words(alloc: Global, letters: &[u8], numbers: usize) -> Result<Vec<Vec<u8>>, NoMemory> {
    let mut words = Vec::new(alloc);
    for number in 0..numbers {
        words.push(word(alloc, letters, number)?)?;
    }
    Ok(words)
}

/// The word with this number.
fn word(alloc: Global, letters: &[u8], number: usize) -> Result<Vec<u8>, NoMemory> {
    let mut word = Vec::new(alloc);
    let mut left = number;
    for _ in 0..10 {
        if left == 0 || letters.is_empty() {
            break;
        }
        left -= 1;
        word.push(letters[left % letters.len()])?;
        left /= letters.len();
    }
    Ok(word)
}

/// Whether each sign has the parts that it needs before it, and one part is left at the end.
fn is_pattern(signs: &[u8]) -> bool {
    let mut parts: usize = 0;
    for sign in signs {
        match sign {
            b'0' | b'a' | b'b' | b'<' | b'>' | b':' => parts = parts.saturating_add(1),
            b'.' | b'|' if parts < 2 => return false,
            b'.' | b'|' => parts -= 1,
            _ if parts < 1 => return false,
            _ => {}
        }
    }
    parts == 1
}

/// Whether two lists of slots hold the same spans.
fn are_same(one: &Slots, other: &Slots) -> bool {
    one.len() == other.len() && (0..one.len()).all(|group| one.get(group) == other.get(group))
}

/// What is compared: the searches by a searcher in these ways with that by the stack, from each place of these texts up to a last one.
#[derive(Clone, Copy)]
struct Comparison<'a> {
    searcher: &'a Searcher,
    ways: &'a [Way],
    texts: &'a [Vec<u8>],
    last: usize,
}

/// Compares the searches from a place of a text. Gives whether there is a match.
fn compare_at(
    rt: &impl Abort,
    comparison: &Comparison<'_>,
    wanted: &mut Slots,
    slots: &mut Slots,
    text: &[u8],
    at: usize,
) -> Result<bool, NoMemory> {
    let searcher = comparison.searcher;
    let is_found = search_from(rt, searcher, Way::ByStack, text, at, wanted)?;
    for way in comparison.ways {
        let is_same = search_from(rt, searcher, *way, text, at, slots)? == is_found;
        assert!(rt; is_same && are_same(slots, wanted));
    }
    Ok(is_found)
}

/// How many comparisons find a match, and how many do not.
#[derive(Clone, Copy, Default)]
struct Counts {
    matching: usize,
    others: usize,
}

impl Counts {
    /// Counts a comparison.
    fn count(&mut self, is_found: bool) {
        if is_found {
            self.matching = self.matching.saturating_add(1);
        } else {
            self.others = self.others.saturating_add(1);
        }
    }
}

/// Compares the searches from each place of each text, with slots for the search by the stack and for another.
fn compare_texts(
    rt: &impl Abort,
    comparison: &Comparison<'_>,
    wanted: &mut Slots,
    slots: &mut Slots,
    counts: &mut Counts,
) -> Result<(), NoMemory> {
    for text in comparison.texts {
        for at in 0..text.len().min(comparison.last).saturating_add(1) {
            counts.count(compare_at(rt, comparison, wanted, slots, text, at)?);
        }
    }
    Ok(())
}

/// Compares the searches with slots for the search by the stack. Those for another are let go here.
fn compare_with(
    rt: &(impl Abort + AllocGlobal),
    comparison: &Comparison<'_>,
    wanted: &mut Slots,
    counts: &mut Counts,
) -> Result<(), NoMemory> {
    let mut slots = slots_for(rt.alloc(), comparison.searcher)?;
    let done = compare_texts(rt, comparison, wanted, &mut slots, counts);
    drop(slots);
    done
}

/// Compares the searches. The slots for the search by the stack are let go here.
fn compare_searches(
    rt: &(impl Abort + AllocGlobal),
    comparison: &Comparison<'_>,
    counts: &mut Counts,
) -> Result<(), NoMemory> {
    let mut wanted = slots_for(rt.alloc(), comparison.searcher)?;
    let done = compare_with(rt, comparison, &mut wanted, counts);
    drop(wanted);
    done
}

/// Compares the searches for a pattern in these ways from each place of these texts, or, for a pattern of five nodes, from the first.
/// The searcher is let go here, and its slots one and two calls below, so that no function holds one over more than one way out: these
/// are quickly proved.
fn compare(
    rt: &(impl Abort + AllocGlobal),
    signs: &[u8],
    ways: &[Way],
    texts: &[Vec<u8>],
    counts: &mut Counts,
) -> Result<(), NoMemory> {
    let last = if signs.len() < 5 { usize::MAX } else { 0 };
    compare_up_to(rt, signs, ways, texts, last, counts)
}

/// The same from each place up to this one.
fn compare_up_to(
    rt: &(impl Abort + AllocGlobal),
    signs: &[u8],
    ways: &[Way],
    texts: &[Vec<u8>],
    last: usize,
    counts: &mut Counts,
) -> Result<(), NoMemory> {
    let searcher = searcher_for(rt.alloc(), signs)?;
    let comparison = Comparison {
        searcher: &searcher,
        ways,
        texts,
        last,
    };
    let done = compare_searches(rt, &comparison, counts);
    drop(searcher);
    done
}

/// Compares the searches in these ways for all patterns among so many words over some signs on these texts.
fn compare_words(
    rt: &(impl Abort + AllocGlobal),
    signs: &[u8],
    numbers: usize,
    texts: &[Vec<u8>],
    ways: &[Way],
) -> Result<Counts, NoMemory> {
    let mut counts = Counts::default();
    for number in 0..numbers {
        let word = word(rt.alloc(), signs, number)?;
        if is_pattern(&word) {
            compare(rt, &word, ways, texts, &mut counts)?;
        }
    }
    Ok(counts)
}

/// Compares the searches in these ways for all patterns among so many words over some signs, on the 31 texts over two letters with at
/// most four bytes, which have 129 places. Gives how many comparisons there were.
fn compare_all(
    rt: &(impl Abort + AllocGlobal),
    signs: &[u8],
    numbers: usize,
    letters: &[u8],
    ways: &[Way],
) -> Result<usize, NoMemory> {
    let texts = words(rt.alloc(), letters, 31)?;
    let Counts { matching, others } = compare_words(rt, signs, numbers, &texts, ways)?;
    assert!(rt; matching > 0 && others > 0);
    Ok(matching.saturating_add(others))
}

/// Compares the searches in these ways for patterns, one a line, on the 121 texts over three letters with at most four bytes, which have
/// 547 places. Gives how many comparisons there were.
pub fn compare_patterns(
    rt: &(impl Abort + AllocGlobal),
    patterns: &str,
    letters: &[u8],
    ways: &[Way],
) -> Result<usize, NoMemory> {
    let texts = words(rt.alloc(), letters, 121)?;
    let mut counts = Counts::default();
    for pattern in patterns.lines() {
        compare_up_to(
            rt,
            pattern.as_bytes(),
            ways,
            &texts,
            usize::MAX,
            &mut counts,
        )?;
    }
    Ok(counts.matching.saturating_add(counts.others))
}

// The words of at most five signs: 1119 of the shorter words are patterns, and 7992 of those of five.
#[test]
fn all_small_patterns_match_as_by_the_stack(rt: HostRuntime) -> Result<(), Fail> {
    let ways = [Way::InOnePass, Way::WithCountedSteps];
    let comparisons = compare_all(&rt, SIGNS, 177_156, b"ab", &ways)?;
    assert_eq!(rt; comparisons, 1_119 * 129 + 7_992 * 31);
    Ok(())
}

// The words of at most four signs, over blocks of one place, of two, of three and of as many as a search has.
#[test]
fn all_small_patterns_match_over_blocks(rt: HostRuntime) -> Result<(), Fail> {
    let ways = [
        Way::ByBlocks(1),
        Way::ByBlocks(2),
        Way::ByBlocks(3),
        Way::ByBlocks(256),
    ];
    let comparisons = compare_all(&rt, SIGNS, 16_105, b"ab", &ways)?;
    assert_eq!(rt; comparisons, 1_119 * 129);
    Ok(())
}

// The words of at most five signs with looks: 284 of the shorter words are patterns, and 1344 of those of five.
#[test]
fn all_small_patterns_with_looks_match_as_by_the_stack(rt: HostRuntime) -> Result<(), Fail> {
    let ways = [Way::InOnePass, Way::WithCountedSteps, Way::ByBlocks(1)];
    let comparisons = compare_all(&rt, LOOKS, 37_449, b"a\n", &ways)?;
    assert_eq!(rt; comparisons, 284 * 129 + 1_344 * 31);
    Ok(())
}
