//! Searches of small texts.

ghost use Rattle.std.specs.Prelude.{◌≡◌, ◌+◌, ◌≤◌, length, IfOk};
ghost use Rattle.hir_tree.specs.Spots.{groups_of};

use crate::patterns::pattern;
use grep_matcher::Match;
use hir_core::{Hir, Searcher, Slots, group_count};
use sd_base::{NoMemory, Silent, Steps, Tally};
use std::alloc::Global;
use std::process::Abort;
use std::test::Fail;

/// A search in a row: the pattern as it is usually written and as a row of signs, the text, the place from which it is searched,
/// and the ends of the groups that are found.
///
/// - `a*` takes each `a` that stands at the place, and else nothing: the place itself has a match.
/// - `(?:a?b??)*` takes the `a` in its first round and, as it prefers, no `b`. A second round would come again to the choice of
///   `b??` without a byte in between, so it gives nothing.
/// - In `(?:(a)|b)*` the group holds what its last round took, also where a later round took the other part.
/// - In `((a)b)` both groups have the index 1: what is set last stays, and that is the outer one.
/// - In `(a|ab)(c|bcd)` what the groups held is put back on the way from `ab` to `a`.
/// - In `(?:a|[x-é])b` a thread waits for the end of a character.
const ROWS: &str = "\
a* a* baac 0 0-0
a* a* baac 1 1-3
a* a* baac 3 3-3
a* a* baac 4 4-4
a+ a+ baab 0 1-3
a+ a+ baab 2 2-3
a+ a+ baab 3 -
a+? a# baab 0 1-2
(?:a?b??)* a?b!.* ab 0 0-1
(?:a?b??)* a?b!.* aab 0 0-2
(?:x*)*y x**y. xxy 0 0-3
(?:x*)*y x**y. xx 0 -
(a)|(b) a1b2| ab 0 0-1/0-1/-
(a)|(b) a1b2| ab 1 1-2/-/1-2
(a*)(a*) a*1a*2. aa 0 0-2/0-2/2-2
(a*?)(a*) a~1a*2. aa 0 0-2/0-0/0-2
(?:(a)|b)* a1b|* aab 0 0-3/1-2
((a)b) a1b.1 cab 0 1-3/1-3
(a|ab)(c|bcd) aab.|1cbc.d.|2. xabcd 0 1-5/1-2/2-5
(a|ab)(c|bcd) aab.|1cbc.d.|2. abcab 0 0-3/0-2/2-3
(a|ab)(c|bcd) aab.|1cbc.d.|2. abdab 0 -/-/-
[a-z]+_id [+_.i.d. some_words,_id 0 -
[a-z]+_id [+_.i.d. a,b_i,user_id,c 0 6-13
[a-z]+_id [+_.i.d. a,b_i,user_id,c 8 8-13
[a-z]+_id [+_.i.d. a,b_i,user_id,c 11 -
aab|ba aa.b.ba.| aaaab 0 2-5
aab|ba aa.b.ba.| cba 0 1-3
ab ab. xabyabzab 0 1-3
ab ab. xabyabzab 2 4-6
ab ab. xabyabzab 8 -
(?:) 0 ab 2 2-2
^b ^b. bb 0 0-1
^b ^b. bb 1 -
[^\\s\\S] - ab 0 -
[x-é] { aé 0 1-3
[x-é] { aé 2 -
[x-z] } aéy 0 3-4
(?:a|[x-é])b a{|b. aéab 0 3-5
(?:a|[x-é])b a{|b. aéb 0 1-4";

/// A way to search.
#[derive(Clone, Copy)]
pub enum Way {
    InOnePass,
    /// Over blocks of so many places.
    ByBlocks(usize),
    WithCountedSteps,
    ByStack,
}

/// A search in one of the ways. Callers are told no more than what the next search asks, so that a test is quickly proved.
pub fn search(
    searcher: &Searcher,
    way: Way,
    text: &[u8],
    at: usize,
    slots: &mut Slots,
) -> Result<bool, NoMemory>
    requires within { at ≤ length text.now }
    requires slots { length slots.old ≡ groups_of searcher.now + 1 }
    ensures { length slots.new ≡ length slots.old }
{
    match way {
        Way::InOnePass => searcher.search_at(text, at, slots),
        Way::ByBlocks(places) => searcher.search_by_blocks(text, at, slots, places),
        Way::WithCountedSteps => {
            searcher.search_at_steps(text, at, slots, &mut Steps::new(Silent))
        }
        Way::ByStack => searcher.search_by_stack(text, at, slots),
    }
}

/// A search in one of the ways, with slots and a place that are right, which is asserted. Callers are told nothing.
pub fn search_from(
    rt: &impl Abort,
    searcher: &Searcher,
    way: Way,
    text: &[u8],
    at: usize,
    slots: &mut Slots,
) -> Result<bool, NoMemory> {
    let count = group_count(searcher.hir()) as usize;
    assert!(rt; at <= text.len() && slots.len() == count + 1);
    search(searcher, way, text, at, slots)
}

/// The searcher of a tree, which is let go.
pub fn searcher_of(alloc: Global, hir: Hir) -> Result<Searcher, NoMemory> {
    let searcher = Searcher::new(alloc, &hir);
    drop(hir);
    searcher
}

/// The searcher of a pattern.
pub fn searcher_for(alloc: Global, signs: &[u8]) -> Result<Searcher, NoMemory> {
    let hir = pattern(alloc, signs)?;
    searcher_of(alloc, hir)
}

/// Unset slots for the groups of a pattern.
pub fn slots_for(alloc: Global, searcher: &Searcher) -> Result<Slots, NoMemory>
    ensures { IfOk result (λ slots. length slots ≡ groups_of searcher.now + 1) }
{
    Slots::new(alloc, group_count(searcher.hir()))
}

/// Adds the ends of a group, as `1-3`, or `-` where it is unset.
fn push_ends(out: &mut String, span: Option<Match>) -> Result<(), Fail> {
    match span {
        Some(span) => write!(out, "{}-{}", span.start(), span.end())?,
        None => out.push('-')?,
    }
    Ok(())
}

/// The ends of each group.
fn shown(alloc: Global, slots: &Slots) -> Result<String, Fail> {
    let mut out = String::new(alloc);
    for group in 0..slots.len() {
        if group > 0 {
            out.push('/')?;
        }
        push_ends(&mut out, slots.get(group))?;
    }
    Ok(out)
}

/// Each search for a pattern from a place of a text finds these groups. The searcher is let go here, and its slots one call below, so
/// that no function holds one over more than one way out: these are quickly proved.
fn check(
    rt: &(impl Abort + AllocGlobal),
    signs: &str,
    text: &[u8],
    at: usize,
    groups: &str,
) -> Result<(), Fail> {
    let searcher = searcher_for(rt.alloc(), signs.as_bytes())?;
    let checked = check_searcher(rt, &searcher, text, at, groups);
    drop(searcher);
    checked
}

/// Each search by a searcher finds these groups.
fn check_searcher(
    rt: &(impl Abort + AllocGlobal),
    searcher: &Searcher,
    text: &[u8],
    at: usize,
    groups: &str,
) -> Result<(), Fail> {
    let mut slots = slots_for(rt.alloc(), searcher)?;
    let checked = check_ways(rt, searcher, &mut slots, text, at, groups);
    drop(slots);
    checked
}

/// Each search with these slots finds these groups.
fn check_ways(
    rt: &(impl Abort + AllocGlobal),
    searcher: &Searcher,
    slots: &mut Slots,
    text: &[u8],
    at: usize,
    groups: &str,
) -> Result<(), Fail> {
    for way in [Way::InOnePass, Way::WithCountedSteps, Way::ByStack] {
        let is_found = search_from(rt, searcher, way, text, at, slots)?;
        check_slots(rt, slots, is_found, at, groups)?;
    }
    Ok(())
}

/// Slots hold these groups, and a match was found if they hold one.
fn check_slots(
    rt: &(impl Abort + AllocGlobal),
    slots: &Slots,
    is_found: bool,
    at: usize,
    groups: &str,
) -> Result<(), Fail> {
    assert!(rt; is_found == slots.get(0).is_some(), "{groups} from {at}");
    let found = shown(rt.alloc(), slots)?;
    assert_eq!(rt; found.as_str(), groups, "{groups} from {at}");
    Ok(())
}

/// The search in this row.
fn check_row(rt: &(impl Abort + AllocGlobal), row: &str) -> Result<(), Fail> {
    let words: Vec<&str> = row.split(' ').collect(rt.alloc())?;
    assert!(rt; words.len() == 5);
    let at = words[3].parse().ok().ok_or("no place")?;
    check(rt, words[1], words[2].as_bytes(), at, words[4])
}

#[test]
fn matches_and_their_groups(rt: HostRuntime) -> Result<(), Fail> {
    let mut rows: usize = 0;
    for row in ROWS.lines() {
        check_row(&rt, row)?;
        rows = rows.saturating_add(1);
    }
    assert_eq!(rt; rows, 39);
    Ok(())
}

// `[x-é]` on bytes that are no UTF-8: the character begins at 1.
#[test]
fn texts_that_are_no_utf8(rt: HostRuntime) -> Result<(), Fail> {
    check(&rt, "{", b"\xc3\xc3\xa9\xa9", 0, "1-3")?;
    check(&rt, "{", b"\xc3\xc3\xa9\xa9", 2, "-")
}

// `[a-z]{62}` has as many spots as the filter takes, and `[a-z]{62}[a-z]` has one more.
#[test]
fn more_spots_than_the_filter_takes(rt: HostRuntime) -> Result<(), Fail> {
    let mut text = Vec::new(rt.alloc());
    text.push(b'-')?;
    text.resize(64, b'a')?;
    check(&rt, "[%", &text, 0, "1-63")?;
    check(&rt, "[%[.", &text, 0, "1-64")?;
    check(&rt, "[%[.", &text, 2, "-")
}

/// A pattern, a place, and the groups that are found from there.
const LOOKS: &[(&str, usize, &str)] = &[
    ("<>.", 0, "3-3"),
    ("<>.", 4, "8-8"),
    ("<[*.>.", 0, "0-2"),
    ("<[*.>.", 1, "3-3"),
    ("<[+.>.", 1, "-"),
    ("b>.", 0, "1-2"),
    ("b>.", 2, "6-7"),
    ("a>.b|", 0, "1-2"),
    (":b.", 0, "4-5"),
    ("[+:.", 1, "1-2"),
    (">", 5, "7-7"),
    (">a?.", 8, "8-8"),
];

// Looks on two words in two lines, `ab` and `b b`, and an empty line between them: what they ask rules out places before the first
// byte and at the last one.
#[test]
fn looks_at_lines_and_words(rt: HostRuntime) -> Result<(), Fail> {
    for (signs, at, groups) in LOOKS {
        check(&rt, signs, b"ab\n\nb b\n", *at, groups)?;
    }
    Ok(())
}

/// Searches again with slots that another search used.
fn check_again(
    rt: &(impl Abort + AllocGlobal),
    signs: &str,
    at: usize,
    slots: &mut Slots,
    groups: &str,
) -> Result<(), Fail> {
    let searcher = searcher_for(rt.alloc(), signs.as_bytes())?;
    let is_found = search_again(rt, &searcher, at, slots);
    drop(searcher);
    check_slots(rt, slots, is_found?, at, groups)
}

fn search_again(
    rt: &impl Abort,
    searcher: &Searcher,
    at: usize,
    slots: &mut Slots,
) -> Result<bool, NoMemory> {
    let text = b"user_i, user_id, a_id".as_slice();
    search_from(rt, searcher, Way::InOnePass, text, at, slots)
}

/// A pattern, a place, and the groups that are found from there.
const AGAIN: &[(&str, usize, &str)] = &[
    ("[+_.i.d.", 0, "8-15"),
    ("[+_.i.d.", 10, "10-15"),
    ("0*", 21, "21-21"),
    ("[+_.i.d.", 15, "17-21"),
    ("[+_.i.d.", 18, "-"),
];

/// Searches with the same slots one after the other.
fn check_all_again(rt: &(impl Abort + AllocGlobal), slots: &mut Slots) -> Result<(), Fail> {
    assert!(rt; slots.len() == 1 && slots.get(0).is_none() && slots.get(1).is_none());
    for (signs, at, groups) in AGAIN {
        check_again(rt, signs, *at, slots, groups)?;
    }
    Ok(())
}

// The lists of one search are those of the next, also of another pattern.
#[test]
fn slots_are_used_again(rt: HostRuntime) -> Result<(), Fail> {
    let mut slots = Slots::new(rt.alloc(), 0)?;
    let checked = check_all_again(&rt, &mut slots);
    drop(slots);
    checked
}

/// Whether a search for a pattern finds a match, and how many steps it notes.
fn steps_of(alloc: Global, signs: &[u8], text: &[u8]) -> Result<(bool, u64), NoMemory> {
    let searcher = searcher_for(alloc, signs)?;
    let noted = noted_steps(alloc, &searcher, text);
    drop(searcher);
    noted
}

fn noted_steps(alloc: Global, searcher: &Searcher, text: &[u8]) -> Result<(bool, u64), NoMemory> {
    let mut slots = slots_for(alloc, searcher)?;
    let mut steps = Steps::new(Tally::default());
    let is_found = searcher.search_at_steps(text, 0, &mut slots, &mut steps);
    drop(slots);
    Ok((is_found?, steps.into_ledger().ticks))
}

// `[a-z]` on `aab` has one spot whose visits count, so at most one step for each of the four places. `(?:x*)*y` has 6 spots, so at most
// 6 for each of the 200,001 places, and where a `y` follows, for each of the 200,002. A pattern that is one text is found without steps.
#[test]
fn a_place_takes_a_step_for_each_spot(rt: HostRuntime) -> Result<(), Fail> {
    let (is_found, ticks) = steps_of(rt.alloc(), b"[", b"aab")?;
    assert!(rt; is_found && 0 < ticks && ticks <= 4, "{ticks}");
    assert_eq!(rt; steps_of(rt.alloc(), b"b", b"aab")?, (true, 0));
    let mut text = Vec::new(rt.alloc());
    text.resize(200_000, b'x')?;
    let (is_found, ticks) = steps_of(rt.alloc(), b"x**y.", &text)?;
    assert!(rt; !is_found && ticks <= 1_200_006, "{ticks}");
    text.push(b'y')?;
    let (is_found, ticks) = steps_of(rt.alloc(), b"x**y.", &text)?;
    assert!(rt; is_found && 0 < ticks && ticks <= 1_200_012, "{ticks}");
    Ok(())
}
