//! Matchers of a pattern.

ghost use Rattle.std.specs.Prelude.{◌≡◌, ◌<◌, ◌↔◌, ◌+◌, ℕ, length, true, IfOk, IfSome, IsSomeAnd, IsTrue};
ghost use Rattle.std.proofs.Props.{props};
ghost use Rattle.grep_matcher.specs.ByteSets.{is_in};
ghost use Rattle.grep_matcher.specs.NoMatch.{IsInNoMatch};
ghost use Rattle.hir_tree.specs.Onward.{looks_nowhere};
ghost use Rattle.hir_tree.specs.Spots.{groups_of};
ghost use Rattle.hir_tree.specs.Tree.{tree_of};
ghost use Rattle.grep_regex.specs.Matching.{EndsNoMatch, MatchesAreWhole, end_at, spans_at};
ghost use Rattle.grep_regex.specs.NonMatching.{IsNonMatching};
ghost use Rattle.grep_regex.specs.Options.{names_in, number_of};

use crate::RegexCaptures;
use crate::names::{Named, names_in, number_of};
use crate::non_matching::non_matching_bytes;
use grep_matcher::{ByteSet, LineTerminator, Match, Matcher};
use hir_core::{Hir, Searcher, Slots, group_count};
use sd_base::NoMemory;
use std::alloc::Global;
use std::cell::Cell;
use std::marker::Model;

/// What a matcher finds, and the terminator that it tells of.
#[derive(Drop)]
pub struct Pattern {
    pub(crate) searcher: Searcher,
    pub(crate) terminator: Option<LineTerminator>,
    // Each match begins at its place, and its groups lie in the text.
    ghost whole: { MatchesAreWhole (tree_of searcher) } by { Prim.hlevel props },
}

/// A matcher of a pattern. Contracts see its pattern, and the terminator that it tells of.
///
/// It keeps the lists of a search for the next one, so a search takes memory only where the text asks for more of it. Threads
/// can't share it.
#[derive(Drop)]
pub struct RegexMatcher {
    /// Where slots are made.
    alloc: Global,
    pattern: Pattern,
    /// The greatest index of a group.
    groups: u32,
    /// The names of groups, from left to right.
    names: Vec<Named>,
    /// Bytes that are in no match.
    non_matching: ByteSet,
    /// The slots of an earlier search, which the next one uses again.
    slots: Cell<Option<Slots>>,
}

impl Model for RegexMatcher {
    ghost use Rattle.grep_regex.specs.declared.matcher.Pattern.{Pattern};
    ghost use Rattle.hir_tree.specs.Tree.{tree_of};
    ghost use Rattle.grep_regex.specs.Matching.{IsKept};
    ghost use Rattle.grep_regex.specs.contracts.matcher.Pattern.{the_row as pattern_row};

    ghost Value = { Pattern };

    ghost coded = { pattern_row.coded };

    ghost view = { λ matcher. matcher.pattern };

    ghost invariant = { λ m. IsKept (tree_of m.pattern.searcher) m.groups m.names.items m.non_matching m.pattern.terminator };
}

impl RegexMatcher {
    /// A matcher of a tree as it is, which tells of this terminator. Refuses for want of memory alone.
    pub(crate) fn of_tree(
        alloc: Global,
        hir: &Hir,
        terminator: Option<LineTerminator>,
    ) -> Result<RegexMatcher, NoMemory>
        requires ends { EndsNoMatch (tree_of hir.now) terminator }
        ensures tree { IfOk result (λ matcher. tree_of matcher.searcher ≡ tree_of hir.now) }
        ensures terminator { IfOk result (λ matcher. matcher.terminator ≡ terminator) }
    {
        hir_core::preferred_matches_are_whole();
        let searcher = Searcher::new(alloc, hir)?;
        Ok(RegexMatcher {
            alloc,
            pattern: Pattern {
                searcher,
                terminator,
            },
            groups: group_count(hir),
            names: names_in(alloc, hir)?,
            non_matching: non_matching_bytes(hir),
            slots: Cell::new(None),
        })
    }

    /// Whether no part of the pattern is a look: then what it matches from a place on rests on the bytes from there on alone.
    pub fn looks_nowhere(&self) -> bool
        ensures { result ≡ looks_nowhere (tree_of self.now.searcher) }
    {
        hir_tree::looks_nowhere(self.pattern.searcher.hir())
    }

    /// The slots of an earlier search, or else new ones.
    fn take_slots(&self) -> Result<Slots, NoMemory>
        ensures { IfOk result (λ slots. length slots ≡ groups_of self.now.searcher + 1) }
    {
        match self.slots.take() {
            Some(slots) if slots.len() == self.groups as usize + 1 => Ok(slots),
            _ => self.new_slots(),
        }
    }

    /// Slots for the groups of the pattern.
    fn new_slots(&self) -> Result<Slots, NoMemory>
        ensures { IfOk result (λ slots. length slots ≡ groups_of self.now.searcher + 1) }
    {
        Slots::new(self.alloc, self.groups)
    }
}

impl Matcher for RegexMatcher {
    type Captures = RegexCaptures;

    type Error = NoMemory;

    ghost use Rattle.grep_regex.specs.MatchingLemmas.{lawful_ends, lawful_spans};

    ghost preferred = { λ matcher. end_at (tree_of matcher.searcher) };

    ghost has_groups = { λ _. true };

    ghost groups_at = { λ matcher. spans_at (tree_of matcher.searcher) };

    ghost group_count = { λ matcher. groups_of matcher.searcher + 1 };

    ghost index_of = { λ matcher. number_of (names_in (tree_of matcher.searcher)) };

    ghost fits = { λ matcher caps. length caps ≡ groups_of matcher.searcher + 1 };

    ghost may_fail = { λ _ _. Unit {0} };

    ghost lawful = { λ matcher text. lawful_ends (tree_of matcher.searcher) matcher.whole text };

    ghost lawful_groups = { λ matcher text place end within is captures. lawful_spans (tree_of matcher.searcher) matcher.whole text place end within is };

    fn find_at(&self, haystack: &[u8], at: usize) -> Result<Option<Match>, NoMemory> {
        if let Some(found) = self.pattern.searcher.find_text(haystack, at) {
            return Ok(found);
        }
        let mut slots = self.take_slots()?;
        self.pattern.searcher.search_at(haystack, at, &mut slots)?;
        let found = slots.get(0);
        self.slots.set(Some(slots));
        Ok(found)
    }

    fn new_captures(&self) -> Result<RegexCaptures, NoMemory> {
        Ok(RegexCaptures {
            slots: Slots::new(self.alloc, self.groups)?,
        })
    }

    fn captures_at(
        &self,
        haystack: &[u8],
        at: usize,
        caps: &mut RegexCaptures,
    ) -> Result<bool, NoMemory> {
        self.pattern
            .searcher
            .search_at(haystack, at, &mut caps.slots)
    }

    /// How many groups each match has, group 0 included.
    fn capture_count(&self) -> usize
        ensures { result ≡ groups_of self.now.searcher + 1 }
    {
        self.groups as usize + 1
    }

    /// The number of the group of this name. `None` where no group has it.
    fn capture_index(&self, name: &str) -> Option<usize>
        ensures { result ≡ number_of (names_in (tree_of self.now.searcher)) name.now }
    {
        let group = number_of(&self.names, name)?;
        Some(group as usize)
    }

    /// The bytes that are in no match: those that no literal holds, and no encoding of a member of a class. Without `\n` where the
    /// start or end of a line or of the text is asked for, and without `\r` where `\r` may end a line.
    fn non_matching_bytes(&self) -> Option<&ByteSet>
        ensures exact { IsSomeAnd result (λ set. (byte : ℕ) → byte < 256
            → IsTrue (is_in set.now byte) ↔ IsNonMatching (tree_of self.now.searcher) byte) }
        ensures in_no_match { IfSome result (λ set. (byte : ℕ) → byte < 256 → is_in set.now byte ≡ true
            → IsInNoMatch (end_at (tree_of self.now.searcher)) byte) }
    {
        Some(&self.non_matching)
    }

    /// The terminator, of which no byte is in a match. `None` where none was asked for, and where a start or an end of the text is
    /// asked for.
    fn line_terminator(&self) -> Option<LineTerminator>
        ensures exact { result ≡ self.now.terminator }
        ensures in_no_match { EndsNoMatch (tree_of self.now.searcher) result }
    {
        self.pattern.terminator
    }
}
