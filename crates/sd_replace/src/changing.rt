//! What a replacer does to bytes.

ghost use Rattle.std.specs.Prelude.{◌≡◌, ◌<◌, ◌≤◌, ◌+◌, ◌^◌, ◌↔◌, ◌++◌, ◌∷◌, [], ℕ, List};
ghost use Rattle.std.specs.Prelude.{IfOk, IfSome, OnOk, IsTrue, Some, None, length, drop, slice_range};
ghost use Rattle.grep_matcher.specs.Cover.{IsFirst, accepts};
ghost use Rattle.grep_matcher.specs.References.{LieIn, group_text};
ghost use Rattle.grep_matcher.specs.Span.{Span};
ghost use Rattle.grep_regex.specs.Matching.{end_at};
ghost use Rattle.hir_tree.specs.Tree.{tree_of};
ghost use Rattle.sd_change.specs.Change.{AreFew, Tells};
ghost use Rattle.sd_replace.specs.FirstMatch.{IsAtTheStart, StandsAtTheFirst};
ghost use Rattle.sd_replace.specs.OneChange.{one_change};
ghost use Rattle.sd_replace.specs.Quota.{Knows, Limits};
ghost use Rattle.sd_replace.specs.Replacement.{Changes};
ghost use Rattle.sd_replace.specs.Replacer.{replacement_of};
ghost use Rattle.sd_replace.specs.Searching.{AreOfMatch};
ghost use Rattle.sd_replace.specs.Templates.{pieces_text};
ghost use Rattle.sd_replace.specs.Writing.{HasWritten, IsNothing};

use crate::Replacer;
use crate::quota::Quota;
use crate::searching::Search;
use crate::template::Template;
use grep_matcher::{Match, Matcher};
use grep_regex::RegexCaptures;
use sd_base::NoMemory;
use sd_change::{Changed, Replaces, Rewritten};
use std::alloc::Global;

impl Replacer {
    /// The new bytes and the number of matches that were replaced, of one search. `None` where there is no match. At most
    /// one match begins at each place, the end among them.
    ///
    /// Refuses for want of memory alone.
    pub fn change(&self, content: &[u8]) -> Result<Option<Changed>, NoMemory>
        ensures changed { IfOk result (Tells (Changes (replacement_of self.now)) content.now) }
        ensures few { IfOk result (AreFew content.now) }
    {
        let mut search = Search::new(&self.matcher, &self.kept)?;
        let changed = self.change_by(&mut search, content);
        self.kept.set(Some(search.into_groups()));
        changed
    }

    /// The same, by a search that is at its start.
    fn change_by(
        &self,
        search: &mut Search<'_>,
        content: &[u8],
    ) -> Result<Option<Changed>, NoMemory>
        requires start { IsAtTheStart self.now search.old }
        ensures changed { IfOk result (Tells (Changes (replacement_of self.now)) content.now) }
        ensures few { IfOk result (AreFew content.now) }
    {
        let Some(first) = self.find_first(search, content)? else {
            return Ok(None);
        };
        let changed = self.replace_from(content, search, first)?;
        Ok(Some(changed))
    }

    /// Whether there is a match, and so one that is replaced. Refuses for want of memory alone.
    pub fn has_matches(&self, content: &[u8]) -> Result<bool, NoMemory>
        ensures { IfOk result (λ there. (new_bytes : List ℕ) × (count : ℕ) × Changes (replacement_of self.now) content.now new_bytes count
            × (IsTrue there ↔ (0 < count))) }
    {
        self.matcher.is_match(content)
    }

    /// The new bytes. Refuses for want of memory alone.
    pub fn replace(&self, content: &[u8]) -> Result<Vec<u8>, NoMemory>
        ensures { IfOk result (λ new_bytes. (count : ℕ) × Changes (replacement_of self.now) content.now new_bytes.items count) }
    {
        match self.change(content)? {
            Some(changed) => Ok(changed.new_bytes),
            None => Ok(Vec::from_slice(self.alloc, content)?),
        }
    }

    /// The new bytes, as a preview shows them: without colours. Refuses for want of memory alone.
    pub fn replace_preview(&self, content: &[u8]) -> Result<Vec<u8>, NoMemory>
        ensures { IfOk result (λ new_bytes. (count : ℕ) × Changes (replacement_of self.now) content.now new_bytes.items count) }
    {
        self.replace(content)
    }

    /// How many matches are replaced. Refuses for want of memory alone.
    pub fn count(&self, content: &[u8]) -> Result<u128, NoMemory>
        ensures { IfOk result (λ count. (new_bytes : List ℕ) × Changes (replacement_of self.now) content.now new_bytes count) }
    {
        match self.change(content)? {
            Some(changed) => Ok(changed.count),
            None => Ok(0),
        }
    }

    /// The first match. The search is at its start.
    pub(crate) fn find_first(
        &self,
        search: &mut Search<'_>,
        content: &[u8],
    ) -> Result<Option<Match>, NoMemory>
        requires start { IsAtTheStart self.now search.old }
        ensures found { IfOk result (IsFirst (accepts None (end_at (tree_of self.now.matcher.searcher) content.now)) 0 (length content.now)) }
        ensures stands { IfOk result (λ found. IfSome found (StandsAtTheFirst self.now content.now search.new)) }
    {
        search.next(content)
    }

    /// The new bytes, made from match to match. The search found the first one last.
    fn replace_from(
        &self,
        content: &[u8],
        search: &mut Search<'_>,
        first: Match,
    ) -> Result<Changed, NoMemory>
        requires stands { StandsAtTheFirst self.now content.now search.old first }
        ensures changed { IfOk result (λ changed. Changes (replacement_of self.now) content.now changed.new_bytes.items changed.count) }
        ensures few { IfOk result (λ changed. changed.count ≤ length content.now + 1) }
    {
        let mut made = Made::new(self.alloc, content)?;
        self.replace_all(content, search, first, &mut made)?;
        made.finish(content)
    }

    /// Puts the text of each match within the limit in its place, from match to match. The search found the first one last.
    fn replace_all(
        &self,
        content: &[u8],
        search: &mut Search<'_>,
        first: Match,
        made: &mut Made,
    ) -> Result<(), NoMemory>
        requires stands { StandsAtTheFirst self.now content.now search.old first }
        requires nothing { IsNothing made.old }
        ensures changed { OnOk result (Changes (replacement_of self.now) content.now
            (made.new.new_bytes.items ++ drop made.new.copied content.now) made.new.count) }
        ensures behind { OnOk result (made.new.copied ≤ length content.now) }
        ensures few { OnOk result (made.new.count ≤ length content.now + 1) }
    {
        let mut quota = Quota::new(content, self.counted, self.limit);
        let mut found = first;
        'matches: loop {
            self.replace_one(content, &search.groups, found, &mut quota, made)?;
            if quota.is_spent() {
                return Ok(());
            }
            match search.next(content)? {
                None => return Ok(()),
                Some(next) => found = next,
            }
        }
    }

    /// Puts the text of a match in its place, where it is within the limit.
    fn replace_one(
        &self,
        content: &[u8],
        groups: &RegexCaptures,
        found: Match,
        quota: &mut Quota<'_>,
        made: &mut Made,
    ) -> Result<(), NoMemory>
        requires limits { Limits quota.old (replacement_of self.now) content.now }
        requires order { quota.old.place ≤ found.start }
        requires behind { made.old.copied ≤ found.start }
        requires few { made.old.count ≤ found.start }
        requires within { found.end ≤ length content.now }
        requires groups { AreOfMatch (tree_of self.now.matcher.searcher) content.now found.start groups.now }
        ensures written { OnOk result ((done : List Span) → Knows quota.old done
            → HasWritten (replacement_of self.now) content.now done made.old.new_bytes.items made.old.copied made.old.count
            → HasWritten (replacement_of self.now) content.now (done ++ found ∷ []) made.new.new_bytes.items made.new.copied made.new.count) }
        ensures known { (done : List Span) → Knows quota.old done → Knows quota.new (done ++ found ∷ []) }
        ensures limits { Limits quota.new (replacement_of self.now) content.now }
        ensures order { quota.new.place ≤ found.start }
        ensures behind { OnOk result (made.new.copied ≤ found.end) }
        ensures few { OnOk result (made.new.count ≤ found.start + 1) }
    {
        if quota.admits(found.start()) {
            made.put(content, found, &self.template, groups)?;
        }
        Ok(())
    }
}

/// The new bytes so far.
#[derive(Drop)]
pub(crate) struct Made {
    new_bytes: Vec<u8>,
    /// Up to where the old bytes are copied.
    copied: usize,
    /// How many matches were replaced.
    count: u128,
}

impl Made {
    /// No new bytes yet, and room for as many as the old ones. Refuses for want of memory alone.
    fn new(alloc: Global, content: &[u8]) -> Result<Made, NoMemory>
        ensures { IfOk result IsNothing }
    {
        let new_bytes = Vec::with_capacity(alloc, content.len())?;
        Ok(Made {
            new_bytes,
            copied: 0,
            count: 0,
        })
    }

    /// Copies the old bytes up to a match, and puts a text in its place.
    fn put(
        &mut self,
        content: &[u8],
        found: Match,
        template: &Template,
        groups: &RegexCaptures,
    ) -> Result<(), NoMemory>
        requires behind { self.old.copied ≤ found.start }
        requires few { self.old.count + 1 < 2 ^ 128 }
        requires within { found.end ≤ length content.now }
        requires lie { LieIn groups.now content.now }
        ensures bytes { OnOk result (self.new.new_bytes.items ≡ (self.old.new_bytes.items ++ slice_range content.now self.old.copied found.start)
            ++ pieces_text (group_text content.now groups.now) template.now.pieces.items) }
        ensures copied { OnOk result (self.new.copied ≡ found.end) }
        ensures count { OnOk result (self.new.count ≡ self.old.count + 1) }
    {
        self.new_bytes
            .extend_from_slice(&content[self.copied..found.start()])?;
        template.append(content, groups, &mut self.new_bytes)?;
        self.copied = found.end();
        self.count += 1;
        Ok(())
    }

    /// Copies the old bytes that are left.
    fn finish(mut self, content: &[u8]) -> Result<Changed, NoMemory>
        requires behind { self.copied ≤ length content.now }
        ensures bytes { IfOk result (λ changed. changed.new_bytes.items ≡ self.new_bytes.items ++ drop self.copied content.now) }
        ensures count { IfOk result (λ changed. changed.count ≡ self.count) }
    {
        self.new_bytes.extend_from_slice(&content[self.copied..])?;
        Ok(Changed {
            new_bytes: self.new_bytes,
            count: self.count,
        })
    }
}

impl Replaces for Replacer {
    ghost change = { λ replacer. Changes (replacement_of replacer) };

    ghost one = { λ replacer. one_change (replacement_of replacer) replacer.matcher.whole };

    fn change(&self, content: &[u8]) -> Result<Option<Changed>, NoMemory> {
        Replacer::change(self, content)
    }

    // A pattern that looks behind would see new bytes in the place of old ones.
    fn rewrite(&self, content: Vec<u8>) -> Result<Rewritten, NoMemory> {
        if self.limit == 0 && self.matcher.looks_nowhere() {
            self.rewrite_in_place(content)
        } else {
            self.rewrite_beside(content)
        }
    }
}
