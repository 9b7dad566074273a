//! Changes in the room of the old bytes.

ghost use Rattle.std.specs.Prelude.{◌≡◌, ◌≢◌, ◌<◌, ◌≤◌, ◌+◌, ◌^◌, ◌++◌, ℕ, List, true, false, IfOk, OnOk, length, drop, slice_range, take};
ghost use Rattle.grep_matcher.specs.References.{LieIn, group_text};
ghost use Rattle.hir_tree.specs.Onward.{looks_nowhere};
ghost use Rattle.hir_tree.specs.Tree.{tree_of};
ghost use Rattle.sd_change.specs.Change.{AreFewIn, TellsRewritten};
ghost use Rattle.sd_replace.specs.FirstMatch.{IsAtTheStart, StandsAtTheFirst};
ghost use Rattle.sd_replace.specs.InPlace.{Became, HasPut, IsRewritten, IsRoomOf, IsUntouched, TellsOf, made_of, put_over};
ghost use Rattle.sd_replace.specs.Replacement.{Changes};
ghost use Rattle.sd_replace.specs.Replacer.{replacement_of};
ghost use Rattle.sd_replace.specs.Templates.{pieces_text};

use crate::Replacer;
use crate::searching::Search;
use grep_matcher::Match;
use grep_regex::RegexCaptures;
use sd_base::NoMemory;
use sd_change::{Changed, Rewritten};
use std::alloc::Global;

impl Replacer {
    /// Changes bytes in their own room, for as long as that is not wanting. Refuses for want of memory alone.
    pub(crate) fn rewrite_in_place(&self, content: Vec<u8>) -> Result<Rewritten, NoMemory>
        requires limit { self.now.limit ≡ 0 }
        requires onward { looks_nowhere (tree_of self.now.matcher.searcher) ≡ true }
        ensures rewritten { IfOk result (TellsRewritten (Changes (replacement_of self.now)) content.items) }
        ensures few { IfOk result (AreFewIn content.items) }
    {
        let mut search = Search::new(&self.matcher, &self.kept)?;
        let rewritten = self.rewrite_by(&mut search, content);
        self.kept.set(Some(search.into_groups()));
        rewritten
    }

    /// The same, by a search that is at its start.
    fn rewrite_by(&self, search: &mut Search<'_>, content: Vec<u8>) -> Result<Rewritten, NoMemory>
        requires limit { self.now.limit ≡ 0 }
        requires onward { looks_nowhere (tree_of self.now.matcher.searcher) ≡ true }
        requires start { IsAtTheStart self.now search.old }
        ensures rewritten { IfOk result (TellsRewritten (Changes (replacement_of self.now)) content.items) }
        ensures few { IfOk result (AreFewIn content.items) }
    {
        let Some(first) = self.find_first(search, content.as_slice())? else {
            return Ok(Rewritten::Same {
                bytes: content,
                count: 0,
            });
        };
        self.rewrite_from(content, search, first)
    }

    /// Puts a text in the place of each match, and keeps the bytes that are left. The search found the first match last.
    fn rewrite_from(
        &self,
        content: Vec<u8>,
        search: &mut Search<'_>,
        first: Match,
    ) -> Result<Rewritten, NoMemory>
        requires limit { self.now.limit ≡ 0 }
        requires onward { looks_nowhere (tree_of self.now.matcher.searcher) ≡ true }
        requires stands { StandsAtTheFirst self.now content.items search.old first }
        ensures rewritten { IfOk result (TellsRewritten (Changes (replacement_of self.now)) content.items) }
        ensures few { IfOk result (AreFewIn content.items) }
    {
        let mut room = Room::new(content);
        self.rewrite_all(search, first, &mut room)?;
        room.finish()
    }

    /// Puts a text in the place of each match, from match to match. The search found the first one last.
    fn rewrite_all(
        &self,
        search: &mut Search<'_>,
        first: Match,
        room: &mut Room,
    ) -> Result<(), NoMemory>
        requires limit { self.now.limit ≡ 0 }
        requires onward { looks_nowhere (tree_of self.now.matcher.searcher) ≡ true }
        requires stands { StandsAtTheFirst self.now room.old.bytes.items search.old first }
        requires untouched { IsUntouched room.old.bytes.items room.old }
        ensures { OnOk result (IsRewritten (replacement_of self.now) room.old.bytes.items room.new) }
    {
        hir_tree::a_pattern_without_looks_matches_by_what_follows();
        hir_tree::groups_lie_ahead();
        let mut text = Vec::new(self.alloc);
        let mut found = first;
        'matches: loop {
            self.put_one(&search.groups, found, room, &mut text)?;
            match search.next(&room.bytes)? {
                None => return Ok(()),
                Some(next) => found = next,
            }
        }
    }

    /// Puts the text of a match in its place. One that is made of groups is made in `made`, whose memory serves for the next one.
    #[inline(always)]
    fn put_one(
        &self,
        groups: &RegexCaptures,
        found: Match,
        room: &mut Room,
        made: &mut Vec<u8>,
    ) -> Result<(), NoMemory>
        requires order { room.old.written ≤ room.old.read }
        requires ahead { room.old.read ≤ found.start }
        requires rises { found.start ≤ found.end }
        requires within { found.end ≤ length room.old.bytes.items }
        requires few { room.old.count + 1 < 2 ^ 128 }
        requires lie { LieIn groups.now room.old.bytes.items }
        ensures room { OnOk result ((bytes : List ℕ) → IsRoomOf bytes room.old → IsRoomOf bytes room.new) }
        ensures made { OnOk result (made_of room.new ≡ (made_of room.old ++ slice_range room.old.bytes.items room.old.read found.start)
            ++ pieces_text (group_text room.old.bytes.items groups.now) self.now.template.pieces.items) }
        ensures order { OnOk result (room.new.written ≤ found.end) }
        ensures read { OnOk result (room.new.read ≡ found.end) }
        ensures count { OnOk result (room.new.count ≡ room.old.count + 1) }
    {
        if let Some(text) = self.template.text() {
            return room.put(self.alloc, found, text);
        }
        made.clear();
        self.template.append(&room.bytes, groups, made)?;
        room.put(self.alloc, found, made)
    }
}

/// How many new bytes that lie beside the old ones are moved back into their room: to move more may take longer than it saves.
const FEW: usize = 4096;

/// Old bytes, of which those at the front give way to new ones, for as long as these fit.
#[derive(Drop)]
pub(crate) struct Room {
    bytes: Vec<u8>,
    /// Up to where new bytes are written.
    written: usize,
    /// From where on the old ones are still to come.
    read: usize,
    /// How many matches were replaced.
    count: u128,
    /// Whether what is written differs from what stood there.
    differs: bool,
    /// All new bytes so far, once the room was wanting, until they are moved back.
    beside: Option<Vec<u8>>,
}

impl Room {
    /// Old bytes alone.
    fn new(bytes: Vec<u8>) -> Room
        ensures bytes { result.bytes.items ≡ bytes.items }
        ensures untouched { IsUntouched bytes.items result }
    {
        Room {
            bytes,
            written: 0,
            read: 0,
            count: 0,
            differs: false,
            beside: None,
        }
    }

    /// Keeps the old bytes up to a match, and puts a text in its place. Refuses for want of memory alone.
    #[inline(always)]
    fn put(&mut self, alloc: Global, found: Match, text: &[u8]) -> Result<(), NoMemory>
        requires order { self.old.written ≤ self.old.read }
        requires ahead { self.old.read ≤ found.start }
        requires rises { found.start ≤ found.end }
        requires within { found.end ≤ length self.old.bytes.items }
        requires few { self.old.count + 1 < 2 ^ 128 }
        ensures room { OnOk result ((bytes : List ℕ) → IsRoomOf bytes self.old → IsRoomOf bytes self.new) }
        ensures made { OnOk result (made_of self.new ≡ (made_of self.old ++ slice_range self.old.bytes.items self.old.read found.start) ++ text.now) }
        ensures order { OnOk result (self.new.written ≤ found.end) }
        ensures read { OnOk result (self.new.read ≡ found.end) }
        ensures count { OnOk result (self.new.count ≡ self.old.count + 1) }
    {
        self.keep_to(found.start())?;
        self.add(alloc, found.end(), text)?;
        self.read = found.end();
        self.count += 1;
        if self.beside.is_some() {
            self.come_back();
        }
        Ok(())
    }

    /// Whether few new bytes lie beside the old ones, and fit into the room again before those that are still to come.
    fn fits_again(&self) -> bool
        ensures within { result ≡ true → length (made_of self.now) ≤ length self.now.bytes.items }
        ensures more { result ≡ true → self.now.written ≤ length (made_of self.now) }
        ensures order { result ≡ true → length (made_of self.now) ≤ self.now.read }
    {
        let Some(made) = &self.beside else {
            return false;
        };
        let room = self.read.min(self.bytes.len()).min(FEW);
        self.written <= made.len() && made.len() <= room
    }

    /// Moves the new bytes that lie beside the old ones back into their room, if they fit there again.
    #[inline(never)]
    fn come_back(&mut self)
        requires order { self.old.written ≤ self.old.read }
        ensures room { (bytes : List ℕ) → IsRoomOf bytes self.old → IsRoomOf bytes self.new }
        ensures made { made_of self.new ≡ made_of self.old }
        ensures order { self.new.written ≤ self.old.read }
        ensures read { self.new.read ≡ self.old.read }
        ensures count { self.new.count ≡ self.old.count }
    {
        if !self.fits_again() {
            return;
        }
        if let Some(made) = self.beside.take() {
            self.written = 0;
            self.write(&made);
        }
    }

    /// Keeps the old bytes up to a place: they follow the new ones.
    #[inline(always)]
    fn keep_to(&mut self, place: usize) -> Result<(), NoMemory>
        requires order { self.old.written ≤ self.old.read }
        requires ahead { self.old.read ≤ place }
        requires within { place ≤ length self.old.bytes.items }
        ensures room { OnOk result ((bytes : List ℕ) → IsRoomOf bytes self.old → IsRoomOf bytes self.new) }
        ensures made { OnOk result (made_of self.new ≡ made_of self.old ++ slice_range self.old.bytes.items self.old.read place) }
        ensures size { OnOk result (length self.new.bytes.items ≡ length self.old.bytes.items) }
        ensures order { OnOk result (self.new.written ≤ place) }
        ensures read { OnOk result (self.new.read ≡ place) }
        ensures count { OnOk result (self.new.count ≡ self.old.count) }
    {
        match &mut self.beside {
            Some(made) => {
                made.extend_from_slice(&self.bytes[self.read..place])?;
                self.read = place;
            }
            None => self.move_to(place),
        }
        Ok(())
    }

    /// Writes the old bytes up to a place behind the new ones.
    #[inline(always)]
    fn move_to(&mut self, place: usize)
        requires order { self.old.written ≤ self.old.read }
        requires ahead { self.old.read ≤ place }
        requires within { place ≤ length self.old.bytes.items }
        ensures put { HasPut self.old (slice_range self.old.bytes.items self.old.read place) self.new }
        ensures order { self.new.written ≤ place }
        ensures read { self.new.read ≡ place }
        ensures count { self.new.count ≡ self.old.count }
        ensures beside { self.new.beside ≡ self.old.beside }
    {
        if self.written == self.read {
            self.written = place;
            self.read = place;
            return;
        }
        self.differs = self.differs_by(&self.bytes[self.read..place]);
        move_down(&mut self.bytes, self.read, place, self.written);
        self.written += place - self.read;
        self.read = place;
    }

    /// Adds a text to the new bytes: in the room up to a place, or beside the old ones where it doesn't fit.
    #[inline(always)]
    fn add(&mut self, alloc: Global, end: usize, text: &[u8]) -> Result<(), NoMemory>
        requires order { self.old.written ≤ end }
        requires within { end ≤ length self.old.bytes.items }
        ensures room { OnOk result ((bytes : List ℕ) → IsRoomOf bytes self.old → IsRoomOf bytes self.new) }
        ensures made { OnOk result (made_of self.new ≡ made_of self.old ++ text.now) }
        ensures order { OnOk result (self.new.written ≤ end) }
        ensures count { OnOk result (self.new.count ≡ self.old.count) }
    {
        if let Some(made) = &mut self.beside {
            made.extend_from_slice(text)?;
        } else if text.len() <= end - self.written {
            self.write(text);
        } else {
            let made = self.made_beside(alloc, text)?;
            self.beside = Some(made);
        }
        Ok(())
    }

    /// Writes a text behind the new bytes.
    fn write(&mut self, text: &[u8])
        requires { self.old.written + length text.now ≤ length self.old.bytes.items }
        ensures put { HasPut self.old text.now self.new }
        ensures read { self.new.read ≡ self.old.read }
        ensures count { self.new.count ≡ self.old.count }
        ensures beside { self.new.beside ≡ self.old.beside }
    {
        self.differs = self.differs_by(text);
        write_at(&mut self.bytes, self.written, text);
        self.written += text.len();
    }

    /// Whether what is written differs from what stood there, once a piece more is written.
    fn differs_by(&self, piece: &[u8]) -> bool
        requires { self.now.written + length piece.now ≤ length self.now.bytes.items }
        ensures { TellsOf self.now piece.now result }
    {
        self.differs || &self.bytes[self.written..self.written + piece.len()] != piece
    }

    /// The new bytes in the room and a text, with memory for as many as there are old ones.
    #[inline(never)]
    fn made_beside(&self, alloc: Global, text: &[u8]) -> Result<Vec<u8>, NoMemory>
        requires { self.now.written ≤ length self.now.bytes.items }
        ensures { IfOk result (λ made. made.items ≡ take self.now.written self.now.bytes.items ++ text.now) }
    {
        let mut made = Vec::with_capacity(alloc, self.bytes.len())?;
        made.extend_from_slice(&self.bytes[..self.written])?;
        made.extend_from_slice(text)?;
        Ok(made)
    }

    /// What the bytes have become, once the old ones that are left are kept. Refuses for want of memory alone.
    fn finish(mut self) -> Result<Rewritten, NoMemory>
        requires order { self.written ≤ self.read }
        requires within { self.read ≤ length self.bytes.items }
        ensures { (bytes : List ℕ) → IsRoomOf bytes self → IfOk result (Became bytes (made_of self ++ drop self.read self.bytes.items) self.count) }
    {
        let end = self.bytes.len();
        self.keep_to(end)?;
        Ok(self.told())
    }

    /// What the bytes have become, of which none is left.
    fn told(self) -> Rewritten
        requires { self.written ≤ length self.bytes.items }
        ensures { (bytes : List ℕ) → IsRoomOf bytes self → Became bytes (made_of self) self.count result }
    {
        let count = self.count;
        let is_other = self.is_other();
        let new_bytes = self.into_made();
        if is_other {
            Rewritten::Other(Changed { new_bytes, count })
        } else {
            Rewritten::Same {
                bytes: new_bytes,
                count,
            }
        }
    }

    /// Whether the new bytes are others than the old ones, of which none is left.
    fn is_other(&self) -> bool
        requires { self.now.written ≤ length self.now.bytes.items }
        ensures same { (bytes : List ℕ) → IsRoomOf bytes self.now → result ≡ false → made_of self.now ≡ bytes }
        ensures other { (bytes : List ℕ) → IsRoomOf bytes self.now → result ≡ true → made_of self.now ≢ bytes }
    {
        if self.differs {
            return true;
        }
        match &self.beside {
            Some(made) => *made != self.bytes,
            None => self.written < self.bytes.len(),
        }
    }

    /// The new bytes.
    fn into_made(self) -> Vec<u8>
        ensures { result.items ≡ made_of self }
    {
        let Room {
            mut bytes,
            written,
            beside,
            ..
        } = self;
        match beside {
            Some(made) => made,
            None => {
                bytes.truncate(written);
                bytes
            }
        }
    }
}

/// Moves the bytes between two places down to a third. Where they come to lie before their old place they are copied at once.
fn move_down(bytes: &mut [u8], from: usize, to: usize, place: usize)
    requires down { place ≤ from }
    requires order { from ≤ to }
    requires within { to ≤ length bytes.old }
    ensures { bytes.new ≡ put_over bytes.old place (slice_range bytes.old from to) }
{
    let count = to - from;
    if count <= from - place {
        let (front, back) = bytes.split_at_mut(from);
        write_at(front, place, &back[..count]);
    } else {
        bytes.copy_within(from..to, place);
    }
}

/// Puts a text at a place.
fn write_at(bytes: &mut [u8], place: usize, text: &[u8])
    requires { place + length text.now ≤ length bytes.old }
    ensures { bytes.new ≡ put_over bytes.old place text.now }
{
    bytes[place..place + text.len()].copy_from_slice(text);
}
