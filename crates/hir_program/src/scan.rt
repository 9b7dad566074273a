//! A filter that finds quickly where a match of a program may be: shift-and over the spots that take bytes, behind a rare-byte
//! prefilter.

ghost use Rattle.std.specs.Prelude.{◌≡◌, ◌<◌, ◌≤◌, ◌+◌, ◌⊎◌, ℕ, false, true, List, length, vec_len, slice_index, bit_and, Some, IfOk, IfSome, IfNone};
ghost use Rattle.hir_program.specs.Entry.{IsEntry};
ghost use Rattle.hir_program.specs.Masks.{AreOpen, AreShifts, HasBit-prop};
ghost use Rattle.std.proofs.Props.{props};
ghost use Rattle.hir_tree.specs.declared.look.Look.TheVariants as look;

mod asked;
mod bits;
mod prefilter;
mod reach;
mod required;
mod shifts;
mod takes;

use crate::entry::entry_of;
use crate::loops::Loops;
use crate::spot::Spot;
use asked::line_start;
use bits::{MATCH, Moves, SURE, joined, moves_in};
use hir_tree::{Look, holds};
use prefilter::Prefilter;
use required::{Required, ends_at_once};
use sd_base::NoMemory;
use shifts::Shift;
use std::alloc::Global;

/// How many spots a program has at most that is searched block by block: so the marks of a block are at most 64 KB.
pub const SPOTS: usize = 256;

/// A filter: which places of a text may have a match. One bit for each spot that takes bytes.
#[derive(Drop)]
pub struct Scan {
    /// The spots of the bits.
    of: Vec<usize>,
    /// For each byte, the spots that take it, or the ASCII character that it is.
    takes: Vec<u64>,
    /// The spots that may be tried after some took bytes, MATCH if a match may end there where the last look holds, and SURE
    /// if one may also end where it doesn't: row r has a mask for each choice of the eight bits from 8 r on.
    after: Vec<u64>,
    /// How the spots move on by a byte, where the rows needn't be asked.
    moves: Moves,
    /// What each byte does to the spots that may be tried, where they so move.
    shifts: Vec<Shift>,
    /// The same as the rows have for each spot of the program, if it has few.
    firsts: Vec<u64>,
    /// The same for the start of the program.
    start: u64,
    /// The spots that may take a character beyond ASCII.
    wide: u64,
    /// For each byte, what may go on before it: the spots that take it, or a character that begins with it, SURE, and MATCH where the
    /// last look may hold.
    open_before: Vec<u64>,
    /// A look that each run asks before its first byte, if there is one.
    first_look: Option<Look>,
    /// A look that may be asked before the end of a match, if there is one.
    last_look: Option<Look>,
    /// How places are passed over up to the next one where a match may pass a required spot, if it does by bytes that are rare in texts, or
    /// begins by a look.
    prefilter: Option<Prefilter>,
    /// How many bytes of a run are looked at before the place where it begins is given as a candidate: a guess, which changes the
    /// time alone.
    look_ahead: usize,
    /// Which bytes are run over at which spots.
    loops: Loops,
    /// The spot at which a search begins, with group 0 begun.
    entry: usize,
    ghost all_bytes: { vec_len takes ≡ 256 },
    ghost all_open: { vec_len open_before ≡ 256 },
    ghost open_before_bytes: { AreOpen takes.items wide last_look open_before.items } by { Prim.hlevel (props, HasBit-prop) },
    ghost all_rows: { vec_len after ≡ 2048 },
    ghost all_shifts: { vec_len shifts ≡ 256 },
    ghost shift: { AreShifts takes.items moves start wide shifts.items } by { Prim.hlevel (props, HasBit-prop) },
}

/// How far the filter has looked.
#[derive(Clone, Copy)]
struct FilterState {
    /// The least place where a run may begin.
    from: usize,
    /// The place that it has come to.
    place: usize,
    /// The spots that may be tried there, of the runs that began before.
    state: u64,
    /// The place from which on the prefilter is worth while again.
    ahead: usize,
}

impl FilterState {
    ghost use Rattle.hir_program.specs.Scan.{Looked};
    ghost use Rattle.hir_program.specs.declared.scan.Scan.{Scan};

    /// The same, but where no spot may be tried, a run begins at the place at the earliest.
    fn settled(self) -> FilterState
        ensures looked { (text : List ℕ) (filter : Scan) (at : ℕ) → Looked text filter at self → Looked text filter at result }
        ensures place { result.place ≡ self.place }
    {
        let from = if self.state == 0 {
            self.place
        } else {
            self.from
        };
        FilterState {
            from,
            place: self.place,
            state: self.state,
            ahead: self.ahead,
        }
    }

    /// Whether the prefilter stopped at the place, and not behind it.
    fn is_at_stop(self) -> bool {
        self.ahead.checked_sub(self.place) == Some(1)
    }
}

/// Places that may have a match: none before `from` has one. A run that begins there may end at `until`, or go on in a
/// way that the filter doesn't follow.
#[derive(Clone, Copy, Debug)]
pub struct Candidate {
    /// The place where a match may begin.
    pub from: usize,
    /// How far the filter looked.
    pub until: usize,
}

impl Scan {
    ghost use Rattle.hir_program.specs.declared.spot.Spot.{Spot};
    ghost use Rattle.hir_program.specs.Loops.{IsDeadBy};
    ghost use Rattle.hir_program.specs.Masks.{AreDead, IsDead, IsOpen, IsPart, NoRun, is_taker, takes_byte};
    ghost use Rattle.hir_program.specs.Program.{spot_at};
    ghost use Rattle.hir_program.specs.Scan.{IsFilterOf, IsOpenAt, Looked, NoEnd, NoneBegins};

    /// The filter of a program; None where more than 62 spots take bytes, or it has no entry. Refuses for want of memory alone.
    pub fn new(alloc: Global, spots: &[Spot]) -> Result<Option<Scan>, NoMemory>
        ensures { IfOk result (λ scan. IfSome scan (λ s. IsFilterOf spots.now s)) }
    {
        let Some(mut scan) = Scan::without_loops(alloc, spots)? else {
            return Ok(None);
        };
        scan.loops = Loops::new(alloc, spots, &scan)?;
        Ok(Some(scan))
    }

    /// The same, which tells of no loop.
    fn without_loops(alloc: Global, spots: &[Spot]) -> Result<Option<Scan>, NoMemory>
        ensures { IfOk result (λ scan. IfSome scan (λ s. IsFilterOf spots.now s)) }
    {
        let (Some(of), Some(entry)) = (takes::takers(alloc, spots)?, entry_of(spots)) else {
            return Ok(None);
        };
        let first_look = asked::first_look(alloc, spots, of.as_slice())?;
        let last_look = asked::last_look(spots);
        let takes = takes::takes(alloc, spots, of.as_slice())?;
        let after = reach::after(alloc, spots, of.as_slice(), last_look)?;
        let firsts = reach::firsts(alloc, spots, of.as_slice(), last_look)?;
        let start = reach::mask_from(alloc, spots, of.as_slice(), 0, last_look)?;
        let moves = moves_in(after.as_slice(), of.len());
        let wide = takes::wide(spots, of.as_slice());
        let shifts = shifts::shifts(alloc, takes.as_slice(), moves, start, wide)?;
        let open_before = takes::open_before(alloc, takes.as_slice(), wide, last_look)?;
        let required = Required::rarest(
            takes.as_slice(),
            after.as_slice(),
            start,
            of.len(),
            last_look,
        );
        let is_sure = first_look.is_none() && ends_at_once(after.as_slice(), start);
        let prefilter = prefilter::worth_while(
            required,
            takes.as_slice(),
            wide,
            first_look,
            last_look,
            is_sure,
        );
        let look_ahead = prefilter::look_ahead(&prefilter, is_sure);
        Ok(Some(Scan {
            of,
            takes,
            after,
            moves,
            firsts,
            start,
            wide,
            open_before,
            first_look,
            last_look,
            shifts,
            prefilter,
            look_ahead,
            loops: Loops::none(alloc),
            entry,
        }))
    }

    /// The spot at which a search may begin, with group 0 begun, in the place of the first one.
    pub fn entry(&self) -> usize
        ensures { (spots : List Spot) → IsFilterOf spots self.now → IsEntry spots result }
    {
        self.entry
    }

    /// Which bytes are run over at which spots.
    pub fn loops(&self) -> &Loops
        ensures { result.now ≡ self.now.loops }
    {
        &self.loops
    }

    /// Whether a run may begin at a place, as the look says that each asks first.
    fn may_begin(&self, text: &[u8], place: usize) -> bool
        requires { place ≤ length text.now }
        ensures { result ≡ false → NoneBegins text.now self.now place (place + 1) }
    {
        match self.first_look {
            Some(look) => holds(look, text, place),
            None => true,
        }
    }

    /// What may go on at a place.
    fn open_at(&self, text: &[u8], place: usize) -> u64
        requires { place ≤ length text.now }
        ensures { IsOpenAt text.now place self.now result }
    {
        if place >= text.len() {
            return SURE | MATCH;
        }
        self.open_before[text[place] as usize]
    }

    /// Whether a match may end at a place, where these spots may be tried.
    fn may_end(&self, state: u64, text: &[u8], place: usize) -> bool
        requires { place ≤ length text.now }
        ensures { result ≡ false → NoEnd text.now place self.now.last_look state }
    {
        state & self.open_at(text, place) >= SURE
    }

    /// Whether an empty match may stand at a place.
    fn may_be_empty(&self, text: &[u8], place: usize) -> bool
        requires { place ≤ length text.now }
        ensures { result ≡ false → NoEnd text.now place self.now.last_look self.now.start ⊎ NoneBegins text.now self.now place (place + 1) }
    {
        self.may_end(self.start, text, place) && self.may_begin(text, place)
    }

    /// Whether one of these spots may go on at a place, or a match may end there.
    fn is_open(&self, mask: u64, text: &[u8], place: usize) -> bool
        requires { place ≤ length text.now }
        ensures { result ≡ false → (spots : List Spot) → IsFilterOf spots self.now
            → AreDead text.now spots self.now.of.items self.now.last_look place mask }
    {
        mask & self.open_at(text, place) != 0
    }

    /// Whether a thread that is at a spot and a place may come to a match.
    #[inline(always)]
    pub fn may_go_on(&self, spot: usize, text: &[u8], place: usize) -> bool
        requires { place ≤ length text.now }
        ensures { result ≡ false → (spots : List Spot) → IsFilterOf spots self.now → IsDead text.now spots place spot }
    {
        if spot >= self.firsts.len() {
            return true;
        }
        self.is_open(self.firsts[spot], text, place)
    }

    /// Whether a spot that takes a byte or a character takes this one; None where it is beyond ASCII, or the program has more spots
    /// than are searched block by block.
    #[inline(always)]
    pub fn takes_ascii(&self, spot: usize, byte: u8) -> Option<bool>
        ensures { IfSome result (λ takes. (byte < 128) × ((spots : List Spot) → IsFilterOf spots self.now
            → is_taker (spot_at spots spot) ≡ true → takes ≡ takes_byte (spot_at spots spot) byte)) }
    {
        if byte >= 128 || spot >= self.firsts.len() {
            return None;
        }
        Some(self.takes[byte as usize] & self.firsts[spot] != 0)
    }

    /// Whether a run may begin at a place, by what stands there.
    pub fn may_start(&self, text: &[u8], place: usize) -> bool
        requires { place ≤ length text.now }
        ensures { result ≡ false → NoneBegins text.now self.now place (place + 1) }
    {
        self.is_open(self.start, text, place)
    }

    /// The next start of a line, from a place on, where a run may begin.
    #[inline(always)]
    fn next_line(&self, text: &[u8], at: usize) -> Option<Candidate>
        requires at { at ≤ length text.now }
        requires look { self.now.first_look ≡ Some look.StartLF }
        ensures none { IfNone result (NoneBegins text.now self.now at (length text.now + 1)) }
        ensures some { IfSome result (λ c. NoneBegins text.now self.now at c.from) }
        ensures order { IfSome result (λ c. (at ≤ c.from) × (c.from ≤ c.until) × (c.until ≤ length text.now)) }
    {
        let mut place = line_start(text, at);
        while place <= text.len() && !self.may_start(text, place) {
            place = line_start(text, place + 1);
        }
        if place > text.len() {
            return None;
        }
        Some(Candidate {
            from: place,
            until: place,
        })
    }

    /// What may go on before a byte.
    fn open_by(&self, byte: u8) -> u64
        ensures { IsOpen byte (slice_index self.now.takes.items byte) self.now.wide self.now.last_look result }
    {
        self.open_before[byte as usize]
    }

    /// Whether a thread that is at a spot may come to a match at a place where this byte stands.
    pub fn may_go_on_by(&self, spot: usize, byte: u8) -> bool
        ensures { result ≡ false → (spots : List Spot) → IsFilterOf spots self.now → IsDeadBy spots spot byte }
    {
        spot >= self.firsts.len() || self.firsts[spot] & self.open_by(byte) != 0
    }

    /// Passes over places from one on up to the next stop of the prefilter, and goes back from there as long as spots before a required one may
    /// have taken the bytes.
    fn skip_once(&self, prefilter: &Prefilter, text: &[u8], at: usize) -> FilterState
        requires own { self.now.prefilter ≡ Some prefilter.now }
        requires at { at ≤ length text.now }
        ensures none { NoneBegins text.now self.now at result.from }
        ensures state { result.state ≡ 0 }
        ensures place { result.place ≡ result.from }
        ensures after { at ≤ result.from }
        ensures within { result.from ≤ length text.now }
    {
        let next = prefilter.next(text, at);
        if next == text.len() && !prefilter.required.may_end() {
            return FilterState {
                from: next,
                place: next,
                state: 0,
                ahead: next,
            };
        }
        let gap = prefilter.gap(self.takes.as_slice(), text, at, next);
        FilterState {
            from: gap,
            place: gap,
            state: 0,
            ahead: next + 1,
        }
    }

    /// The same, over stops too at which and before which no run may begin.
    #[inline(never)]
    fn skip_ahead(&self, text: &[u8], at: usize) -> FilterState
        requires { at ≤ length text.now }
        ensures none { NoneBegins text.now self.now at result.from }
        ensures state { result.state ≡ 0 }
        ensures place { result.place ≡ result.from }
        ensures after { at ≤ result.from }
        ensures within { result.from ≤ length text.now }
    {
        let Some(prefilter) = &self.prefilter else {
            return FilterState {
                from: at,
                place: at,
                state: 0,
                ahead: text.len(),
            };
        };
        let mut so_far = self.skip_once(prefilter, text, at);
        while so_far.is_at_stop()
            && so_far.place < text.len()
            && !self.may_start(text, so_far.place)
        {
            so_far = self.skip_once(prefilter, text, so_far.place + 1);
        }
        so_far
    }

    /// The spots that may be tried at a place: those of the state, and those of the start, if a run may begin there.
    fn live(&self, state: u64, text: &[u8], place: usize) -> u64
        requires { place < length text.now }
        ensures kept { IsPart state result }
        ensures begun { IsPart self.now.start result ⊎ NoneBegins text.now self.now place (place + 1) }
    {
        let is_more = self.start & !state != 0;
        if is_more && self.may_start(text, place) && !self.may_begin(text, place) {
            return state;
        }
        state | self.start
    }

    /// Whether no spot may be tried, and the prefilter is worth while.
    fn may_skip(&self, so_far: FilterState) -> bool
        ensures { result ≡ true → so_far.state ≡ 0 }
    {
        self.prefilter.is_some() && so_far.state == 0 && so_far.place >= so_far.ahead
    }

    /// The same, or after a skip, if one is worth while.
    #[inline(always)]
    fn skipped(&self, text: &[u8], so_far: FilterState) -> FilterState
        requires { so_far.place ≤ length text.now }
        ensures looked { (at : ℕ) → Looked text.now self.now at so_far → Looked text.now self.now at result }
        ensures after { so_far.place ≤ result.place }
        ensures within { result.place ≤ length text.now }
    {
        if self.may_skip(so_far) {
            self.skip_ahead(text, so_far.place)
        } else {
            so_far
        }
    }

    /// Goes on by shifts, up to a byte that an odd spot takes, or that may begin a character beyond ASCII, or to where the
    /// prefilter is worth while, or where enough of a run was looked at.
    fn run_shifts(&self, text: &[u8], begin: FilterState) -> FilterState
        requires { begin.place ≤ length text.now }
        ensures looked { (at : ℕ) → Looked text.now self.now at begin → Looked text.now self.now at result }
        ensures after { begin.place ≤ result.place }
        ensures within { result.place ≤ length text.now }
    {
        let mut so_far = begin.settled();
        if self.first_look.is_some() || self.start >= SURE {
            return so_far;
        }
        let end = text.len().min(so_far.from.saturating_add(self.look_ahead));
        while so_far.place < end && !self.may_skip(so_far) {
            let shift = self.shifts[text[so_far.place] as usize];
            if (so_far.state | self.start) & shift.odd != 0 {
                return so_far;
            }
            let next = FilterState {
                from: so_far.from,
                place: so_far.place + 1,
                state: shift.after(so_far.state),
                ahead: so_far.ahead,
            };
            so_far = next.settled();
        }
        so_far
    }

    /// The next places of a text, from one on, that may have a match, by shifts.
    #[inline(never)]
    fn next_by_shifts(&self, text: &[u8], at: usize) -> Option<Candidate>
        requires { at ≤ length text.now }
        ensures none { IfNone result (NoneBegins text.now self.now at (length text.now + 1)) }
        ensures some { IfSome result (λ c. NoneBegins text.now self.now at c.from) }
        ensures order { IfSome result (λ c. (at ≤ c.from) × (c.from ≤ c.until) × (c.until ≤ length text.now)) }
    {
        let begin = FilterState {
            from: at,
            place: at,
            state: 0,
            ahead: at,
        };
        let mut so_far = self.run_shifts(text, self.skipped(text, begin));
        while so_far.place < text.len() {
            let FilterState {
                from,
                place,
                state,
                ahead,
            } = so_far;
            if state != 0 && place - from >= self.look_ahead {
                return Some(Candidate { from, until: place });
            }
            let live = self.live(state, text, place);
            let byte = text[place];
            if byte >= 128 && live & self.wide != 0 {
                return Some(Candidate { from, until: place });
            }
            if self.may_be_empty(text, place) {
                return Some(Candidate { from, until: place });
            }
            let next = joined(self.after.as_slice(), live & self.takes[byte as usize]);
            let until = place + 1;
            if self.may_end(next, text, until) {
                return Some(Candidate { from, until });
            }
            let on = FilterState {
                from,
                place: until,
                state: next,
                ahead,
            };
            so_far = self.run_shifts(text, self.skipped(text, on));
        }
        if self.may_be_empty(text, so_far.place) {
            return Some(Candidate {
                from: so_far.from,
                until: so_far.place,
            });
        }
        None
    }

    /// The next place from one on where a byte stands by which a run may begin.
    #[inline(always)]
    fn next_stop(&self, text: &[u8], at: usize) -> Option<Candidate>
        requires { at ≤ length text.now }
        ensures none { IfNone result (NoneBegins text.now self.now at (length text.now + 1)) }
        ensures some { IfSome result (λ c. NoneBegins text.now self.now at c.from) }
        ensures order { IfSome result (λ c. (at ≤ c.from) × (c.from ≤ c.until) × (c.until ≤ length text.now)) }
    {
        let Some(prefilter) = &self.prefilter else {
            return Some(Candidate {
                from: at,
                until: at,
            });
        };
        let next = prefilter.next(text, at);
        if next == text.len() && !prefilter.required.may_end() && !self.may_start(text, next) {
            return None;
        }
        let from = prefilter.gap(self.takes.as_slice(), text, at, next);
        Some(Candidate { from, until: from })
    }

    /// The next places of a text, from one on, that may have a match. None where no place from there on has one.
    #[inline(always)]
    pub fn next(&self, text: &[u8], at: usize) -> Option<Candidate>
        requires { at ≤ length text.now }
        ensures none { IfNone result ((spots : List Spot) → IsFilterOf spots self.now → NoRun text.now spots at (length text.now + 1)) }
        ensures some { IfSome result (λ c. (spots : List Spot) → IsFilterOf spots self.now → NoRun text.now spots at c.from) }
        ensures order { IfSome result (λ c. (at ≤ c.from) × (c.from ≤ c.until) × (c.until ≤ length text.now)) }
    {
        if self.look_ahead == 0 {
            return self.next_stop(text, at);
        }
        match self.first_look {
            Some(Look::StartLF) if self.prefilter.is_none() => self.next_line(text, at),
            _ => self.next_by_shifts(text, at),
        }
    }
}
