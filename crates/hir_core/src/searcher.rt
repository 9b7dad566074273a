//! Searching texts for a pattern.

ghost use Rattle.std.specs.Prelude.{◌≡◌, ◌+◌, ◌-◌, ◌*◌, ◌≤◌, length, is_some, IfOk, IfSome};
ghost use Rattle.hir_tree.specs.Cores.{core_of};
ghost use Rattle.hir_core.specs.Found.{IsOfLeast, Searches, whole_span};
ghost use Rattle.hir_tree.specs.PlainText.{text_of};
ghost use Rattle.hir_tree.specs.Runs.{preferred};
ghost use Rattle.hir_tree.specs.Spots.{groups_of, spots_of};
ghost use Rattle.hir_tree.specs.Tree.{tree_of};
ghost use Rattle.sd_base.specs.Steps.{TicksAtMost};

use crate::blocks::PLACES;
use crate::plain::TextFinder;
use crate::{Hir, Slots, group_count, line_start, stack_search};
use grep_matcher::Match;
use hir_program::{SPOTS, Scan, Spot, program};
use sd_base::{Ledger, NoMemory, Silent, Steps};
use std::alloc::Global;
use std::marker::Model;

/// A pattern that was compiled for searching. Contracts see the pattern.
#[derive(Drop)]
pub struct Searcher {
    /// Where the search by a stack makes its lists.
    alloc: Global,
    /// The pattern.
    hir: Hir,
    /// The greatest index of a group.
    groups: u32,
    /// The pattern's program.
    spots: Vec<Spot>,
    /// What rules out places of a text, if the program has few spots that take bytes.
    filter: Option<Scan>,
    /// The search for the text that the pattern is, if it is one.
    text: Option<TextFinder>,
    /// Whether the pattern is the start of a line.
    is_line_start: bool,
}

impl Model for Searcher {
    ghost use Rattle.hir_tree.specs.declared.hir.Hir.{Hir};
    ghost use Rattle.hir_tree.specs.contracts.hir.Hir as pattern;

    ghost Value = { Hir };

    ghost coded = { pattern.the_row.coded };

    ghost use Rattle.hir_core.specs.Compiled.{IsCompiled};

    ghost view = { λ s. s.hir };

    ghost invariant = { λ s. IsCompiled s.hir s.groups s.spots.items s.filter s.text s.is_line_start };
}

impl Searcher {
    /// A searcher of a pattern, of which it keeps a copy. Refuses for want of memory alone.
    pub fn new(alloc: Global, hir: &Hir) -> Result<Searcher, NoMemory>
        ensures { IfOk result (λ searcher. tree_of searcher ≡ tree_of hir.now) }
    {
        let copy = hir.try_clone(alloc)?;
        let spots = program(alloc, &copy)?;
        let filter = Scan::new(alloc, &spots)?;
        let text = TextFinder::of_pattern(alloc, &copy)?;
        let is_line_start = line_start::is_line_start(&copy);
        let groups = group_count(&copy);
        Ok(Searcher {
            alloc,
            hir: copy,
            groups,
            spots,
            filter,
            text,
            is_line_start,
        })
    }

    /// The pattern.
    pub fn hir(&self) -> &Hir
        ensures { result.now ≡ self.now }
    {
        &self.hir
    }

    /// The search for a pattern that is one text, which takes neither slots nor memory: the span of the least place from `at` on
    /// where the text stands. `None` where the pattern isn't one text.
    pub fn find_text(&self, text: &[u8], at: usize) -> Option<Option<Match>>
        ensures is_text { is_some result ≡ is_some (text_of self.now) }
        ensures found { IfSome result (λ found. IsOfLeast
            (λ place. whole_span (preferred (core_of self.now) (groups_of self.now) text.now place)) at (length text.now) found) }
    {
        match &self.text {
            None => None,
            Some(finder) => Some(finder.find_span(text, at)),
        }
    }

    /// Whether a place from `at` on has a match. The slots then hold the preferred match of the least such place, and else
    /// they are unset, also where the search refuses. It refuses for want of memory alone.
    pub fn search_at(&self, text: &[u8], at: usize, slots: &mut Slots) -> Result<bool, NoMemory>
        requires within { at ≤ length text.now }
        requires slots { length slots.old ≡ groups_of self.now + 1 }
        ensures searched { Searches (preferred (core_of self.now) (groups_of self.now) text.now) at (length text.now) result slots.old slots.new }
    {
        self.search_at_steps(text, at, slots, &mut Steps::new(Silent))
    }

    /// [`search_at`](Searcher::search_at) with counted steps: one for each visit of a spot that takes a byte or a character,
    /// looks, goes on both ways, or ends a group other than the whole match. At a place of the text each spot is visited once at most.
    /// Where the pattern is one text or the start of a line, or the filter passes over a place, nothing is visited. The first way that is
    /// gone in vain before all others isn't noted: it is gone once more.
    pub fn search_at_steps<L: Ledger>(
        &self,
        text: &[u8],
        at: usize,
        slots: &mut Slots,
        steps: &mut Steps<L>,
    ) -> Result<bool, NoMemory>
        requires within { at ≤ length text.now }
        requires slots { length slots.old ≡ groups_of self.now + 1 }
        ensures searched { Searches (preferred (core_of self.now) (groups_of self.now) text.now) at (length text.now) result slots.old slots.new }
        ensures ticks { TicksAtMost L.noted ((length text.now + 1 - at) * spots_of self.now) steps.old steps.new }
    {
        if let Some(finder) = &self.text {
            return Ok(finder.search(text, at, slots));
        }
        if self.is_line_start {
            return Ok(line_start::search(text, at, slots));
        }
        self.search_places(text, at, slots, PLACES, steps)
    }

    /// For tests: [`search_at`](Searcher::search_at) over blocks of so many places, at least one and at most 256, where the pattern is
    /// searched block by block. A pattern that is one text or the start of a line is searched so too.
    pub fn search_by_blocks(
        &self,
        text: &[u8],
        at: usize,
        slots: &mut Slots,
        places: usize,
    ) -> Result<bool, NoMemory>
        requires within { at ≤ length text.now }
        requires slots { length slots.old ≡ groups_of self.now + 1 }
        ensures searched { Searches (preferred (core_of self.now) (groups_of self.now) text.now) at (length text.now) result slots.old slots.new }
    {
        self.search_places(text, at, slots, places, &mut Steps::new(Silent))
    }

    /// The search over blocks of so many places, each of which is searched depth first. A pattern without a filter, or of more than
    /// 256 spots, is searched place by place.
    fn search_places<L: Ledger>(
        &self,
        text: &[u8],
        at: usize,
        slots: &mut Slots,
        places: usize,
        steps: &mut Steps<L>,
    ) -> Result<bool, NoMemory>
        requires within { at ≤ length text.now }
        requires slots { length slots.old ≡ groups_of self.now + 1 }
        ensures searched { Searches (preferred (core_of self.now) (groups_of self.now) text.now) at (length text.now) result slots.old slots.new }
        ensures ticks { TicksAtMost L.noted ((length text.now + 1 - at) * spots_of self.now) steps.old steps.new }
    {
        match &self.filter {
            Some(filter) if self.spots.len() <= SPOTS => slots.search_by_blocks(
                &self.spots,
                filter,
                text,
                at,
                self.groups,
                places,
                steps,
            ),
            filter => slots.search(&self.spots, filter.as_ref(), text, at, self.groups, steps),
        }
    }

    /// [`search_at`](Searcher::search_at) in the plainest way: a stack of alternatives, tried one after the other, as the
    /// definitions say. It is a reference for tests, on short texts: its time may double with each byte of the text.
    pub fn search_by_stack(
        &self,
        text: &[u8],
        at: usize,
        slots: &mut Slots,
    ) -> Result<bool, NoMemory>
        requires within { at ≤ length text.now }
        requires slots { length slots.old ≡ groups_of self.now + 1 }
        ensures searched { Searches (preferred (core_of self.now) (groups_of self.now) text.now) at (length text.now) result slots.old slots.new }
    {
        stack_search::search_at(self.alloc, &self.spots, text, at, slots)
    }
}
