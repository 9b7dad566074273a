//! The groups of a match.

ghost use Rattle.std.specs.Prelude.{◌≡◌, ◌+◌, ◌-◌, ◌*◌, ◌<◌, ◌≤◌, length, map, replicate, slice_index_or, slice_set, EachIndex, IfErr, IfOk, IfSome, None, Some};
ghost use Rattle.grep_matcher.specs.Groups.{group_at};
ghost use Rattle.hir_core.specs.Found.{IsFound, IsInOrder, span_of};
ghost use Rattle.hir_core.specs.Pass.{counted, groups_found};
ghost use Rattle.hir_program.specs.Program.{ClosesFall};
ghost use Rattle.hir_program.specs.Scan.{IsFilterOf};
ghost use Rattle.sd_base.specs.Steps.{TicksAtMost};

use crate::blocks::Blocks;
use crate::pass::Pass;
use grep_matcher::Match;
use hir_program::{Scan, Spot};
use sd_base::{Ledger, NoMemory, Steps};
use std::alloc::Global;
use std::marker::Model;

/// The groups of a match, and the lists of the search that fills them, which the next search uses again.
///
/// Contracts see the groups' spans, by their numbers. Group 0 is the whole match. A group that took no part is unset.
#[derive(Drop)]
pub struct Slots {
    spans: Vec<Option<Match>>,
    /// The search place by place, and its lists.
    pass: Pass,
    /// The search block by block, and its lists.
    blocks: Blocks,
}

impl Model for Slots {
    ghost use Rattle.std.specs.Prelude.{List, Option};
    ghost use Rattle.grep_matcher.specs.Span.{Span};

    ghost Value = { List (Option Span) };

    ghost view = { λ slots. slots.spans.items };
}

impl Slots {
    /// Unset slots for the groups 0 to `groups`. Refuses for want of memory alone.
    pub fn new(alloc: Global, groups: u32) -> Result<Slots, NoMemory>
        ensures { IfOk result (λ slots. slots ≡ replicate (groups + 1) None) }
    {
        let mut spans = Vec::new(alloc);
        spans.resize(groups as usize + 1, None)?;
        let pass = Pass::new(alloc);
        let blocks = Blocks::new(alloc);
        Ok(Slots {
            spans,
            pass,
            blocks,
        })
    }

    /// How many slots there are: one more than the greatest group's number.
    pub fn len(&self) -> usize
        ensures { result ≡ length self.now }
    {
        self.spans.len()
    }

    /// The span of a group, or `None` where it is unset, or past the last one.
    pub fn get(&self, group: usize) -> Option<Match>
        ensures { result ≡ group_at self.now group }
    {
        *self.spans.get(group)?
    }

    /// Unsets all slots.
    pub(crate) fn unset_all(&mut self)
        ensures { self.new ≡ replicate (length self.old) None }
    {
        unset(&mut self.spans);
    }

    /// Sets group 0 to a span, and unsets the others.
    pub(crate) fn set_whole(&mut self, start: usize, end: usize)
        requires some { 0 < length self.old }
        requires order { start ≤ end }
        ensures { self.new ≡ slice_set (replicate (length self.old) None) 0 (Some (record { start = start; end = end })) }
    {
        unset(&mut self.spans);
        self.spans[0] = Some(Match::new(start, end));
    }

    /// Sets the slots to the spans of as many groups.
    pub(crate) fn set_all(&mut self, groups: &[Option<(usize, usize)>])
        requires same { length groups.now ≡ length self.old }
        requires in_order { EachIndex groups.now (λ i. IsInOrder (slice_index_or groups.now i None)) }
        ensures { self.new ≡ map span_of groups.now }
    {
        set(&mut self.spans, groups);
    }

    /// Whether a program gives a run at a place from `at` on. The slots then hold the groups of the first run of the least such
    /// place, and else they are unset, also where the search refuses. A filter of the program makes the search quicker. Refuses
    /// for want of memory alone.
    pub(crate) fn search<L: Ledger>(
        &mut self,
        spots: &[Spot],
        filter: Option<&Scan>,
        text: &[u8],
        at: usize,
        groups: u32,
        steps: &mut Steps<L>,
    ) -> Result<bool, NoMemory>
        requires falls { ClosesFall spots.now }
        requires filters { IfSome filter (λ f. IsFilterOf spots.now f.now) }
        requires within { at ≤ length text.now }
        requires slots { length self.old ≡ groups + 1 }
        ensures found { IfOk result (λ found. IsFound (groups_found text.now spots.now groups) at (length text.now) found self.new) }
        ensures kept { length self.new ≡ length self.old }
        ensures refused { IfErr result (λ _. self.new ≡ replicate (length self.old) None) }
        ensures ticks { TicksAtMost L.noted ((length text.now + 1 - at) * counted spots.now) steps.old steps.new }
    {
        unset(&mut self.spans);
        if !self.pass.search(spots, filter, text, at, groups, steps)? {
            return Ok(false);
        }
        set(&mut self.spans, self.pass.groups());
        Ok(true)
    }

    /// The same for a program that has a filter, over blocks of so many places.
    pub(crate) fn search_by_blocks<L: Ledger>(
        &mut self,
        spots: &[Spot],
        filter: &Scan,
        text: &[u8],
        at: usize,
        groups: u32,
        places: usize,
        steps: &mut Steps<L>,
    ) -> Result<bool, NoMemory>
        requires falls { ClosesFall spots.now }
        requires filters { IsFilterOf spots.now filter.now }
        requires few { length spots.now ≤ 256 }
        requires within { at ≤ length text.now }
        requires slots { length self.old ≡ groups + 1 }
        ensures found { IfOk result (λ found. IsFound (groups_found text.now spots.now groups) at (length text.now) found self.new) }
        ensures kept { length self.new ≡ length self.old }
        ensures refused { IfErr result (λ _. self.new ≡ replicate (length self.old) None) }
        ensures ticks { TicksAtMost L.noted ((length text.now + 1 - at) * counted spots.now) steps.old steps.new }
    {
        let found = match self
            .blocks
            .search(spots, filter, text, at, groups, places, steps)
        {
            Ok(found) => found,
            Err(error) => {
                unset(&mut self.spans);
                return Err(error);
            }
        };
        if !found {
            unset(&mut self.spans);
            return Ok(false);
        }
        set(&mut self.spans, self.blocks.groups());
        Ok(true)
    }
}

/// Unsets all groups.
fn unset(spans: &mut Vec<Option<Match>>)
    ensures { spans.new.items ≡ replicate (length spans.old.items) None }
{
    for span in spans.iter_mut() {
        *span = None;
    }
}

/// Sets each group to its span.
fn set(spans: &mut Vec<Option<Match>>, groups: &[Option<(usize, usize)>])
    requires same { length groups.now ≡ length spans.old.items }
    requires in_order { EachIndex groups.now (λ i. IsInOrder (slice_index_or groups.now i None)) }
    ensures { spans.new.items ≡ map span_of groups.now }
{
    for i in 0..groups.len() {
        spans[i] = span_of(groups[i]);
    }
}

/// The span of a group that is set.
fn span_of(group: Option<(usize, usize)>) -> Option<Match>
    requires { IsInOrder group }
    ensures { result ≡ span_of group }
{
    let (start, end) = group?;
    Some(Match::new(start, end))
}
