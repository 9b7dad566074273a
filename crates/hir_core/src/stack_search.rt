//! A search by a stack of alternatives.
//!
//! It computes what the definitions say, one alternative after the other. So its time may double with each byte of the
//! text, and it is meant for small texts.

ghost use Rattle.std.specs.Prelude.{◌≡◌, ◌+◌, ◌-◌, ◌^◌, ◌<◌, ◌≤◌, [], ◌∷◌, ◌++◌, length, map, reverse, replicate, option_map, MatchOption, IfOk, IfErr, IfSome};
ghost use Rattle.std.specs.List.{AllByRecursion};
ghost use Rattle.hir_core.specs.Found.{IsOfLeast, IsFound};
ghost use Rattle.hir_core.specs.Pass.{groups_found};
ghost use Rattle.hir_program.specs.Program.{ClosesFall, way, opened, closed};
ghost use Rattle.hir_tree.specs.Runs.{begin, moved, as_list};
ghost use Rattle.hir_core.specs.StackSearch.{place_of, run_of, places_of, leads, first_at, LiesBefore, Advances};

use crate::holds;
use crate::seen::Seen;
use crate::set_size::{byte_size, char_size};
use crate::slots::Slots;
use hir_program::Spot;
use sd_base::NoMemory;
use std::alloc::Global;

/// An alternative that is still to be tried.
#[derive(Drop)]
pub struct Alternative {
    /// The spot at which it stands.
    spot: usize,
    /// The place in the text.
    at: usize,
    /// What the groups hold, by their numbers.
    groups: Vec<Option<(usize, usize)>>,
    /// Where the groups began that it is in, the innermost last.
    starts: Vec<usize>,
    /// The spots that it went through since the last byte.
    seen: Seen,
}

/// As many unset groups, and group 0. Refuses for want of memory alone.
fn unset(alloc: Global, groups: usize) -> Result<Vec<Option<(usize, usize)>>, NoMemory>
    requires { groups + 1 < 2 ^ 64 }
    ensures { IfOk result (λ unset. unset.items ≡ replicate (groups + 1) None) }
{
    let mut unset = Vec::new(alloc);
    unset.resize(groups + 1, None)?;
    Ok(unset)
}

impl Alternative {
    /// An alternative at the first spot. Refuses for want of memory alone.
    fn begin_at(alloc: Global, at: usize, groups: usize) -> Result<Alternative, NoMemory>
        requires { groups + 1 < 2 ^ 64 }
        ensures { IfOk result (λ a. place_of a ≡ (0, way [] (begin at groups))) }
    {
        Ok(Alternative {
            spot: 0,
            at,
            groups: unset(alloc, groups)?,
            starts: Vec::new(alloc),
            seen: Seen::new(alloc),
        })
    }

    /// The same alternative at another spot. Refuses for want of memory alone.
    fn copy_at(&self, alloc: Global, spot: usize) -> Result<Alternative, NoMemory>
        ensures { IfOk result (λ a. place_of a ≡ (spot, (place_of self.now).1)) }
    {
        Ok(Alternative {
            spot,
            at: self.at,
            groups: Vec::from_slice(alloc, self.groups.as_slice())?,
            starts: Vec::from_slice(alloc, self.starts.as_slice())?,
            seen: self.seen.copy(alloc)?,
        })
    }

    /// Takes so many bytes.
    fn take(&mut self, size: usize)
        requires { self.old.at + size < 2 ^ 64 }
        ensures { let old = (place_of self.old).1 in
            place_of self.new ≡ (self.old.spot, way old.starts (moved size old.run)) }
    {
        self.at += size;
        self.seen.clear();
    }

    /// Begins a group. Refuses for want of memory alone.
    fn open_group(&mut self) -> Result<(), NoMemory>
        ensures { IfOk result (λ _. place_of self.new ≡ (self.old.spot, opened (place_of self.old).1)) }
    {
        self.starts.push(self.at)?;
        Ok(())
    }

    /// Ends the innermost group.
    fn close_group(&mut self, index: usize)
        ensures { place_of self.new ≡ (self.old.spot, closed index (place_of self.old).1) }
    {
        let start = self.starts.pop().unwrap_or(0);
        if let Some(group) = self.groups.get_mut(index) {
            *group = Some((start, self.at));
        }
    }

    /// Puts an alternative on the stack, at another spot. Refuses for want of memory alone.
    fn go(mut self, spot: usize, stack: &mut Vec<Alternative>) -> Result<(), NoMemory>
        ensures { IfOk result (λ _.
            places_of stack.new.items ≡ places_of stack.old.items ++ (spot, (place_of self).1) ∷ []) }
    {
        self.spot = spot;
        stack.push(self)?;
        Ok(())
    }

    /// Goes on, if so many bytes are taken. Refuses for want of memory alone.
    fn go_past(
        mut self,
        size: Option<usize>,
        spot: usize,
        stack: &mut Vec<Alternative>,
    ) -> Result<(), NoMemory>
        requires { MatchOption size Unit (λ k. self.at + k < 2 ^ 64) }
        ensures { let old = (place_of self).1 in IfOk result (λ _. places_of stack.new.items
            ≡ places_of stack.old.items ++ map (λ r. (spot, way old.starts r)) (as_list (option_map (λ k. moved k old.run) size))) }
    {
        let Some(size) = size else {
            return Ok(());
        };
        self.take(size);
        self.go(spot, stack)
    }
}

/// Puts those on the stack to which a spot leads, the preferred last. Refuses for want of memory alone.
fn lead(
    alloc: Global,
    text: &[u8],
    spot: &Spot,
    mut from: Alternative,
    stack: &mut Vec<Alternative>,
) -> Result<(), NoMemory>
    requires { from.at ≤ length text.now }
    ensures { IfOk result (λ _. places_of stack.new.items
        ≡ places_of stack.old.items ++ reverse (leads text.now spot.now (place_of from).1)) }
{
    let at = from.at;
    match spot {
        Spot::Bytes { next, set } => from.go_past(byte_size(set, text, at), *next as usize, stack),
        Spot::Chars { next, set } => from.go_past(char_size(set, text, at), *next as usize, stack),
        Spot::Look { look, next } => {
            if !holds(*look, text, at) {
                return Ok(());
            }
            from.go(*next as usize, stack)
        }
        Spot::Jump { next } => from.go(*next as usize, stack),
        Spot::Split { first, second } => {
            let other = from.copy_at(alloc, *second as usize)?;
            stack.push(other)?;
            from.go(*first as usize, stack)
        }
        Spot::Open { next } => {
            from.open_group()?;
            from.go(*next as usize, stack)
        }
        Spot::Close { index, next } => {
            from.close_group(*index as usize);
            from.go(*next as usize, stack)
        }
        Spot::Fail | Spot::Match => Ok(()),
    }
}

/// Tries one alternative: it is a match, or those to which it leads come onto the stack. Refuses for want of memory alone.
fn advance(
    alloc: Global,
    spots: &[Spot],
    text: &[u8],
    mut from: Alternative,
    stack: &mut Vec<Alternative>,
) -> Result<Option<Alternative>, NoMemory>
    requires falls { ClosesFall spots.now }
    requires within { from.at ≤ length text.now }
    ensures { IfOk result (λ found. Advances text.now spots.now (place_of from) (places_of stack.old.items)
        (option_map run_of found) (places_of stack.new.items)) }
{
    let Some(spot) = spots.get(from.spot) else {
        return Ok(None);
    };
    if let Spot::Match = spot {
        return Ok(Some(from));
    }
    if let Spot::Close { .. } = spot {
        lead(alloc, text, spot, from, stack)?;
        return Ok(None);
    }
    if from.seen.has(from.spot) {
        return Ok(None);
    }
    from.seen.add(from.spot)?;
    lead(alloc, text, spot, from, stack)?;
    Ok(None)
}

/// The first run that a program gives from a place. Refuses for want of memory alone.
pub fn first_run(
    alloc: Global,
    spots: &[Spot],
    text: &[u8],
    at: usize,
    groups: usize,
) -> Result<Option<Alternative>, NoMemory>
    requires falls { ClosesFall spots.now }
    requires within { at ≤ length text.now }
    requires room { groups + 1 < 2 ^ 64 }
    ensures first { IfOk result (λ found. option_map run_of found ≡ first_at text.now spots.now groups at) }
    ensures lie { IfOk result (λ found. IfSome found (λ a. AllByRecursion (LiesBefore a.at) a.groups.items)) }
    ensures counted { IfOk result (λ found. IfSome found (λ a. length a.groups.items ≡ groups + 1)) }
{
    let mut stack = Vec::new(alloc);
    stack.push(Alternative::begin_at(alloc, at, groups)?)?;
    while let Some(next) = stack.pop() {
        if let Some(found) = advance(alloc, spots, text, next, &mut stack)? {
            return Ok(Some(found));
        }
    }
    Ok(None)
}

/// The first run from the least place that has one, from `at` on. Refuses for want of memory alone.
pub fn first_from(
    alloc: Global,
    spots: &[Spot],
    text: &[u8],
    at: usize,
    groups: usize,
) -> Result<Option<Alternative>, NoMemory>
    requires falls { ClosesFall spots.now }
    requires within { at ≤ length text.now }
    requires room { groups + 1 < 2 ^ 64 }
    ensures lie { IfOk result (λ found. IfSome found (λ a. AllByRecursion (LiesBefore a.at) a.groups.items)) }
    ensures counted { IfOk result (λ found. IfSome found (λ a. length a.groups.items ≡ groups + 1)) }
    ensures least { IfOk result (λ found.
        IsOfLeast (first_at text.now spots.now groups) at (length text.now) (option_map run_of found)) }
{
    for place in at..text.len() + 1 {
        if let Some(found) = first_run(alloc, spots, text, place, groups)? {
            return Ok(Some(found));
        }
    }
    Ok(None)
}

/// Whether a program gives a run at a place from `at` on. The slots then hold the groups of the first run of the least such
/// place, and else they are unset, also where the search refuses. It refuses for want of memory alone.
pub fn search_at(
    alloc: Global,
    spots: &[Spot],
    text: &[u8],
    at: usize,
    slots: &mut Slots,
) -> Result<bool, NoMemory>
    requires falls { ClosesFall spots.now }
    requires within { at ≤ length text.now }
    requires some { 0 < length slots.old }
    ensures found { IfOk result (λ found. IsFound (groups_found text.now spots.now (length slots.old - 1)) at (length text.now) found slots.new) }
    ensures kept { length slots.new ≡ length slots.old }
    ensures refused { IfErr result (λ _. slots.new ≡ replicate (length slots.old) None) }
{
    slots.unset_all();
    let Some(found) = first_from(alloc, spots, text, at, slots.len() - 1)? else {
        return Ok(false);
    };
    slots.set_all(found.groups.as_slice());
    Ok(true)
}
