//! Which spots may be tried without a byte.

ghost use Rattle.std.specs.Prelude.{◌≡◌, ◌+◌, ◌*◌, ◌/◌, ◌%◌, ◌<◌, ◌≤◌, ◌++◌, ℕ, true, length, slice_index, slice_set, vec_len, IfOk, IfSome, IfNone};
ghost use Rattle.hir_program.specs.Program.{spot_at};
ghost use Rattle.hir_program.specs.Masks.{HasBit, IsPart, Asks, AllAsk, IsClosed, Covers, CoversBeside, AreAllTakers, SaysWhatFollows, CoverTheirSpots, HasOwnBit, HaveOwnBits, is_reached, new_ways, ways_on, next_of};
ghost use Rattle.hir_program.specs.declared.spot.Spot.TheVariants as spot;

use crate::scan::SPOTS;
use crate::scan::bits::{ROWS, SURE, add_to_row, masks, with_bit};
use crate::spot::Spot;
use hir_tree::Look;
use sd_base::NoMemory;
use std::alloc::Global;

/// Puts the spots to which a spot leads without a byte onto the stack. Refuses for want of memory alone.
fn lead(spot: &Spot, stack: &mut Vec<usize>) -> Result<(), NoMemory>
    ensures { IfOk result (λ _. stack.new.items ≡ stack.old.items ++ ways_on spot.now) }
{
    match spot {
        Spot::Look { next, .. }
        | Spot::Jump { next }
        | Spot::Open { next }
        | Spot::Close { next, .. } => stack.push(*next as usize)?,
        Spot::Split { first, second } => {
            stack.push(*first as usize)?;
            stack.push(*second as usize)?;
        }
        _ => {}
    }
    Ok(())
}

/// Reaches a spot, and puts where it leads onto the stack if it is new. Refuses for want of memory alone.
fn visit(
    spots: &[Spot],
    place: usize,
    reached: &mut [bool],
    stack: &mut Vec<usize>,
) -> Result<(), NoMemory>
    requires { length reached.old ≡ length spots.now }
    ensures stack { IfOk result (λ _. stack.new.items ≡ stack.old.items ++ new_ways reached.old place (spot_at spots.now place)) }
    ensures reached { IfOk result (λ _. reached.new ≡ slice_set reached.old place true) }
{
    let Some(spot) = spots.get(place) else {
        return Ok(());
    };
    if reached[place] {
        return Ok(());
    }
    reached[place] = true;
    lead(spot, stack)
}

/// Whether a spot asks the look, if there is one.
fn asks(spot: &Spot, look: Option<Look>) -> bool
    ensures { result ≡ true → Asks look spot.now }
{
    match (spot, look) {
        (Spot::Look { look, .. }, Some(other)) => *look == other,
        _ => false,
    }
}

/// Which spots ask the look, if there is one. Refuses for want of memory alone.
fn asking(alloc: Global, spots: &[Spot], look: Option<Look>) -> Result<Vec<bool>, NoMemory>
    ensures room { IfOk result (λ asking. vec_len asking ≡ length spots.now) }
    ensures ask { IfOk result (λ asking. AllAsk spots.now look asking.items) }
{
    let mut asking = Vec::new(alloc);
    for spot in spots {
        asking.push(asks(spot, look))?;
    }
    Ok(asking)
}

/// For each spot, whether a run that is at one may come to it without a byte, where the look, if there is one, doesn't hold.
/// Refuses for want of memory alone.
fn reach(
    alloc: Global,
    spots: &[Spot],
    from: usize,
    look: Option<Look>,
) -> Result<Vec<bool>, NoMemory>
    ensures from { IfOk result (λ reached. is_reached reached.items from ≡ true) }
    ensures closed { IfOk result (λ reached. IsClosed spots.now look reached.items) }
    ensures room { IfOk result (λ reached. vec_len reached ≡ length spots.now) }
{
    let mut reached = asking(alloc, spots, look)?;
    let mut stack = Vec::new(alloc);
    stack.push(from)?;
    while let Some(place) = stack.pop() {
        visit(spots, place, &mut reached, &mut stack)?;
    }
    Ok(reached)
}

/// The bits of the spots that were reached.
fn reached_bits(of: &[usize], reached: &[bool]) -> u64
    requires { length of.now ≤ 62 }
    ensures { (i : ℕ) → i < length of.now → is_reached reached.now (slice_index of.now i) ≡ true → HasBit result i }
{
    let mut mask = 0;
    for (i, place) in of.iter().enumerate() {
        if *place >= reached.len() || reached[*place] {
            mask = with_bit(mask, i);
        }
    }
    mask
}

/// Whether a spot was reached that ends a match.
fn reached_match(spots: &[Spot], reached: &[bool]) -> bool
    requires { length reached.now ≡ length spots.now }
    ensures { (q : ℕ) → spot_at spots.now q ≡ spot.Match → is_reached reached.now q ≡ true → result ≡ true }
{
    for (i, spot) in spots.iter().enumerate() {
        if matches!(spot, Spot::Match) && reached[i] {
            return true;
        }
    }
    false
}

/// The bits of the spots that may be tried at a spot where a look, if there is one, doesn't hold, and SURE if a match may end
/// there. Refuses for want of memory alone.
pub fn mask_beside(
    alloc: Global,
    spots: &[Spot],
    of: &[usize],
    from: usize,
    shut: Option<Look>,
) -> Result<u64, NoMemory>
    requires few { length of.now ≤ 62 }
    requires all { AreAllTakers spots.now of.now }
    ensures { IfOk result (λ mask. CoversBeside spots.now of.now shut mask from) }
{
    let reached = reach(alloc, spots, from, shut)?;
    let mask = reached_bits(of, reached.as_slice());
    if reached_match(spots, reached.as_slice()) {
        return Ok(with_bit(mask, 62));
    }
    Ok(mask)
}

/// The bits of the spots that may be tried at a spot, MATCH if a match may end there where the look, if there is one, holds, and
/// SURE if one may also end where it doesn't. Refuses for want of memory alone.
pub fn mask_from(
    alloc: Global,
    spots: &[Spot],
    of: &[usize],
    from: usize,
    look: Option<Look>,
) -> Result<u64, NoMemory>
    requires few { length of.now ≤ 62 }
    requires all { AreAllTakers spots.now of.now }
    ensures { IfOk result (λ mask. Covers spots.now of.now look mask from) }
{
    let all = mask_beside(alloc, spots, of, from, None)?;
    if all < SURE {
        return Ok(all);
    }
    let beside = mask_beside(alloc, spots, of, from, look)?;
    Ok(with_bit(beside, 63))
}

/// The spot that comes after the bytes of one.
fn next_of(spots: &[Spot], place: usize) -> usize
    ensures { result ≡ next_of (spot_at spots.now place) }
{
    match spots.get(place) {
        Some(Spot::Bytes { next, .. } | Spot::Chars { next, .. }) => *next as usize,
        _ => 0,
    }
}

/// The rows of the spots that may be tried after some took bytes, and of whether a match may end there, as [`mask_from`] says.
/// Refuses for want of memory alone.
pub fn after(
    alloc: Global,
    spots: &[Spot],
    of: &[usize],
    look: Option<Look>,
) -> Result<Vec<u64>, NoMemory>
    requires few { length of.now ≤ 62 }
    requires all { AreAllTakers spots.now of.now }
    ensures room { IfOk result (λ after. vec_len after ≡ 2048) }
    ensures says { IfOk result (λ after. SaysWhatFollows spots.now of.now look after.items) }
{
    let mut after = masks(alloc, ROWS)?;
    for (i, place) in of.iter().enumerate() {
        let mask = mask_from(alloc, spots, of, next_of(spots, *place), look)?;
        add_to_row(&mut after, i / 8, i % 8, mask);
    }
    Ok(after)
}

/// The bit of a spot, if it has one.
fn bit_of(of: &[usize], place: usize) -> Option<usize>
    ensures some { IfSome result (λ bit. (bit < length of.now) × (slice_index of.now bit ≡ place)) }
    ensures none { IfNone result ((i : ℕ) → i < length of.now → slice_index of.now i ≡ place → ⊥) }
{
    for (bit, other) in of.iter().enumerate() {
        if *other == place {
            return Some(bit);
        }
    }
    None
}

/// The bits of the spots that may be tried at a spot, as [`mask_from`] says: of one that has a bit, its own alone. Refuses for want of
/// memory alone.
fn own_mask(
    alloc: Global,
    spots: &[Spot],
    of: &[usize],
    place: usize,
    look: Option<Look>,
) -> Result<u64, NoMemory>
    requires few { length of.now ≤ 62 }
    requires all { AreAllTakers spots.now of.now }
    ensures covers { IfOk result (λ mask. Covers spots.now of.now look mask place) }
    ensures own { IfOk result (λ mask. HasOwnBit spots.now of.now place mask) }
{
    match bit_of(of, place) {
        Some(bit) => Ok(1 << bit),
        None => mask_from(alloc, spots, of, place, look),
    }
}

/// For each spot, the bits of the spots that may be tried at it, as [`mask_from`] says; none where a program has too many spots to be
/// searched block by block. Refuses for want of memory alone.
pub fn firsts(
    alloc: Global,
    spots: &[Spot],
    of: &[usize],
    look: Option<Look>,
) -> Result<Vec<u64>, NoMemory>
    requires few { length of.now ≤ 62 }
    requires all { AreAllTakers spots.now of.now }
    ensures covers { IfOk result (λ firsts. CoverTheirSpots spots.now of.now look firsts.items) }
    ensures own { IfOk result (λ firsts. HaveOwnBits spots.now of.now firsts.items) }
{
    let count = if spots.len() > SPOTS { 0 } else { spots.len() };
    let mut firsts = Vec::new(alloc);
    for place in 0..count {
        let mask = own_mask(alloc, spots, of, place, look)?;
        firsts.push(mask)?;
    }
    Ok(firsts)
}
