//! Which spots take which bytes.

ghost use Rattle.std.specs.Prelude.{◌≡◌, ◌<◌, ◌≤◌, ℕ, true, length, slice_index, replicate, vec_len, IfOk, IfSome};
ghost use Rattle.hir_program.specs.Program.{spot_at};
ghost use Rattle.hir_tree.specs.Runs.{in_set};
ghost use Rattle.hir_program.specs.Masks.{HasBit, Grows, GrowsOnly, AreOpen, IsOpen, AreTakers, AreAllTakers, SaysNoMore, SaysWhatTakes, SaysWhichAreWide, is_taker, takes_byte, has_wide, is_wide};

use crate::scan::asked::may_hold_before;
use crate::scan::bits::{MATCH, SURE, masks, with_bit};
use crate::spot::Spot;
use hir_tree::{Look, SharedBytes, SharedChars};
use sd_base::NoMemory;
use std::alloc::Global;

/// Whether a spot takes bytes.
fn is_taker(spot: &Spot) -> bool
    ensures { result ≡ is_taker spot.now }
{
    matches!(spot, Spot::Bytes { .. } | Spot::Chars { .. })
}

/// The spots that take bytes, in order, if there are at most 62. Refuses for want of memory alone.
pub fn takers(alloc: Global, spots: &[Spot]) -> Result<Option<Vec<usize>>, NoMemory>
    ensures takers { IfOk result (λ of. IfSome of (λ of. AreTakers spots.now of.items)) }
    ensures all { IfOk result (λ of. IfSome of (λ of. AreAllTakers spots.now of.items)) }
    ensures few { IfOk result (λ of. IfSome of (λ of. length of.items ≤ 62)) }
{
    let mut of = Vec::new(alloc);
    for (place, spot) in spots.iter().enumerate() {
        if is_taker(spot) {
            if of.len() == 62 {
                return Ok(None);
            }
            of.push(place)?;
        }
    }
    Ok(Some(of))
}

/// Adds the bit of a spot at the bytes from one to another.
fn add_range(takes: &mut [u64], bit: usize, start: u8, end: u8)
    requires room { length takes.old ≡ 256 }
    requires bit { bit < 64 }
    ensures grows { Grows takes.old takes.new }
    ensures has { (b : ℕ) → start ≤ b → b ≤ end → HasBit (slice_index takes.new b) bit }
    ensures only { GrowsOnly bit (λ b. (start ≤ b) × (b ≤ end)) takes.old takes.new }
{
    for byte in start..=end {
        let place = byte as usize;
        takes[place] = with_bit(takes[place], bit);
    }
}

/// Adds the bit of a spot at the bytes of a set.
fn add_bytes(takes: &mut [u64], bit: usize, set: &SharedBytes)
    requires room { length takes.old ≡ 256 }
    requires bit { bit < 64 }
    ensures grows { Grows takes.old takes.new }
    ensures has { (b : ℕ) → in_set set.now b ≡ true → HasBit (slice_index takes.new b) bit }
    ensures only { GrowsOnly bit (λ b. in_set set.now b ≡ true) takes.old takes.new }
{
    for i in 0..set.len() {
        let (start, end) = set.get(i);
        add_range(takes, bit, start, end);
    }
}

/// Adds the bit of a spot at the ASCII characters from one to another.
fn add_ascii(takes: &mut [u64], bit: usize, start: char, end: char)
    requires room { length takes.old ≡ 256 }
    requires bit { bit < 64 }
    ensures grows { Grows takes.old takes.new }
    ensures has { (b : ℕ) → b < 128 → start ≤ b → b ≤ end → HasBit (slice_index takes.new b) bit }
    ensures only { GrowsOnly bit (λ b. (b < 128) × (start ≤ b) × (b ≤ end)) takes.old takes.new }
{
    let start = start as u32;
    let end = (end as u32).min(127);
    if start < 128 {
        add_range(takes, bit, start as u8, end as u8);
    }
}

/// Adds the bit of a spot at the ASCII characters of a set.
fn add_chars(takes: &mut [u64], bit: usize, set: &SharedChars)
    requires room { length takes.old ≡ 256 }
    requires bit { bit < 64 }
    ensures grows { Grows takes.old takes.new }
    ensures has { (b : ℕ) → b < 128 → in_set set.now b ≡ true → HasBit (slice_index takes.new b) bit }
    ensures only { GrowsOnly bit (λ b. (b < 128) × (in_set set.now b ≡ true)) takes.old takes.new }
{
    for i in 0..set.len() {
        let (start, end) = set.get(i);
        add_ascii(takes, bit, start, end);
    }
}

/// Adds the bit of a spot at the bytes that it takes.
fn add_spot(takes: &mut [u64], bit: usize, spot: &Spot)
    requires room { length takes.old ≡ 256 }
    requires bit { bit < 64 }
    ensures grows { Grows takes.old takes.new }
    ensures has { (b : ℕ) → takes_byte spot.now b ≡ true → HasBit (slice_index takes.new b) bit }
    ensures only { GrowsOnly bit (λ b. takes_byte spot.now b ≡ true) takes.old takes.new }
{
    match spot {
        Spot::Bytes { set, .. } => add_bytes(takes, bit, set),
        Spot::Chars { set, .. } => add_chars(takes, bit, set),
        _ => {}
    }
}

/// Adds the bits of the spots at the bytes that they take.
fn add_spots(takes: &mut [u64], spots: &[Spot], of: &[usize])
    requires room { length takes.old ≡ 256 }
    requires few { length of.now ≤ 62 }
    requires none { takes.old ≡ replicate 256 0 }
    ensures has { SaysWhatTakes spots.now of.now takes.new }
    ensures only { SaysNoMore spots.now of.now takes.new }
{
    for (i, place) in of.iter().enumerate() {
        if let Some(spot) = spots.get(*place) {
            add_spot(takes, i, spot);
        }
    }
}

/// For each byte, the bits of the spots that take it, or the ASCII character that it is. Refuses for want of memory alone.
pub fn takes(alloc: Global, spots: &[Spot], of: &[usize]) -> Result<Vec<u64>, NoMemory>
    requires { length of.now ≤ 62 }
    ensures room { IfOk result (λ takes. vec_len takes ≡ 256) }
    ensures says { IfOk result (λ takes. SaysWhatTakes spots.now of.now takes.items) }
    ensures only { IfOk result (λ takes. SaysNoMore spots.now of.now takes.items) }
{
    let mut takes = masks(alloc, 256)?;
    add_spots(&mut takes, spots, of);
    Ok(takes)
}

/// Whether a set has a member beyond ASCII.
fn has_wide(set: &SharedChars) -> bool
    ensures { result ≡ has_wide set.now }
{
    for i in 0..set.len() {
        if set.get(i).1 > '\u{7f}' {
            return true;
        }
    }
    false
}

/// Whether a spot may take a character beyond ASCII.
fn is_wide(spots: &[Spot], place: usize) -> bool
    ensures { result ≡ is_wide (spot_at spots.now place) }
{
    match spots.get(place) {
        Some(Spot::Chars { set, .. }) => has_wide(set),
        _ => false,
    }
}

/// The bits of the spots that may take a character beyond ASCII.
pub fn wide(spots: &[Spot], of: &[usize]) -> u64
    requires { length of.now ≤ 62 }
    ensures { SaysWhichAreWide spots.now of.now result }
{
    let mut mask = 0;
    for (i, place) in of.iter().enumerate() {
        if is_wide(spots, *place) {
            mask = with_bit(mask, i);
        }
    }
    mask
}

/// What may go on before a byte that these spots take.
fn open_by(byte: u8, takes: u64, wide: u64, look: Option<Look>) -> u64
    ensures { IsOpen byte takes wide look result }
{
    let beyond = if byte < 128 { 0 } else { wide };
    let ends = if may_hold_before(look, byte) {
        SURE | MATCH
    } else {
        SURE
    };
    takes | beyond | ends
}

/// For each byte, what may go on before it, where these masks say which spots take it: those, and those that may take a character that
/// begins with it, SURE, and MATCH where the look, if there is one, may hold. Refuses for want of memory alone.
pub fn open_before(
    alloc: Global,
    takes: &[u64],
    wide: u64,
    look: Option<Look>,
) -> Result<Vec<u64>, NoMemory>
    requires room { length takes.now ≡ 256 }
    ensures room { IfOk result (λ masks. vec_len masks ≡ 256) }
    ensures says { IfOk result (λ masks. AreOpen takes.now wide look masks.items) }
{
    let mut masks = Vec::new(alloc);
    for byte in 0..256usize {
        masks.push(open_by(byte as u8, takes[byte], wide, look))?;
    }
    Ok(masks)
}
