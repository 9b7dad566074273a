//! Sets of spots as bits of a number.

ghost use Rattle.std.specs.Prelude.{◌≡◌, ◌+◌, ◌*◌, ◌^◌, ◌<◌, ◌≤◌, ◌⊎◌, ℕ, length, slice_index, replicate, IfOk, vec_len};
ghost use Rattle.hir_program.specs.Masks.{HasBit, IsPart, Grows, IsMoved, AreMoved, row_place};

use sd_base::NoMemory;
use std::alloc::Global;

/// The bit that tells that a match may end also where the last look doesn't hold.
pub const SURE: u64 = 1 << 62;

/// The bit that tells that a match may end where the last look holds.
pub const MATCH: u64 = 1 << 63;

/// The mask with one more bit.
pub fn with_bit(mask: u64, bit: usize) -> u64
    requires { bit < 64 }
    ensures kept { IsPart mask result }
    ensures set { HasBit result bit }
    ensures only { (i : ℕ) → HasBit result i → HasBit mask i ⊎ (i ≡ bit) }
{
    mask | 1 << bit
}

/// As many masks without a bit. Refuses for want of memory alone.
pub fn masks(alloc: Global, count: usize) -> Result<Vec<u64>, NoMemory>
    ensures room { IfOk result (λ masks. vec_len masks ≡ count) }
    ensures none { IfOk result (λ masks. masks.items ≡ replicate count 0) }
{
    let mut masks = Vec::new(alloc);
    masks.resize(count, 0)?;
    Ok(masks)
}

/// How many masks the rows have: a row for each eight bits.
pub const ROWS: usize = 8 * 256;

/// Adds a mask to a row, for each choice of its bits that has this one.
pub fn add_to_row(rows: &mut [u64], row: usize, bit: usize, mask: u64)
    requires room { length rows.old ≡ 2048 }
    requires row { row < 8 }
    requires bit { bit < 8 }
    ensures grows { Grows rows.old rows.new }
    ensures has { (v : ℕ) → v < 256 → HasBit v bit → IsPart mask (slice_index rows.new (256 * row + v)) }
{
    for eight in 0..256usize {
        if (eight >> bit) % 2 == 1 {
            rows[256 * row + eight] |= mask;
        }
    }
}

/// What the rows have for the bits that are set, eight at a time.
pub fn joined(rows: &[u64], live: u64) -> u64
    requires { length rows.now ≡ 2048 }
    ensures { (i : ℕ) → i < 64 → HasBit live i → IsPart (slice_index rows.now (row_place live i)) result }
{
    let mut rest = live;
    let mut joined = 0;
    for row in 0..8usize {
        joined |= rows[256 * row + (rest % 256) as usize];
        rest >>= 8;
        if rest == 0 {
            return joined;
        }
    }
    joined
}

/// How spots move on by a byte: to the spot of the next bit, by a shift, or not at all, or in other ways.
#[derive(Clone, Copy)]
pub struct Moves {
    /// The spots that may be tried after the one of the bit before.
    pub on: u64,
    /// The spots that may be tried after themselves.
    pub stay: u64,
    /// The spots after which more may be tried, or a match may end: these the rows tell.
    pub odd: u64,
}

impl Moves {
    /// The same with a spot more, after which those of a mask may be tried.
    fn with(self, bit: usize, mask: u64) -> Moves
        requires { bit < 62 }
        ensures on { IsPart self.on result.on }
        ensures stay { IsPart self.stay result.stay }
        ensures odd { IsPart self.odd result.odd }
        ensures moved { (HasBit result.odd bit → ⊥) → IsMoved mask result.on result.stay bit }
        ensures few_on { self.on < 2 ^ 62 → result.on < 2 ^ 62 }
        ensures few_stay { self.stay < 2 ^ 62 → result.stay < 2 ^ 62 }
    {
        let stays = mask & (1 << bit);
        let goes = mask & (1 << (bit + 1));
        if mask >= SURE || stays | goes != mask {
            return Moves {
                on: self.on,
                stay: self.stay,
                odd: with_bit(self.odd, bit),
            };
        }
        Moves {
            on: self.on | goes,
            stay: self.stay | stays,
            odd: self.odd,
        }
    }

    /// The spots that may be tried after these took a byte, of which none is odd.
    pub fn shifted(self, live: u64) -> u64
        ensures moved { (i mask : ℕ) → i < 62 → HasBit live i → IsMoved mask self.on self.stay i → IsPart mask result }
        ensures few { self.on < 2 ^ 62 → self.stay < 2 ^ 62 → result < 2 ^ 62 }
    {
        ((live << 1) & self.on) | (live & self.stay)
    }
}

/// How so many spots move on, as the rows tell.
pub fn moves_in(after: &[u64], count: usize) -> Moves
    requires room { length after.now ≡ 2048 }
    requires few { count ≤ 62 }
    ensures moved { AreMoved after.now count result }
    ensures few_on { result.on < 2 ^ 62 }
    ensures few_stay { result.stay < 2 ^ 62 }
{
    let mut moves = Moves {
        on: 0,
        stay: 0,
        odd: 0,
    };
    for bit in 0..count {
        moves = moves.with(bit, after[256 * (bit / 8) + (1 << (bit % 8))]);
    }
    moves
}
