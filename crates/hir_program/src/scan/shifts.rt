//! The tables of shift-and: what each byte does to the spots that may be tried.

ghost use Rattle.std.specs.Prelude.{◌≡◌, ◌+◌, ◌^◌, ◌<◌, ℕ, length, slice_index, vec_len, IfOk};
ghost use Rattle.hir_program.specs.Masks.{HasBit, IsShift, AreShifts};

use crate::scan::bits::Moves;
use sd_base::NoMemory;
use std::alloc::Global;

/// What a byte does to the spots that may be tried at it, in as few operations one after another as may be.
#[derive(Clone, Copy)]
pub struct Shift {
    /// The spots that may be tried after the one of the bit before, which takes the byte.
    pub on: u64,
    /// The spots that take the byte and may be tried after themselves, and those that begin.
    pub stay: u64,
    /// The spots that may be tried after those of the start that take the byte.
    pub begun: u64,
    /// The spots for which the rows are asked: the odd ones that take the byte, and those that may take a character beyond ASCII
    /// that begins with it.
    pub odd: u64,
}

impl Shift {
    /// What a byte does that these spots take.
    fn new(byte: u8, takes: u64, moves: Moves, start: u64, wide: u64) -> Shift
        requires few_on { moves.on < 2 ^ 62 }
        requires few_stay { moves.stay < 2 ^ 62 }
        ensures { IsShift byte takes moves start wide result }
    {
        let begun = moves.shifted(start & takes);
        let odd = moves.odd & takes;
        Shift {
            on: (takes << 1) & moves.on,
            stay: (moves.stay & takes) | begun,
            begun,
            odd: if byte < 128 { odd } else { odd | wide },
        }
    }

    /// The spots that may be tried after the byte, where these may at it, of which none is odd, and those of the start.
    pub fn after(self, state: u64) -> u64
        ensures on { (i : ℕ) → i < 62 → HasBit state i → HasBit self.on (i + 1) → HasBit result (i + 1) }
        ensures stay { (i : ℕ) → HasBit state i → HasBit self.stay i → HasBit result i }
        ensures begun { (i : ℕ) → HasBit self.begun i → HasBit self.stay i → HasBit result i }
        ensures few { self.on < 2 ^ 62 → self.stay < 2 ^ 62 → result < 2 ^ 62 }
    {
        ((state << 1) & self.on) | ((state | self.begun) & self.stay)
    }
}

/// What each byte does, as these masks say which spots take it. Refuses for want of memory alone.
pub fn shifts(
    alloc: Global,
    takes: &[u64],
    moves: Moves,
    start: u64,
    wide: u64,
) -> Result<Vec<Shift>, NoMemory>
    requires room { length takes.now ≡ 256 }
    requires few_on { moves.on < 2 ^ 62 }
    requires few_stay { moves.stay < 2 ^ 62 }
    ensures room { IfOk result (λ shifts. vec_len shifts ≡ 256) }
    ensures says { IfOk result (λ shifts. AreShifts takes.now moves start wide shifts.items) }
{
    let mut shifts = Vec::new(alloc);
    for byte in 0..256usize {
        shifts.push(Shift::new(byte as u8, takes[byte], moves, start, wide))?;
    }
    Ok(shifts)
}
