//! Runs of bytes for which a table holds. Eight bytes are looked at together, with no branch between them: where a run ends can seldom be
//! foreseen, and a branch at each byte would be mispredicted at nearly each end.

ghost use Rattle.std.specs.Prelude.{◌≡◌, ℕ, ◌<◌, ◌≤◌, length};
ghost use Rattle.hir_program.specs.ByteRuns.{Holds, IsRunEnd};
ghost use Rattle.hir_program.specs.Masks.{HasBit};

/// For each byte, whether something holds for it.
pub type ByteTable = [bool; 256];

/// For which of eight bytes the table holds: bit i is that of the byte at i.
#[inline(always)]
fn held_of_eight(table: &ByteTable, eight: &[u8]) -> u8
    requires { length eight.now ≡ 8 }
    ensures held { (i : ℕ) → i < 8 → HasBit result i → Holds table.now eight.now i }
    ensures all { (i : ℕ) → i < 8 → Holds table.now eight.now i → HasBit result i }
{
    let mut held = 0;
    for i in 0..8usize {
        if table[eight[i] as usize] {
            held |= 1 << i;
        }
    }
    held
}

/// The place up to which the table holds for each byte, from one on: that of the first for which it doesn't, or the end of the text.
#[inline(always)]
pub fn run_end(table: &ByteTable, text: &[u8], from: usize) -> usize
    requires { from ≤ length text.now }
    ensures { IsRunEnd table.now text.now from result }
{
    let mut at = from;
    while text.len() - at >= 8 {
        let held = held_of_eight(table, &text[at..at + 8]);
        if held != u8::MAX {
            return at + held.trailing_ones() as usize;
        }
        at += 8;
    }
    rest_end(table, text, at)
}

/// The same, byte by byte.
#[inline(never)]
fn rest_end(table: &ByteTable, text: &[u8], from: usize) -> usize
    requires { from ≤ length text.now }
    ensures { IsRunEnd table.now text.now from result }
{
    let mut at = from;
    while at < text.len() && table[text[at] as usize] {
        at += 1;
    }
    at
}
