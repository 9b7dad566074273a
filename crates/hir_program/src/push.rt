//! Appending single spots to a program.

ghost use Rattle.std.specs.Prelude.{◌≡◌, ◌+◌, ◌^◌, ◌<◌, [], ◌∷◌, ◌++◌, vec_len, OnOk, if◌then◌else◌};
ghost use Rattle.hir_tree.specs.Core.{byte_in, char_in, one_byte};
ghost use Rattle.hir_program.specs.Laid.{Lays};

use crate::spot::Spot;
use hir_tree::{ByteRanges, CharRanges, Look, SharedBytes};
use sd_base::NoMemory;
use std::alloc::Global;

/// Appends a spot that goes on.
pub fn push_jump(next: u32, out: &mut Vec<Spot>) -> Result<(), NoMemory>
    ensures { OnOk result (out.new.items ≡ out.old.items ++ Spot.Jump next ∷ []) }
{
    out.push(Spot::Jump { next })?;
    Ok(())
}

/// Appends a spot that goes on both ways, the first preferred.
pub fn push_split(first: u32, second: u32, out: &mut Vec<Spot>) -> Result<(), NoMemory>
    ensures { OnOk result (out.new.items ≡ out.old.items ++ Spot.Split first second ∷ []) }
{
    out.push(Spot::Split { first, second })?;
    Ok(())
}

/// Appends a spot that goes on where a look holds.
pub fn push_look(look: Look, next: u32, out: &mut Vec<Spot>) -> Result<(), NoMemory>
    ensures { OnOk result (out.new.items ≡ out.old.items ++ Spot.Look look next ∷ []) }
{
    out.push(Spot::Look { look, next })?;
    Ok(())
}

/// Appends a spot that goes nowhere.
pub fn push_fail(out: &mut Vec<Spot>) -> Result<(), NoMemory>
    ensures { OnOk result (out.new.items ≡ out.old.items ++ Spot.Fail ∷ []) }
{
    out.push(Spot::Fail)?;
    Ok(())
}

/// Appends the two ends of a group.
pub fn push_ends(index: u32, next: u32, out: &mut Vec<Spot>) -> Result<(), NoMemory>
    requires { vec_len out.old + 2 < 2 ^ 32 }
    ensures { OnOk result (out.new.items
        ≡ out.old.items ++ Spot.Open (vec_len out.old + 2) ∷ Spot.Close index next ∷ []) }
{
    let body = (out.len() + 2) as u32;
    out.push(Spot::Open { next: body })?;
    out.push(Spot::Close { index, next })?;
    Ok(())
}

/// Appends the two spots of a repetition: one that leads to a round, and its again spot, which leads to one more round
/// and to an end of them.
pub fn push_rounds(greedy: bool, next: u32, out: &mut Vec<Spot>) -> Result<(), NoMemory>
    requires { vec_len out.old + 2 < 2 ^ 32 }
    ensures { let round = vec_len out.old + 2 in OnOk result (out.new.items ≡ out.old.items ++ Spot.Jump round
        ∷ (if greedy then Spot.Split round next else Spot.Split next round) ∷ []) }
{
    let round = (out.len() + 2) as u32;
    out.push(Spot::Jump { next: round })?;
    if greedy {
        push_split(round, next, out)
    } else {
        push_split(next, round, out)
    }
}

/// Appends a spot that takes a byte.
pub fn push_byte(alloc: Global, byte: u8, next: u32, out: &mut Vec<Spot>) -> Result<(), NoMemory>
    ensures { OnOk result (Lays out.old.items out.new.items next (one_byte byte)) }
{
    let set = SharedBytes::of_byte(alloc, byte)?;
    out.push(Spot::Bytes { next, set })?;
    Ok(())
}

/// Appends a spot that takes a byte of a set.
pub fn push_bytes(
    alloc: Global,
    set: &ByteRanges,
    next: u32,
    out: &mut Vec<Spot>,
) -> Result<(), NoMemory>
    ensures { OnOk result (Lays out.old.items out.new.items next (byte_in set.now)) }
{
    let set = set.shared(alloc)?;
    out.push(Spot::Bytes { next, set })?;
    Ok(())
}

/// Appends a spot that takes a character of a set.
pub fn push_chars(
    alloc: Global,
    set: &CharRanges,
    next: u32,
    out: &mut Vec<Spot>,
) -> Result<(), NoMemory>
    ensures { OnOk result (Lays out.old.items out.new.items next (char_in set.now)) }
{
    let set = set.shared(alloc)?;
    out.push(Spot::Chars { next, set })?;
    Ok(())
}
