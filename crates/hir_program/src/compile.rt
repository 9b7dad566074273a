//! Compiling a pattern to a program of spots.
//!
//! The spots of a pattern are laid one after another, each part behind what came before it, as the numbers of its core say. So
//! a part's size is counted before the part is laid, where a spot leads past it.

ghost use Rattle.std.specs.Prelude.{◌≡◌, ℕ, ◌+◌, ◌^◌, ◌<◌, vec_len, OnOk, IfOk, map, true, false};
ghost use Rattle.hir_tree.specs.Core.{Core, at_least, choice_all, copies, empty, literal, numbers, optional, pair_all, plus, up_to, with_more};
ghost use Rattle.hir_tree.specs.Cores.{core_of};
ghost use Rattle.hir_program.specs.Laid.{Lays, LaysEmpties, LaysFirst, Waits, IsProgram, GivesPreferred};
ghost use Rattle.hir_program.specs.Program.{ClosesFall};

use crate::push::{
    push_byte, push_bytes, push_chars, push_ends, push_fail, push_jump, push_look, push_rounds,
    push_split,
};
use crate::size::{size, up_to_size};
use crate::spot::Spot;
use hir_tree::{Bytes, Hir};
use sd_base::NoMemory;
use std::alloc::Global;

/// A pattern takes fewer spots than this: they and the three of the whole match have numbers below 2^32. What takes more would need
/// 64 GiB, and is refused as a want of memory.
const SPOTS_BELOW: usize = (1 << 32) - 2;

/// The program of a pattern. Refuses for want of memory alone.
pub fn program(alloc: Global, hir: &Hir) -> Result<Vec<Spot>, NoMemory>
    ensures stands { IfOk result (λ spots. IsProgram (core_of hir.now) spots.items) }
    ensures falls { IfOk result (λ spots. ClosesFall spots.items) }
    ensures preferred { IfOk result (λ spots. GivesPreferred (core_of hir.now) spots.items) }
{
    let count = size(hir);
    if count >= SPOTS_BELOW {
        return Err(NoMemory);
    }
    let mut spots = Vec::with_capacity(alloc, count + 3)?;
    push_ends(0, (count + 2) as u32, &mut spots)?;
    compile(alloc, hir, 1, &mut spots)?;
    spots.push(Spot::Match)?;
    Ok(spots)
}

/// Appends the spots of a pattern, which the spot `next` follows. Refuses for want of memory alone, and leaves some of the
/// spots then.
#[cycle(compile)]
fn compile(alloc: Global, hir: &Hir, next: u32, out: &mut Vec<Spot>) -> Result<(), NoMemory>
    requires { vec_len out.old + numbers (core_of hir.now) < 2 ^ 32 }
    ensures { OnOk result (Lays out.old.items out.new.items next (core_of hir.now)) }
{
    match hir {
        Hir::Empty => lay_empty(next, out),
        Hir::Literal(bytes) => lay_literal(alloc, bytes, next, out),
        Hir::ClassChars(set) => push_chars(alloc, set, next, out),
        Hir::ClassBytes(set) => push_bytes(alloc, set, next, out),
        Hir::Look(look) => push_look(*look, next, out),
        Hir::Repetition(part) => match part.max {
            None => lay_at_least(alloc, &part.sub, part.min, part.greedy, next, out),
            Some(most) => {
                let more = most.saturating_sub(part.min);
                lay_with_more(alloc, &part.sub, part.min, more, part.greedy, next, out)
            }
        },
        Hir::Capture(group) => {
            let end = (out.len() + 1) as u32;
            push_ends(group.index, next, out)?;
            compile(alloc, &group.sub, end, out)
        }
        Hir::Concat(hirs) => lay_row(alloc, hirs.parts(), next, out),
        Hir::Alternation(hirs) => lay_choice(alloc, hirs.parts(), next, out),
    }
}

/// Appends one part after another.
#[cycle(compile)]
fn lay_row(alloc: Global, parts: &[Hir], next: u32, out: &mut Vec<Spot>) -> Result<(), NoMemory>
    requires { vec_len out.old + numbers (pair_all (map core_of parts.now)) < 2 ^ 32 }
    ensures { OnOk result (Lays out.old.items out.new.items next (pair_all (map core_of parts.now))) }
{
    if parts.is_empty() {
        return lay_empty(next, out);
    }
    let last = parts.len() - 1;
    for i in 0..last {
        let part = &parts[i];
        lay_first(alloc, part, size(part), out)?;
    }
    compile(alloc, &parts[last], next, out)
}

/// Appends one of the parts, the first preferred.
#[cycle(compile)]
fn lay_choice(alloc: Global, parts: &[Hir], next: u32, out: &mut Vec<Spot>) -> Result<(), NoMemory>
    requires { vec_len out.old + numbers (choice_all (map core_of parts.now)) < 2 ^ 32 }
    ensures { OnOk result (Lays out.old.items out.new.items next (choice_all (map core_of parts.now))) }
{
    for part in parts {
        let first = out.len() + 1;
        push_split(first as u32, (first + size(part)) as u32, out)?;
        compile(alloc, part, next, out)?;
    }
    push_fail(out)
}

/// Appends at least so many of a part, and any number more.
#[cycle(compile)]
fn lay_at_least(
    alloc: Global,
    part: &Hir,
    least: u32,
    greedy: bool,
    next: u32,
    out: &mut Vec<Spot>,
) -> Result<(), NoMemory>
    requires { vec_len out.old + numbers (at_least greedy least (core_of part.now)) < 2 ^ 32 }
    ensures { OnOk result (Lays out.old.items out.new.items next (at_least greedy least (core_of part.now))) }
{
    if least == 0 {
        return lay_any(alloc, part, greedy, next, out);
    }
    lay_copies(alloc, part, least - 1, out)?;
    lay_rounds(alloc, part, greedy, next, out)
}

/// Appends any number of a part.
#[cycle(compile)]
fn lay_any(
    alloc: Global,
    part: &Hir,
    greedy: bool,
    next: u32,
    out: &mut Vec<Spot>,
) -> Result<(), NoMemory>
    requires { vec_len out.old + numbers (at_least greedy 0 (core_of part.now)) < 2 ^ 32 }
    ensures { OnOk result (Lays out.old.items out.new.items next (at_least greedy 0 (core_of part.now))) }
{
    let first = out.len() + 1;
    if greedy {
        push_split(first as u32, (first + 2 + size(part)) as u32, out)?;
        lay_rounds(alloc, part, greedy, next, out)?;
        lay_empty(next, out)
    } else {
        push_split(first as u32, (first + 1) as u32, out)?;
        lay_empty(next, out)?;
        lay_rounds(alloc, part, greedy, next, out)
    }
}

/// Appends one round of a part, and any number more.
#[cycle(compile)]
fn lay_rounds(
    alloc: Global,
    part: &Hir,
    greedy: bool,
    next: u32,
    out: &mut Vec<Spot>,
) -> Result<(), NoMemory>
    requires { vec_len out.old + numbers (plus greedy (core_of part.now)) < 2 ^ 32 }
    ensures { OnOk result (Lays out.old.items out.new.items next (plus greedy (core_of part.now))) }
{
    let again = (out.len() + 1) as u32;
    push_rounds(greedy, next, out)?;
    compile(alloc, part, again, out)
}

/// Appends so many of a part, and at most so many more.
#[cycle(compile)]
fn lay_with_more(
    alloc: Global,
    part: &Hir,
    least: u32,
    more: u32,
    greedy: bool,
    next: u32,
    out: &mut Vec<Spot>,
) -> Result<(), NoMemory>
    requires { vec_len out.old + numbers (with_more greedy least more (core_of part.now)) < 2 ^ 32 }
    ensures { OnOk result (Lays out.old.items out.new.items next (with_more greedy least more (core_of part.now))) }
{
    if more > 0 {
        lay_copies(alloc, part, least, out)?;
        return lay_up_to(alloc, part, more, greedy, next, out);
    }
    if least == 0 {
        return lay_empty(next, out);
    }
    lay_copies(alloc, part, least - 1, out)?;
    compile(alloc, part, next, out)
}

/// Appends so many copies of a part, before what is appended next.
#[cycle(compile)]
fn lay_copies(alloc: Global, part: &Hir, count: u32, out: &mut Vec<Spot>) -> Result<(), NoMemory>
    requires { vec_len out.old + numbers (copies count (core_of part.now) empty) < 2 ^ 32 }
    ensures { OnOk result ((next : ℕ) (b : Core) → Waits out.old.items out.new.items next (copies count (core_of part.now) b) b) }
{
    if count == 0 {
        return Ok(());
    }
    let size = size(part);
    for _left in (0..count).rev() {
        lay_first(alloc, part, size, out)?;
    }
    Ok(())
}

/// Appends at most so many of a part, at least one: a part that may be left out, and inside it, after the part, the others.
#[cycle(compile)]
fn lay_up_to(
    alloc: Global,
    part: &Hir,
    count: u32,
    greedy: bool,
    next: u32,
    out: &mut Vec<Spot>,
) -> Result<(), NoMemory>
    requires some { 0 < count }
    requires fits { vec_len out.old + numbers (up_to greedy count (core_of part.now)) < 2 ^ 32 }
    ensures { OnOk result (Lays out.old.items out.new.items next (up_to greedy count (core_of part.now))) }
{
    if greedy {
        lay_greedy(alloc, part, count, next, out)
    } else {
        lay_lazy(alloc, part, count, next, out)
    }
}

/// Appends at most so many of a part, more before fewer: what is taken where a part is left out comes after all parts.
#[cycle(compile)]
fn lay_greedy(
    alloc: Global,
    part: &Hir,
    count: u32,
    next: u32,
    out: &mut Vec<Spot>,
) -> Result<(), NoMemory>
    requires some { 0 < count }
    requires fits { vec_len out.old + numbers (up_to true count (core_of part.now)) < 2 ^ 32 }
    ensures { OnOk result (Lays out.old.items out.new.items next (up_to true count (core_of part.now))) }
{
    let size = size(part);
    let mut left_out = out.len() + up_to_size(size, count) - 1;
    for _left in (1..count).rev() {
        push_split((out.len() + 1) as u32, left_out as u32, out)?;
        lay_first(alloc, part, size, out)?;
        left_out -= 1;
    }
    push_split((out.len() + 1) as u32, left_out as u32, out)?;
    compile(alloc, part, next, out)?;
    lay_empties(count, next, out)
}

/// Appends at most so many of a part, fewer before more.
#[cycle(compile)]
fn lay_lazy(
    alloc: Global,
    part: &Hir,
    count: u32,
    next: u32,
    out: &mut Vec<Spot>,
) -> Result<(), NoMemory>
    requires some { 0 < count }
    requires fits { vec_len out.old + numbers (up_to false count (core_of part.now)) < 2 ^ 32 }
    ensures { OnOk result (Lays out.old.items out.new.items next (up_to false count (core_of part.now))) }
{
    let size = size(part);
    for _left in (1..count).rev() {
        lay_or_none(next, out)?;
        lay_first(alloc, part, size, out)?;
    }
    lay_or_none(next, out)?;
    compile(alloc, part, next, out)
}

/// Appends a part of this size, which what is appended next follows.
#[cycle(compile)]
fn lay_first(alloc: Global, part: &Hir, size: usize, out: &mut Vec<Spot>) -> Result<(), NoMemory>
    requires size { size ≡ numbers (core_of part.now) }
    requires fits { vec_len out.old + numbers (core_of part.now) + 1 < 2 ^ 32 }
    ensures { OnOk result (LaysFirst out.old.items out.new.items (core_of part.now)) }
{
    let first = out.len() + 1;
    push_jump(first as u32, out)?;
    compile(alloc, part, (first + size) as u32, out)
}

/// Appends bytes one after another.
fn lay_literal(alloc: Global, bytes: &Bytes, next: u32, out: &mut Vec<Spot>) -> Result<(), NoMemory>
    requires { vec_len out.old + numbers (literal bytes.now) < 2 ^ 32 }
    ensures { OnOk result (Lays out.old.items out.new.items next (literal bytes.now)) }
{
    if bytes.len() == 0 {
        return lay_empty(next, out);
    }
    let last = bytes.len() - 1;
    for i in 0..last {
        let first = out.len() + 1;
        push_jump(first as u32, out)?;
        push_byte(alloc, bytes.get(i), (first + 1) as u32, out)?;
    }
    push_byte(alloc, bytes.get(last), next, out)
}

/// Appends a spot that takes nothing.
fn lay_empty(next: u32, out: &mut Vec<Spot>) -> Result<(), NoMemory>
    ensures { OnOk result (Lays out.old.items out.new.items next empty) }
{
    push_jump(next, out)
}

/// Appends so many spots that take nothing.
fn lay_empties(count: u32, next: u32, out: &mut Vec<Spot>) -> Result<(), NoMemory>
    ensures { OnOk result (LaysEmpties count out.old.items out.new.items next) }
{
    for _i in 0..count {
        push_jump(next, out)?;
    }
    Ok(())
}

/// Appends the choice of taking nothing before what is appended next.
fn lay_or_none(next: u32, out: &mut Vec<Spot>) -> Result<(), NoMemory>
    requires { vec_len out.old + 2 < 2 ^ 32 }
    ensures { OnOk result ((b : Core) → Waits out.old.items out.new.items next (optional false b) b) }
{
    let first = out.len() + 1;
    push_split(first as u32, (first + 1) as u32, out)?;
    lay_empty(next, out)
}
