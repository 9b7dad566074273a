//! How many spots a pattern takes in a program.

ghost use Rattle.std.specs.Prelude.{◌≡◌, ◌^◌, ◌-◌, ◌<◌, Bool, map, min};
ghost use Rattle.hir_program.specs.Laid.{total_numbers};
ghost use Rattle.hir_tree.specs.Core.{Core, copies, literal, numbers, repeat, up_to};
ghost use Rattle.hir_tree.specs.Cores.{core_of};

use hir_tree::{Bytes, Hir};

/// How many spots a pattern takes in a program, or `usize::MAX` if it takes more.
#[cycle(size)]
pub fn size(hir: &Hir) -> usize
    ensures { result ≡ min (numbers (core_of hir.now)) (2 ^ 64 - 1) }
{
    match hir {
        Hir::Empty | Hir::ClassChars(_) | Hir::ClassBytes(_) | Hir::Look(_) => 1,
        Hir::Literal(bytes) => literal_size(bytes),
        Hir::Repetition(part) => repeated_size(size(&part.sub), part.min, part.max),
        Hir::Capture(group) => size(&group.sub).saturating_add(2),
        Hir::Concat(hirs) => {
            let parts = hirs.parts();
            total_size(parts)
                .saturating_add(parts.len().saturating_sub(1))
                .max(1)
        }
        Hir::Alternation(hirs) => {
            let parts = hirs.parts();
            total_size(parts)
                .saturating_add(parts.len())
                .saturating_add(1)
        }
    }
}

/// How many spots the parts take together, or `usize::MAX` if they take more.
#[cycle(size)]
fn total_size(parts: &[Hir]) -> usize
    ensures { result ≡ min (total_numbers (map core_of parts.now)) (2 ^ 64 - 1) }
{
    let mut total: usize = 0;
    for part in parts {
        total = total.saturating_add(size(part));
    }
    total
}

/// How many spots bytes one after another take, or `usize::MAX` if they take more.
fn literal_size(bytes: &Bytes) -> usize
    ensures { result ≡ min (numbers (literal bytes.now)) (2 ^ 64 - 1) }
{
    let count = bytes.len();
    count.saturating_add(count.saturating_sub(1)).max(1)
}

/// How many spots a part takes that is repeated, where the part takes so many; `usize::MAX` stands for it and for more.
fn repeated_size(size: usize, least: u32, most: Option<u32>) -> usize
    ensures { (greedy : Bool) (a : Core) → size ≡ min (numbers a) (2 ^ 64 - 1)
        → result ≡ min (numbers (repeat least most greedy a)) (2 ^ 64 - 1) }
{
    match most {
        None if least == 0 => size.saturating_add(4),
        None => copies_size(size, least - 1, size.saturating_add(2)),
        Some(most) => match most.saturating_sub(least) {
            0 if least == 0 => 1,
            0 => copies_size(size, least - 1, size),
            more => copies_size(size, least, up_to_size(size, more)),
        },
    }
}

/// How many spots so many copies of a part take and what comes after them; `usize::MAX` stands for it and for more.
fn copies_size(size: usize, count: u32, rest: usize) -> usize
    ensures { (a b : Core) → size ≡ min (numbers a) (2 ^ 64 - 1) → rest ≡ min (numbers b) (2 ^ 64 - 1)
        → result ≡ min (numbers (copies count a b)) (2 ^ 64 - 1) }
{
    (count as usize)
        .saturating_mul(size.saturating_add(1))
        .saturating_add(rest)
}

/// How many spots a part takes that stands so many times at most; `usize::MAX` stands for it and for more.
pub fn up_to_size(size: usize, count: u32) -> usize
    requires { 0 < count }
    ensures { (greedy : Bool) (a : Core) → size ≡ min (numbers a) (2 ^ 64 - 1)
        → result ≡ min (numbers (up_to greedy count a)) (2 ^ 64 - 1) }
{
    (count as usize - 1)
        .saturating_mul(size.saturating_add(3))
        .saturating_add(size)
        .saturating_add(2)
}
