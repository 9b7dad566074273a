//! Where a search begins: behind the spots that each run of a program passes first.

ghost use Rattle.std.specs.Prelude.{◌≡◌, true, IfSome};
ghost use Rattle.hir_program.specs.Entry.{goes_on_at, IsBehindFirst, IsEntry};

use crate::spot::Spot;

/// Whether a spot goes on at another, without a byte or behind one.
fn goes_on_at(to: usize, spot: &Spot) -> bool
    ensures { result ≡ goes_on_at to spot.now }
{
    match spot {
        Spot::Bytes { next, .. }
        | Spot::Chars { next, .. }
        | Spot::Look { next, .. }
        | Spot::Jump { next }
        | Spot::Open { next }
        | Spot::Close { next, .. } => *next as usize == to,
        Spot::Split { first, second } => *first as usize == to || *second as usize == to,
        Spot::Fail | Spot::Match => false,
    }
}

/// Whether no spot but the first goes on at this one.
fn is_behind_first(spots: &[Spot], to: usize) -> bool
    ensures { result ≡ true → IsBehindFirst spots.now to }
{
    for place in 1..spots.len() {
        if goes_on_at(to, &spots[place]) {
            return false;
        }
    }
    true
}

/// The spot at which a search may begin, with group 0 begun, in the place of the first one: the one behind the start of that
/// group, or behind a jump that stands there. `None` where the program doesn't begin so.
pub fn entry_of(spots: &[Spot]) -> Option<usize>
    ensures { IfSome result (λ entry. IsEntry spots.now entry) }
{
    let Some(Spot::Open { next }) = spots.get(0) else {
        return None;
    };
    let next = *next as usize;
    if next == 0 || !is_behind_first(spots, 0) {
        return None;
    }
    match spots.get(next) {
        Some(Spot::Jump { next: behind }) if is_behind_first(spots, next) => {
            Some(*behind as usize)
        }
        _ => Some(next),
    }
}
