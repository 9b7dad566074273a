//! What a pattern's tree counts up to.

ghost use Rattle.std.specs.Prelude.{◌≡◌, ℕ, map, min, sum};
ghost use Rattle.hir_tree.specs.Spots.{greatest, groups_of, repeated_spots, spots_of};

use crate::Hir;

/// How many spots the tree takes when it is searched, at most `u128::MAX`.
///
/// A repetition takes those of the copies that it is written out to: `x{2,3}` is `xx(x)?`, `x{2,}` is `xx+` and `x*` is
/// `(x+)?`, where `+` and `?` take one each.
#[cycle(spots)]
pub fn spots(hir: &Hir) -> u128
    ensures { result ≡ min (spots_of hir.now) u128.MAX }
{
    match hir {
        Hir::Empty | Hir::Look(_) | Hir::ClassBytes(_) => 1,
        Hir::ClassChars(_) => 4,
        Hir::Literal(bytes) => bytes.len() as u128,
        Hir::Repetition(repeat) => repeated(spots(&repeat.sub), repeat.min, repeat.max),
        Hir::Capture(group) => spots(&group.sub).saturating_add(2),
        Hir::Concat(hirs) => total_spots(hirs.parts()).max(1),
        Hir::Alternation(hirs) => total_spots(hirs.parts())
            .saturating_add(hirs.len() as u128)
            .max(1),
    }
}

/// How many spots the parts take together, at most `u128::MAX`.
#[cycle(spots)]
fn total_spots(parts: &[Hir]) -> u128
    ensures { result ≡ min (sum (map spots_of parts.now)) u128.MAX }
{
    let mut total: u128 = 0;
    for part in parts {
        total = total.saturating_add(spots(part));
    }
    total
}

/// How many spots a part takes that is repeated, at most `u128::MAX`, where the part takes so many, at most `u128::MAX`.
fn repeated(spots: u128, least: u32, most: Option<u32>) -> u128
    ensures { (n : ℕ) → spots ≡ min n u128.MAX → result ≡ min (repeated_spots n least most) u128.MAX }
{
    let copies = u128::from(least);
    match most {
        None if least == 0 => spots.saturating_add(2),
        None => copies.saturating_mul(spots).saturating_add(1),
        Some(0) if least == 0 => 1,
        Some(most) => {
            let optional = u128::from(most.saturating_sub(least));
            copies
                .saturating_mul(spots)
                .saturating_add(optional.saturating_mul(spots.saturating_add(1)))
        }
    }
}

/// The greatest index of a group of the tree, 0 where there is none.
#[cycle(groups)]
pub fn group_count(hir: &Hir) -> u32
    ensures { result ≡ groups_of hir.now }
{
    match hir {
        Hir::Empty | Hir::Literal(_) | Hir::ClassChars(_) | Hir::ClassBytes(_) | Hir::Look(_) => 0,
        Hir::Repetition(repeat) => group_count(&repeat.sub),
        Hir::Capture(group) => group.index.max(group_count(&group.sub)),
        Hir::Concat(hirs) | Hir::Alternation(hirs) => greatest_index(hirs.parts()),
    }
}

/// The greatest index of a group of the parts, 0 where there is none.
#[cycle(groups)]
fn greatest_index(parts: &[Hir]) -> u32
    ensures { result ≡ greatest (map groups_of parts.now) }
{
    let mut index = 0;
    for part in parts {
        index = index.max(group_count(part));
    }
    index
}
