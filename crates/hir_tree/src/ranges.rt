//! Sorted lists of ranges of numbers.

ghost use Rattle.std.specs.Prelude.{◌≡◌, ◌↔◌, ◌⊎◌, ◌+◌, ◌<◌, ◌≤◌, ◌∷◌, ◌++◌, ℕ, All, OnOk, OnErr, length, take, drop, vec_len, nat_lt};
ghost use Rattle.std.specs.List.{prefix_len};
ghost use Rattle.hir_tree.specs.Ranges.{AreApart, Holds, IsWithin, next_byte};
ghost use Rattle.hir_tree.specs.Runs.{in_set};

use sd_base::NoMemory;

/// Whether a number lies between the end of a range and the start of a later one.
fn leaves_gap(end: u32, start: u32) -> bool
    ensures { result ≡ nat_lt (end + 1) start }
{
    end < start && start - end > 1
}

/// How many sorted ranges at the front end before a start, with a number between.
fn ranges_before(ranges: &[(u32, u32)], start: u32) -> usize
    requires { AreApart next_byte ranges.now }
    ensures { result ≡ prefix_len (λ range. nat_lt (range.1 + 1) start) ranges.now }
{
    ranges.partition_point(|range| leaves_gap(range.1, start))
}

/// Puts one range where those from `first` to before `last` stood. A refusal changes nothing.
fn put_in_place(
    ranges: &mut Vec<(u32, u32)>,
    first: usize,
    last: usize,
    range: (u32, u32),
) -> Result<(), NoMemory>
    requires order { first ≤ last }
    requires in_range { last ≤ vec_len ranges.old }
    ensures put { OnOk result (ranges.new.items ≡ take first ranges.old.items ++ range ∷ drop last ranges.old.items) }
    ensures refused { OnErr result (ranges.new.items ≡ ranges.old.items) }
{
    if first == last {
        ranges.insert(first, range)?;
        return Ok(());
    }
    ranges[first] = range;
    ranges.drain(first + 1..last);
    Ok(())
}

/// Unites a range with sorted ranges that neither meet nor touch, which they stay. A refusal changes nothing.
pub(crate) fn unite(ranges: &mut Vec<(u32, u32)>, start: u32, end: u32) -> Result<(), NoMemory>
    requires order { start ≤ end }
    requires sorted { AreApart next_byte ranges.old.items }
    ensures apart { AreApart next_byte ranges.new.items }
    ensures below { (limit : ℕ) → end < limit → All (λ range. range.1 < limit) ranges.old.items → All (λ range. range.1 < limit) ranges.new.items }
    ensures united { OnOk result ((n : ℕ) → Holds ranges.new.items n ↔ (Holds ranges.old.items n ⊎ IsWithin (start, end) n)) }
    ensures refused { OnErr result (ranges.new.items ≡ ranges.old.items) }
{
    let first = ranges_before(ranges, start);
    let mut last = first;
    let (mut low, mut high) = (start, end);
    while last < ranges.len() {
        let (from, to) = ranges[last];
        if leaves_gap(high, from) {
            break;
        }
        low = low.min(from);
        high = high.max(to);
        last += 1;
    }
    put_in_place(ranges, first, last, (low, high))
}

/// Whether one of some sorted ranges holds a number. No range past the number's place is read.
pub(crate) fn holds_number(ranges: &[(u32, u32)], number: u32) -> bool
    requires { AreApart next_byte ranges.now }
    ensures { result ≡ in_set ranges.now number }
{
    for range in ranges {
        if number <= range.1 {
            return range.0 <= number;
        }
    }
    false
}
