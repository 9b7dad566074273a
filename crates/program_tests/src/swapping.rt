//! A replacer of one text by another.

ghost use Rattle.std.specs.Prelude.{◌≡◌, ◌<◌, length, IfOk};
ghost use Rattle.program_tests.specs.Swapped.{Swaps, one_swap, swapped, spans};

use sd_base::NoMemory;
use sd_change::{Changed, Replaces};
use std::alloc::Global;

/// Where a text stands another takes its place, from left to right.
#[derive(Drop)]
pub struct Swap<'a> {
    pub alloc: Global,
    pub find: &'a [u8],
    pub with: &'a [u8],
    ghost some: { 0 < length find.now },
}

impl Replaces for Swap<'_> {
    ghost change = { λ swap. Swaps swap.find.now swap.with.now };

    ghost one = { λ swap. one_swap swap.find.now swap.with.now };

    fn change(&self, content: &[u8]) -> Result<Option<Changed>, NoMemory> {
        let changed = swap_all(self, content)?;
        if changed.count == 0 {
            return Ok(None);
        }
        Ok(Some(changed))
    }
}

/// The bytes with the other text in place of each of the first.
fn swap_all(swap: &Swap<'_>, content: &[u8]) -> Result<Changed, NoMemory>
    ensures bytes { IfOk result (λ changed. changed.new_bytes.items ≡ swapped swap.now.find.now swap.now.with.now 0 content.now) }
    ensures count { IfOk result (λ changed. changed.count ≡ spans swap.now.find.now 0 content.now) }
{
    let mut new_bytes = Vec::new(swap.alloc);
    let mut count = 0;
    let mut rest = content;
    while let Some((first, after)) = rest.split_first() {
        if rest.starts_with(swap.find) {
            new_bytes.extend_from_slice(swap.with)?;
            count += 1;
            rest = rest.split_at(swap.find.len()).1;
        } else {
            new_bytes.push(*first)?;
            rest = after;
        }
    }
    Ok(Changed { new_bytes, count })
}
