//! Which looks are asked first and last, and where lines start.

ghost use Rattle.std.specs.Prelude.{◌≡◌, ◌+◌, ◌<◌, ◌≤◌, ℕ, false, length, IfOk};
ghost use Rattle.hir_tree.specs.declared.look.Look.TheVariants as look;
ghost use Rattle.hir_program.specs.Masks.{AreAllTakers, IsShutBefore};
ghost use Rattle.hir_tree.specs.Looks.{holds};
ghost use Rattle.hir_program.specs.Scan.{IsAskedFirst};

use crate::scan::prefilter::next_of_one;
use crate::scan::reach::mask_beside;
use crate::spot::Spot;
use hir_tree::Look;
use sd_base::NoMemory;
use std::alloc::Global;

/// The look that a spot asks, if it asks one.
fn look_of(spot: &Spot) -> Option<Look> {
    match spot {
        Spot::Look { look, .. } => Some(*look),
        _ => None,
    }
}

/// The look that stands first in a program, if each run asks it before its first byte. Refuses for want of memory alone.
pub fn first_look(alloc: Global, spots: &[Spot], of: &[usize]) -> Result<Option<Look>, NoMemory>
    requires few { length of.now ≤ 62 }
    requires all { AreAllTakers spots.now of.now }
    ensures { IfOk result (λ look. IsAskedFirst spots.now look) }
{
    let Some(look) = spots.iter().find_map(look_of) else {
        return Ok(None);
    };
    let mask = mask_beside(alloc, spots, of, 0, Some(look))?;
    if mask == 0 {
        return Ok(Some(look));
    }
    Ok(None)
}

/// The look of the ends of lines or texts that stands last in a program, if there is one. Those of words take longer to ask.
pub fn last_look(spots: &[Spot]) -> Option<Look> {
    let look = spots.iter().rev().find_map(look_of);
    look.filter(|look| matches!(look, Look::End | Look::EndLF | Look::EndCRLF))
}

/// Whether a look, if there is one, may hold before a byte.
#[tactic(auto, unfolding(hir_tree::specs::Looks::holds))]
pub fn may_hold_before(look: Option<Look>, byte: u8) -> bool
    ensures { result ≡ false → IsShutBefore look byte }
{
    match look {
        Some(Look::End) => false,
        Some(Look::EndLF) => byte == b'\n',
        Some(Look::EndCRLF) => byte == b'\n' || byte == b'\r',
        _ => true,
    }
}

/// The next place from one on where a line starts, or the one after the end of the text.
#[tactic(auto, unfolding(hir_tree::specs::Looks::holds))]
pub fn line_start(text: &[u8], at: usize) -> usize
    requires { at ≤ length text.now + 1 }
    ensures passed { (q : ℕ) → at ≤ q → q < result → holds look.StartLF text.now q ≡ false }
    ensures after { at ≤ result }
    ensures within { result ≤ length text.now + 1 }
{
    if at == 0 {
        return 0;
    }
    next_of_one(b'\n', text, at - 1) + 1
}
