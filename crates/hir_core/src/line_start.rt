//! The pattern that is the start of a line, and the search for it.

ghost use Rattle.std.specs.Prelude.{◌≡◌, ◌-◌, ◌<◌, ◌≤◌, true, length};
ghost use Rattle.hir_core.specs.Found.{IsFound, IsOfLeast};
ghost use Rattle.hir_core.specs.LineStarts.{line_start_at, line_start_found};
ghost use Rattle.hir_tree.specs.Tree.{look, tree_of};

use crate::{Hir, Look, Slots};
use memchr::memchr;

/// Whether a pattern is the start of a line, where `\n` ends lines, and nothing besides.
pub fn is_line_start(hir: &Hir) -> bool
    ensures { result ≡ true → tree_of hir.now ≡ look Look.StartLF }
{
    matches!(hir, Hir::Look(Look::StartLF))
}

/// The least place of a text, from one on, where a line starts.
fn next_line_start(text: &[u8], at: usize) -> Option<usize>
    requires { at ≤ length text.now }
    ensures { IsOfLeast (line_start_at text.now) at (length text.now) result }
{
    if at == 0 {
        return Some(0);
    }
    match memchr(b'\n', &text[at - 1..]) {
        None => None,
        Some(newline) => Some(at + newline),
    }
}

/// Whether a line starts in a text at a place from one on. Then group 0 of the slots is empty at the least such place, and all
/// other groups are unset; else all are.
pub fn search(text: &[u8], at: usize, slots: &mut Slots) -> bool
    requires within { at ≤ length text.now }
    requires some { 0 < length slots.old }
    ensures found { IsFound (line_start_found (length slots.old - 1) text.now) at (length text.now) result slots.new }
    ensures kept { length slots.new ≡ length slots.old }
{
    match next_line_start(text, at) {
        None => {
            slots.unset_all();
            false
        }
        Some(place) => {
            slots.set_whole(place, place);
            true
        }
    }
}
