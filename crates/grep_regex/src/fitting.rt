//! How long patterns are.

ghost use Rattle.std.specs.Prelude.{◌↔◌, IsTrue};
ghost use Rattle.grep_regex.specs.Building.{FitTogether};

use sd_base::Patterns;

/// How many bytes patterns may have together: one fewer than 2^32.
pub(crate) const MOST_BYTES: usize = u32::MAX as usize;

/// Whether patterns together have fewer than 2^32 bytes, so that the numbers of their groups fit. Building asks for it.
pub fn fit_together(patterns: &Patterns) -> bool
    ensures { IsTrue result ↔ FitTogether patterns.now }
{
    let mut room = MOST_BYTES;
    for i in 0..patterns.len() {
        let bytes = patterns.get(i).len();
        if bytes > room {
            return false;
        }
        room -= bytes;
    }
    true
}
