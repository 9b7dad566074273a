//! What changes bytes.

ghost use Rattle.std.specs.Prelude.{IfOk};
ghost use Rattle.sd_change.specs.Change.{Change, IsOne, Tells, AreFew, TellsRewritten, AreFewIn};

use crate::{Changed, Rewritten};
use sd_base::NoMemory;

/// What changes bytes. It does one thing to the same bytes.
///
/// Above this trait nothing looks into what is searched for, or what takes its place.
pub trait Replaces {
    /// From the old bytes to the new ones, in which so many spans were replaced.
    ghost change: { Self → Change };

    /// The new bytes and the number of spans that were replaced. `None` exactly where none is: then nothing
    /// changes. At most one span begins at each place, the end among them.
    ///
    /// Refuses only where memory is out.
    fn change(&self, content: &[u8]) -> Result<Option<Changed>, NoMemory>
        ensures changed { IfOk result (Tells (change self.now) content.now) }
        ensures few { IfOk result (AreFew content.now) };

    /// What bytes become that are given away, so that their room may serve for the new ones, and whether those are others. At most one
    /// span begins at each place, the end among them.
    ///
    /// Refuses only where memory is out.
    fn rewrite(&self, content: Vec<u8>) -> Result<Rewritten, NoMemory>
        ensures rewritten { IfOk result (TellsRewritten (change self.now) content.items) }
        ensures few { IfOk result (AreFewIn content.items) }
    {
        self.rewrite_beside(content)
    }

    /// [`rewrite`](Replaces::rewrite) by new bytes that are made beside the old ones.
    fn rewrite_beside(&self, content: Vec<u8>) -> Result<Rewritten, NoMemory>
        ensures rewritten { IfOk result (TellsRewritten (change self.now) content.items) }
        ensures few { IfOk result (AreFewIn content.items) }
    {
        let Some(changed) = self.change(&content)? else {
            return Ok(Rewritten::Same {
                bytes: content,
                count: 0,
            });
        };
        if changed.new_bytes == content {
            return Ok(Rewritten::Same {
                bytes: content,
                count: changed.count,
            });
        }
        Ok(Rewritten::Other(changed))
    }

    // The same bytes become the same bytes.
    ghost one: { (replacer : Self) → IsOne (change replacer) };
}
