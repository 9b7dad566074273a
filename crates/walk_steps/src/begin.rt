//! The root of a walk.

ghost use Rattle.std.specs.Prelude.{◌≡◌, ◌≤◌, ◌⊎◌, IsTrue, IfOk, IfErr};
ghost use Rattle.sd_io.specs.Disk.{SameTree, SameLists};
ghost use Rattle.walk_rest.specs.Listing.{begins, beginning, device_to};
ghost use Rattle.walk_steps.specs.Steps.{CannotBegin};

use crate::Inside;
use crate::see::refusal;
use sd_io::{Disk, Text};
use walk_rest::{DirEntry, Error};

/// The root's own entry. Where directories on other devices aren't entered, its device is noted first. Refuses with the error that stands in place of
/// the root, and for want of memory.
pub fn begin<D: Disk, S>(disk: &mut D, inside: &mut Inside<S>) -> Result<DirEntry, Error>
    ensures begun { IsTrue D.tells → IfOk result (λ entry. beginning (D.state disk.old).tree inside.old.options inside.old.root ≡ begins entry) }
    ensures device { IsTrue D.tells → IfOk result (λ entry. IsTrue inside.old.options.same_file_system
        → inside.new.device ≡ device_to (D.state disk.old).tree inside.old.root) }
    ensures device_kept { IsTrue D.tells → IsTrue inside.old.options.same_file_system → (inside.new.device ≡ inside.old.device)
        ⊎ (inside.new.device ≡ device_to (D.state disk.old).tree inside.old.root) }
    ensures depth { IfOk result (λ entry. entry.depth ≡ 0) }
    ensures failed { IfErr result (CannotBegin D.tells (D.state disk.old) (D.state disk.new) inside.old.options inside.old.root) }
    ensures same { inside.new ≡ record inside.old { device = inside.new.device } }
    ensures lists { SameLists (D.state disk.old) (D.state disk.new) }
    ensures tree { SameTree (D.state disk.old) (D.state disk.new) }
    ensures faults { (D.state disk.old).faults ≤ (D.state disk.new).faults }
{
    let path = Text::new(inside.alloc, inside.root.as_str())?;
    if inside.options.same_file_system {
        match disk.ident(path.as_str()) {
            Ok(ident) => inside.device = ident.dev,
            Err(fault) => return Err(refusal(fault, path, 0)),
        }
    }
    match disk.stat(path.as_str(), false) {
        Ok(meta) => Ok(DirEntry {
            path,
            kind: meta.kind,
            depth: 0,
            ino: 0,
            followed: false,
        }),
        Err(fault) => Err(refusal(fault, path, 0)),
    }
}
