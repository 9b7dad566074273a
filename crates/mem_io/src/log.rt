//! What changed on a disk in memory, one change after the other.

ghost use Rattle.std.specs.Prelude.{◌≡◌, ◌∷◌, ◌++◌, [], OnOk};

use crate::node::MemNode;
use crate::place::Place;
use sd_io::NoMemory;
use std::alloc::Global;

/// What one call changed, by places.
#[derive(Drop)]
pub enum Change {
    /// A new file came to stand there.
    Created(Place),
    /// A file's bytes were written, or may have been.
    Written(Place),
    /// A file is on the medium as it stands.
    Synced(Place, MemNode),
    /// A file of this device went from the first place to the second.
    Moved(Place, Place, u64),
    /// A file stayed at the first place, but a crash may show it, of this device, at the second.
    NotMoved(Place, Place, u64),
    /// A file went away.
    Removed(Place),
    /// The names in a folder are on the medium.
    FolderSynced(Place),
    /// A node was built where nothing stood.
    Built(Place, MemNode),
}

/// All changes so far, the latest last. A device belongs to a place, and no change sets it: where it is set, the changes
/// tell it as if it had always been there.
#[derive(Drop)]
pub struct ChangeLog {
    /// The device of the top of the new disk.
    pub first_dev: u64,
    pub changes: Vec<Change>,
}

impl ChangeLog {
    ghost use Rattle.mem_io.specs.LogRoom.{HasRoom};

    pub fn new(alloc: Global) -> ChangeLog
        ensures first { result.first_dev ≡ 1 }
        ensures none { result.changes.items ≡ [] }
    {
        ChangeLog {
            first_dev: 1,
            changes: Vec::new(alloc),
        }
    }

    /// Makes room for one more change. Refuses for want of memory alone.
    pub fn reserve(&mut self) -> Result<(), NoMemory>
        ensures room { OnOk result (HasRoom self.new) }
        ensures first { self.new.first_dev ≡ self.old.first_dev }
        ensures kept { self.new.changes.items ≡ self.old.changes.items }
    {
        self.changes.reserve(1)?;
        Ok(())
    }

    /// Notes a change, for which room was made.
    pub fn note(&mut self, change: Change)
        requires { HasRoom self.old }
        ensures first { self.new.first_dev ≡ self.old.first_dev }
        ensures noted { self.new.changes.items ≡ self.old.changes.items ++ change ∷ [] }
    {
        let _noted = self.changes.push(change);
    }
}
