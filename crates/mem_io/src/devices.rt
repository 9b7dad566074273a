//! Other devices for nodes in memory and in what changed, without memory.

ghost use Rattle.std.specs.Prelude.{◌≡◌, IsTrue, None, false};
ghost use Rattle.sd_io.specs.Paths.{kept, pieces_left, reached_plain};
ghost use Rattle.mem_io.specs.MemNode.{now_of};
ghost use Rattle.mem_io.specs.MemTreeView.{mem_tree};
ghost use Rattle.mem_io.specs.MemTree.{PutsDevice};
ghost use Rattle.mem_io.specs.MemTrail.{names_of, plain_node};
ghost use Rattle.mem_io.specs.MemDevices.{PutsDeviceFrom, PutsDeviceBy};
ghost use Rattle.mem_io.specs.Log.{change_within};
ghost use Rattle.mem_io.specs.LogRoom.{TellsDevice};

use crate::log::{Change, ChangeLog};
use crate::path::{cut, is_dropped};
use crate::trail::{Trail, above, dev_of_top, device_at, put_dev_of_top, put_dev_within};
use crate::tree::MemTree;

impl Change {
    /// Tells another device of what lies at the end of a trail or below it.
    fn put_dev(&mut self, trail: &Trail<'_>, dev: u64)
        ensures { self.new ≡ change_within (names_of trail.now) dev self.old }
    {
        match self {
            Change::Synced(place, node) => put_dev_within(place, node, trail, dev),
            Change::Built(place, node) => put_dev_within(place, node, trail, dev),
            Change::Moved(_, target, moved) => *moved = device_at(target, trail, *moved, dev),
            Change::NotMoved(_, target, moved) => *moved = device_at(target, trail, *moved, dev),
            Change::Created(_)
            | Change::Written(_)
            | Change::Removed(_)
            | Change::FolderSynced(_) => {}
        }
    }
}

impl ChangeLog {
    /// Tells another device of what lies at the end of a trail or below it, as if it had always been there.
    pub fn put_dev(&mut self, trail: &Trail<'_>, dev: u64)
        ensures { TellsDevice self.old (names_of trail.now) dev self.new }
    {
        self.first_dev = dev_of_top(trail, self.first_dev, dev);
        for change in self.changes.iter_mut() {
            change.put_dev(trail, dev);
        }
    }
}

impl MemTree {
    /// Gives the node at the end of a trail and all nodes below it another device.
    pub fn put_dev_on(&mut self, trail: &Trail<'_>, dev: u64)
        ensures put { PutsDevice (mem_tree self.old) (names_of trail.now) dev (mem_tree self.new) }
        ensures number { self.new.next_ino ≡ self.old.next_ino }
    {
        put_dev_of_top(&mut self.top, trail, dev);
        self.nodes.retain(|place, node| {
            put_dev_within(place, node, trail, dev);
            true
        });
    }

    /// Gives the node that the rest of a path leads to from the end of a trail, no link followed, and all nodes below it
    /// another device, and tells it of what changed. Answers whether something stands there.
    fn put_dev_from(
        &mut self,
        trail: &Trail<'_>,
        rest: Option<&str>,
        dev: u64,
        log: &mut ChangeLog,
    ) -> bool
        ensures put { IsTrue result → PutsDeviceFrom (mem_tree self.old) (names_of trail.now) (kept (pieces_left (now_of rest.entry))) dev (mem_tree self.new) log.old log.new }
        ensures nowhere { result ≡ false → plain_node (mem_tree self.old) (names_of trail.now) (kept (pieces_left (now_of rest.entry))) ≡ None }
        ensures same { result ≡ false → mem_tree self.new ≡ mem_tree self.old }
        ensures same_log { result ≡ false → log.new ≡ log.old }
        ensures number { self.new.next_ino ≡ self.old.next_ino }
    {
        let Some(path) = rest else {
            let stands = self.node_on(trail).is_some();
            if stands {
                self.put_dev_on(trail, dev);
                log.put_dev(trail, dev);
            }
            return stands;
        };
        let (part, rest) = cut(path);
        if is_dropped(part) {
            return self.put_dev_from(trail, rest, dev, log);
        }
        if !self.is_directory_on(trail) {
            return false;
        }
        if part == ".." {
            return self.put_dev_from(above(&*trail), rest, dev, log);
        }
        let next = Trail::Below(&*trail, part);
        self.put_dev_from(&next, rest, dev, log)
    }

    /// Gives the node at a path, no link followed, and all nodes below it another device, and tells it of what changed.
    /// Answers whether something stands there.
    pub fn put_dev(&mut self, path: &str, dev: u64, log: &mut ChangeLog) -> bool
        ensures put { IsTrue result → PutsDeviceBy (mem_tree self.old) path.now dev (mem_tree self.new) log.old log.new }
        ensures nowhere { result ≡ false → reached_plain (mem_tree self.old) path.now ≡ None }
        ensures same { result ≡ false → mem_tree self.new ≡ mem_tree self.old }
        ensures same_log { result ≡ false → log.new ≡ log.old }
        ensures number { self.new.next_ino ≡ self.old.next_ino }
    {
        if path.is_empty() {
            return false;
        }
        self.put_dev_from(&Trail::Top, Some(path), dev, log)
    }
}
