//! The tree of a disk in memory, and what a crash may leave of it.

ghost use Rattle.std.specs.Prelude.{◌≡◌, ◌+◌, [], ◌∷◌, ◌⊎◌, None, true, false, IsTrue, OnOk, OnErr, IfOk, IfSome, IfNone, IsSome};
ghost use Rattle.sd_io.specs.Tree.{directory, file, SameOrders, SameOrdersBut, node_at, file_at, is_directory_at};
ghost use Rattle.sd_io.specs.Paths.{parent_of, reached_plain};
ghost use Rattle.sd_io.specs.Files.{file_of};
ghost use Rattle.mem_io.specs.MemNode.{content_of};
ghost use Rattle.mem_io.specs.MemTree.{IsPlaceIn, Adds, AddsName, PutsBytes, TakesAway, Moves};
ghost use Rattle.mem_io.specs.MemTreeView.{mem_tree};
ghost use Rattle.mem_io.specs.Log.{IsKept, outcomes_after, IsKept-prop};
ghost use Rattle.mem_io.specs.declared.log.Change.TheVariants as change;

use crate::log::{Change, ChangeLog};
use crate::node::MemContent;
use crate::place::Place;
use crate::tree::MemTree;
use sd_io::NoMemory;
use std::alloc::Global;

/// A tree, and what changed in it. Room for a change is made before the tree changes, so that want of memory changes
/// nothing.
#[derive(Drop)]
pub struct Medium {
    pub tree: MemTree,
    pub log: ChangeLog,
    ghost kept: { IsKept (mem_tree tree) (outcomes_after log.first_dev log.changes.items) } by { IsKept-prop _ _ },
}

impl Medium {
    ghost use Rattle.mem_io.specs.MemDevices.{PutsDeviceBy};
    ghost use Rattle.mem_io.specs.Medium.{told_tree, first_of, changes_of, Notes, NotesOnly, SameMedium, NotesBuilt, NotesSynced, NotesWritten, CanRename, IsHindered, NotesMoved, NotesNotMoved, NotesUnmoved};

    /// A top directory alone, of device 1.
    pub fn new(alloc: Global) -> Medium
        ensures top { result.tree.top ≡ record { content = directory; dev = 1; ino = 1 } }
        ensures nodes { result.tree.nodes.entries ≡ [] }
        ensures number { result.tree.next_ino ≡ 2 }
        ensures first { first_of result ≡ 1 }
        ensures changes { changes_of result ≡ [] }
    {
        Medium {
            tree: MemTree::new(alloc),
            log: ChangeLog::new(alloc),
        }
    }

    /// Builds a node at a free place in a directory, with the directory's device and the next inode number.
    pub fn build(&mut self, place: Place, content: MemContent) -> Result<(), NoMemory>
        requires is_place { IsPlaceIn (told_tree self.old) place }
        requires free { node_at (told_tree self.old) place ≡ None }
        ensures added { OnOk result (Adds (told_tree self.old) place (content_of content) self.old.tree.next_ino (told_tree self.new)) }
        ensures order { OnOk result (AddsName (told_tree self.old) place (told_tree self.new)) }
        ensures number { OnOk result (self.new.tree.next_ino ≡ self.old.tree.next_ino + 1) }
        ensures noted { OnOk result (NotesBuilt self.old place self.new) }
        ensures refused { OnErr result (SameMedium self.old self.new) }
    {
        let copy = content.try_clone(self.tree.alloc)?;
        let node = self.tree.next_node(&place, copy)?;
        let built = place.try_clone()?;
        self.log.reserve()?;
        self.tree.add(place, content)?;
        self.log.note(Change::Built(built, node));
        Ok(())
    }

    /// Creates an empty file of this mode at a free place in a directory, with the directory's device and the next inode
    /// number.
    pub fn create(&mut self, place: Place, mode: u32) -> Result<(), NoMemory>
        requires is_place { IsPlaceIn (told_tree self.old) place }
        requires free { node_at (told_tree self.old) place ≡ None }
        ensures added { OnOk result (Adds (told_tree self.old) place (file [] mode) self.old.tree.next_ino (told_tree self.new)) }
        ensures order { OnOk result (AddsName (told_tree self.old) place (told_tree self.new)) }
        ensures number { OnOk result (self.new.tree.next_ino ≡ self.old.tree.next_ino + 1) }
        ensures noted { OnOk result (Notes self.old (change.Created place) self.new) }
        ensures refused { OnErr result (SameMedium self.old self.new) }
    {
        let created = place.try_clone()?;
        self.log.reserve()?;
        let content = MemContent::File(Vec::new(self.tree.alloc), mode);
        self.tree.add(place, content)?;
        self.log.note(Change::Created(created));
        Ok(())
    }

    /// Gives the regular file at a place other bytes.
    pub fn write(&mut self, place: Place, bytes: Vec<u8>) -> Result<(), NoMemory>
        requires { IsSome (file_at (told_tree self.old) place) }
        ensures put { OnOk result (PutsBytes (told_tree self.old) place bytes.items (told_tree self.new)) }
        ensures orders { OnOk result (SameOrders (told_tree self.old) (told_tree self.new)) }
        ensures number { self.new.tree.next_ino ≡ self.old.tree.next_ino }
        ensures noted { OnOk result (Notes self.old (change.Written place) self.new) }
        ensures refused { OnErr result (SameMedium self.old self.new) }
    {
        self.log.reserve()?;
        self.tree.put_bytes(&place, bytes);
        self.log.note(Change::Written(place));
        Ok(())
    }

    /// Any bytes may be on the medium from now on where a path leads to a regular file.
    pub fn spoil(&mut self, path: &str) -> Result<(), NoMemory>
        ensures spoiled { OnOk result (((file_of (told_tree self.old) path.now ≡ None) × SameMedium self.old self.new) ⊎ NotesWritten self.old path.now self.new) }
        ensures refused { OnErr result (SameMedium self.old self.new) }
    {
        match self.tree.reached(path, true)? {
            Some(place) if self.tree.is_file(&place) => {
                self.log.reserve()?;
                self.log.note(Change::Written(place));
                Ok(())
            }
            _ => Ok(()),
        }
    }

    /// Puts the regular file at a place on the medium as it stands.
    pub fn sync(&mut self, place: Place) -> Result<(), NoMemory>
        requires { IsSome (file_at (told_tree self.old) place) }
        ensures noted { OnOk result (NotesSynced self.old place self.new) }
        ensures refused { OnErr result (SameMedium self.old self.new) }
    {
        let Some(node) = self.tree.node(&place) else {
            return Ok(());
        };
        let copy = node.try_clone(self.tree.alloc)?;
        self.log.reserve()?;
        self.log.note(Change::Synced(place, copy));
        Ok(())
    }

    /// Puts the regular file at `from` in the place `to`.
    pub fn rename(&mut self, from: Place, to: Place) -> Result<(), NoMemory>
        requires is_file { IsSome (file_at (told_tree self.old) from) }
        requires is_place { IsPlaceIn (told_tree self.old) to }
        requires may_come { (node_at (told_tree self.old) to ≡ None) ⊎ IsSome (file_at (told_tree self.old) to) }
        ensures moved { OnOk result (Moves (told_tree self.old) from to (told_tree self.new)) }
        ensures orders { OnOk result (SameOrdersBut (parent_of from ∷ parent_of to ∷ []) (told_tree self.old) (told_tree self.new)) }
        ensures number { self.new.tree.next_ino ≡ self.old.tree.next_ino }
        ensures noted { OnOk result (NotesMoved self.old from to self.new) }
        ensures refused { OnErr result (SameMedium self.old self.new) }
    {
        if from == to {
            return Ok(());
        }
        let dev = self.tree.dev(&from);
        let target = to.try_clone()?;
        self.log.reserve()?;
        self.tree.rename(&from, to)?;
        self.log.note(Change::Moved(from, target, dev));
        Ok(())
    }

    /// The places of a file that can be renamed and of where it comes.
    pub fn ends(&self, from: &str, to: &str) -> Result<Option<(Place, Place)>, NoMemory>
        ensures can { IfOk result (λ ends. IfSome ends (λ e. CanRename (told_tree self.now) from.now to.now e.0 e.1)) }
        ensures hindered { IfOk result (λ ends. IfNone ends (IsHindered (told_tree self.now) from.now to.now)) }
    {
        let Some(source) = self.tree.named(from)? else {
            return Ok(None);
        };
        if !self.tree.is_file(&source) {
            return Ok(None);
        }
        let Some(target) = self.tree.named(to)? else {
            return Ok(None);
        };
        if self.tree.node(&target).is_some() && !self.tree.is_file(&target) {
            return Ok(None);
        }
        Ok(Some((source, target)))
    }

    /// From now on a crash may show a file at `to` that could come there from `from`, or show it gone, though it stays.
    pub fn unsettle(&mut self, from: &str, to: &str) -> Result<(), NoMemory>
        ensures unsettled { OnOk result ((IsHindered (told_tree self.old) from.now to.now × SameMedium self.old self.new) ⊎ NotesUnmoved self.old from.now to.now self.new) }
        ensures refused { OnErr result (SameMedium self.old self.new) }
    {
        let Some((source, target)) = self.ends(from, to)? else {
            return Ok(());
        };
        if source == target {
            return Ok(());
        }
        let dev = self.tree.dev(&source);
        self.log.reserve()?;
        self.log.note(Change::NotMoved(source, target, dev));
        Ok(())
    }

    /// Removes the regular file at a place.
    pub fn remove(&mut self, place: Place) -> Result<(), NoMemory>
        requires { IsSome (file_at (told_tree self.old) place) }
        ensures removed { OnOk result (TakesAway (told_tree self.old) place (told_tree self.new)) }
        ensures orders { OnOk result (SameOrdersBut (parent_of place ∷ []) (told_tree self.old) (told_tree self.new)) }
        ensures number { self.new.tree.next_ino ≡ self.old.tree.next_ino }
        ensures noted { OnOk result (Notes self.old (change.Removed place) self.new) }
        ensures refused { OnErr result (SameMedium self.old self.new) }
    {
        self.log.reserve()?;
        self.tree.remove(&place);
        self.log.note(Change::Removed(place));
        Ok(())
    }

    /// Puts the names in the directory at a place on the medium.
    pub fn sync_folder(&mut self, folder: Place) -> Result<(), NoMemory>
        ensures noted { OnOk result (NotesOnly self.old (change.FolderSynced folder) self.new) }
        ensures refused { OnErr result (SameMedium self.old self.new) }
    {
        self.log.reserve()?;
        self.log.note(Change::FolderSynced(folder));
        Ok(())
    }

    /// Gives the node at a path, no link followed, and all nodes below it another device, and so every node that a crash may
    /// leave there or below. Answers whether something stands there.
    pub fn set_dev(&mut self, path: &str, dev: u64) -> bool
        ensures put { IsTrue result → PutsDeviceBy (told_tree self.old) path.now dev (told_tree self.new) self.old.log self.new.log }
        ensures nowhere { result ≡ false → reached_plain (told_tree self.old) path.now ≡ None }
        ensures same { result ≡ false → SameMedium self.old self.new }
        ensures number { self.new.tree.next_ino ≡ self.old.tree.next_ino }
    {
        self.tree.put_dev(path, dev, &mut self.log)
    }
}
