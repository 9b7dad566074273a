//! The tree of a disk in memory.

ghost use Rattle.std.specs.Prelude.{◌≡◌, ◌+◌, [], ◌∷◌, ◌⊎◌, None, option_map, is_some, IfOk, OnOk, OnErr, IsSome};
ghost use Rattle.sd_io.specs.Tree.{directory, SameOrders, SameOrdersBut, node_at, is_directory_at, file_at};
ghost use Rattle.sd_io.specs.Paths.{parent_of};
ghost use Rattle.mem_io.specs.MemNode.{content_of, now_of};
ghost use Rattle.mem_io.specs.MemTree.{listing, dev_at, IsPlaceIn, Adds, AddsName, PutsBytes, TakesAway, Moves};
ghost use Rattle.mem_io.specs.MemSound.{IsSound, IsSound-prop};

use crate::node::{MemContent, MemNode};
use crate::place::Place;
use sd_io::{NoMemory, RawEntry, Text};
use std::alloc::Global;
use std::collections::BTreeMap;

/// A tree of nodes, the top among them.
#[derive(Drop)]
pub struct MemTree {
    pub alloc: Global,
    pub top: MemNode,
    /// Every node but the top.
    pub nodes: BTreeMap<Place, MemNode>,
    /// The inode number of the next node: a directory's order is that of these numbers.
    pub next_ino: u64,
    ghost sound: { IsSound top nodes.entries next_ino } by { IsSound-prop _ _ _ },
}

impl MemTree {
    ghost use Rattle.mem_io.specs.MemTreeView.{mem_tree};

    /// A top directory alone, of device 1.
    pub fn new(alloc: Global) -> MemTree
        ensures top { result.top ≡ record { content = directory; dev = 1; ino = 1 } }
        ensures nodes { result.nodes.entries ≡ [] }
        ensures number { result.next_ino ≡ 2 }
    {
        MemTree {
            alloc,
            top: MemNode::new(MemContent::Directory, 1, 1),
            nodes: BTreeMap::new(alloc),
            next_ino: 2,
        }
    }

    /// What stands at a place.
    pub fn node(&self, place: &Place) -> Option<&MemNode>
        ensures { now_of result ≡ node_at (mem_tree self.now) place.now }
    {
        if place.is_top() {
            return Some(&self.top);
        }
        self.nodes.get(place)
    }

    /// Whether a directory stands at a place.
    pub fn is_directory(&self, place: &Place) -> bool
        ensures { result ≡ is_directory_at (mem_tree self.now) place.now }
    {
        match self.node(place) {
            None => false,
            Some(node) => node.is_directory(),
        }
    }

    /// Whether a regular file stands at a place.
    pub fn is_file(&self, place: &Place) -> bool
        ensures { result ≡ is_some (file_at (mem_tree self.now) place.now) }
    {
        match self.node(place) {
            None => false,
            Some(node) => node.is_file(),
        }
    }

    /// The bytes of the regular file at a place.
    pub fn bytes(&self, place: &Place) -> Option<&[u8]>
        ensures { now_of result ≡ option_map (λ f. f.0) (file_at (mem_tree self.now) place.now) }
    {
        self.node(place)?.bytes()
    }

    /// The mode of the regular file at a place.
    pub fn mode(&self, place: &Place) -> Option<u32>
        ensures { result ≡ option_map (λ f. f.1) (file_at (mem_tree self.now) place.now) }
    {
        self.node(place)?.mode()
    }

    /// The device of the node at a place, 0 where nothing stands.
    pub fn dev(&self, place: &Place) -> u64
        ensures { result ≡ dev_at (mem_tree self.now) place.now }
    {
        match self.node(place) {
            None => 0,
            Some(node) => node.ident().dev,
        }
    }

    /// The next node that is added, where it is added at this place.
    pub fn next_node(&self, place: &Place, content: MemContent) -> Result<MemNode, NoMemory>
        ensures { IfOk result (λ node. node ≡ record { content = content_of content; dev = dev_at (mem_tree self.now) (parent_of place.now); ino = self.now.next_ino }) }
    {
        let mut folder = place.try_clone()?;
        folder.leave();
        Ok(MemNode::new(content, self.dev(&folder), self.next_ino))
    }

    /// Adds a node at a free place in a directory, with the directory's device and the next inode number. Out of numbers
    /// is out of memory.
    pub fn add(&mut self, place: Place, content: MemContent) -> Result<(), NoMemory>
        requires is_place { IsPlaceIn (mem_tree self.old) place }
        requires free { node_at (mem_tree self.old) place ≡ None }
        ensures added { OnOk result (Adds (mem_tree self.old) place (content_of content) self.old.next_ino (mem_tree self.new)) }
        ensures order { OnOk result (AddsName (mem_tree self.old) place (mem_tree self.new)) }
        ensures number { OnOk result (self.new.next_ino ≡ self.old.next_ino + 1) }
        ensures refused { OnErr result (mem_tree self.new ≡ mem_tree self.old) }
        ensures same_number { OnErr result (self.new.next_ino ≡ self.old.next_ino) }
    {
        if self.next_ino == u64::MAX {
            return Err(NoMemory);
        }
        let node = self.next_node(&place, content)?;
        self.nodes.insert(place, node)?;
        self.next_ino += 1;
        Ok(())
    }

    /// Gives the regular file at a place other bytes.
    pub fn put_bytes(&mut self, place: &Place, bytes: Vec<u8>)
        ensures put { PutsBytes (mem_tree self.old) place.now bytes.items (mem_tree self.new) }
        ensures orders { SameOrders (mem_tree self.old) (mem_tree self.new) }
        ensures number { self.new.next_ino ≡ self.old.next_ino }
    {
        if let Some(node) = self.nodes.get_mut(place) {
            node.put_bytes(bytes);
        }
    }

    /// Removes the regular file at a place.
    pub fn remove(&mut self, place: &Place)
        requires { IsSome (file_at (mem_tree self.old) place.now) }
        ensures removed { TakesAway (mem_tree self.old) place.now (mem_tree self.new) }
        ensures orders { SameOrdersBut (parent_of place.now ∷ []) (mem_tree self.old) (mem_tree self.new) }
        ensures number { self.new.next_ino ≡ self.old.next_ino }
    {
        let _node = self.nodes.remove(place);
    }

    /// Puts the regular file at `from` in the place `to`.
    pub fn rename(&mut self, from: &Place, to: Place) -> Result<(), NoMemory>
        requires is_file { IsSome (file_at (mem_tree self.old) from.now) }
        requires is_place { IsPlaceIn (mem_tree self.old) to }
        requires may_come { (node_at (mem_tree self.old) to ≡ None) ⊎ IsSome (file_at (mem_tree self.old) to) }
        ensures moved { OnOk result (Moves (mem_tree self.old) from.now to (mem_tree self.new)) }
        ensures orders { OnOk result (SameOrdersBut (parent_of from.now ∷ parent_of to ∷ []) (mem_tree self.old) (mem_tree self.new)) }
        ensures refused { OnErr result (mem_tree self.new ≡ mem_tree self.old) }
        ensures number { self.new.next_ino ≡ self.old.next_ino }
    {
        if *from == to {
            return Ok(());
        }
        // The place is made first, so that the node itself needs no memory.
        let placeholder = MemNode::new(MemContent::Other, 0, 0);
        self.nodes.insert(to.try_clone()?, placeholder)?;
        let Some(node) = self.nodes.remove(from) else {
            return Ok(());
        };
        self.nodes.insert(to, node)?;
        Ok(())
    }

    /// The entries of the directory at a place, in its order.
    pub fn entries(&self, folder: &Place) -> Result<Vec<RawEntry>, NoMemory>
        ensures { IfOk result (λ entries. entries.items ≡ listing folder.now self.now.nodes.entries) }
    {
        let mut entries = Vec::new(self.alloc);
        for (place, node) in self.nodes.iter() {
            if let Some(name) = place.name_in(folder) {
                entries.push(RawEntry {
                    name: Text::new(self.alloc, name)?,
                    kind: node.kind(),
                    ino: node.ident().ino,
                })?;
            }
        }
        entries.sort_by_key(|entry| entry.ino)?;
        Ok(entries)
    }
}
