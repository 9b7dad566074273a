//! Name lists on the stack.

ghost use Rattle.std.specs.Prelude.{◌≡◌, ◌↔◌, IsTrue, List, ℕ, [], false, option_map};
ghost use Rattle.std.specs.Borrow.{Bor};
ghost use Rattle.sd_io.specs.Tree.{node_at, is_directory_at};
ghost use Rattle.sd_io.specs.Paths.{parent_of, kept, pieces_left, plain_file};
ghost use Rattle.mem_io.specs.MemNode.{now_of};
ghost use Rattle.mem_io.specs.MemTreeView.{mem_tree};
ghost use Rattle.mem_io.specs.MemTrail.{names_of, plain_node, begins_with, dev_within};
ghost use Rattle.mem_io.specs.Log.{number_within};

use crate::node::MemNode;
use crate::path::{cut, is_dropped};
use crate::place::Place;
use crate::tree::MemTree;
use sd_io::Text;

/// A name list that takes no memory: the top, or a name below another.
#[derive(Clone, Copy)]
pub enum Trail<'a> {
    Top,
    Below(&'a Trail<'a>, &'a str),
}

/// Whether the names are those of a trail.
fn is_at(names: &[Text], trail: &Trail<'_>) -> bool
    ensures { IsTrue result ↔ (names.now ≡ names_of trail.now) }
{
    match trail {
        Trail::Top => names.is_empty(),
        Trail::Below(before, name) => match names.split_last() {
            None => false,
            Some((last, front)) => last.as_str() == *name && is_at(front, before),
        },
    }
}

/// Whether the names begin with those of a trail.
fn is_within(names: &[Text], trail: &Trail<'_>) -> bool
    ensures { result ≡ begins_with (names_of trail.now) names.now }
{
    if is_at(names, trail) {
        return true;
    }
    match names.split_last() {
        None => false,
        Some((_, front)) => is_within(front, trail),
    }
}

/// Gives a node another device, where its place begins with a trail.
pub fn put_dev_within(place: &Place, node: &mut MemNode, trail: &Trail<'_>, dev: u64)
    ensures { node.new ≡ dev_within (names_of trail.now) dev place.now node.old }
{
    if is_within(place.names(), trail) {
        node.put_dev(dev);
    }
}

/// Gives the top another device, where the trail is the top.
pub fn put_dev_of_top(top: &mut MemNode, trail: &Trail<'_>, dev: u64)
    ensures { top.new ≡ dev_within (names_of trail.now) dev [] top.old }
{
    if let Trail::Top = trail {
        top.put_dev(dev);
    }
}

/// The device of the top, another where the trail is the top.
pub fn dev_of_top(trail: &Trail<'_>, was: u64, dev: u64) -> u64
    ensures { result ≡ number_within (names_of trail.now) dev [] was }
{
    match trail {
        Trail::Top => dev,
        Trail::Below(_, _) => was,
    }
}

/// The device at a place, another where the place begins with a trail.
pub fn device_at(place: &Place, trail: &Trail<'_>, was: u64, dev: u64) -> u64
    ensures { result ≡ number_within (names_of trail.now) dev place.now was }
{
    if is_within(place.names(), trail) {
        dev
    } else {
        was
    }
}

/// The trail without its last name; the top stays.
pub fn above<'a>(trail: &'a Trail<'a>) -> &'a Trail<'a>
    ensures { names_of result.now ≡ parent_of (names_of trail.now) }
{
    match trail {
        Trail::Top => trail,
        Trail::Below(before, _) => before,
    }
}

impl MemTree {
    /// What stands at the end of a trail. Takes no memory, in time of the number of nodes.
    pub fn node_on(&self, trail: &Trail<'_>) -> Option<&MemNode>
        ensures { now_of result ≡ node_at (mem_tree self.now) (names_of trail.now) }
    {
        if let Trail::Top = trail {
            return Some(&self.top);
        }
        for (place, node) in self.nodes.iter() {
            if is_at(place.names(), trail) {
                return Some(node);
            }
        }
        None
    }

    /// Whether a directory stands at the end of a trail. Takes no memory.
    pub fn is_directory_on(&self, trail: &Trail<'_>) -> bool
        ensures { result ≡ is_directory_at (mem_tree self.now) (names_of trail.now) }
    {
        match self.node_on(trail) {
            None => false,
            Some(node) => node.is_directory(),
        }
    }

    /// What the rest of a path leads to from the end of a trail, no link followed. Takes no memory.
    fn node_from(&self, trail: &Trail<'_>, rest: Option<&str>) -> Option<&MemNode>
        ensures { now_of result ≡ plain_node (mem_tree self.now) (names_of trail.now) (kept (pieces_left (now_of rest.entry))) }
    {
        let Some(path) = rest else {
            return self.node_on(trail);
        };
        let (part, rest) = cut(path);
        if is_dropped(part) {
            return self.node_from(trail, rest);
        }
        if !self.is_directory_on(trail) {
            return None;
        }
        if part == ".." {
            return self.node_from(above(&*trail), rest);
        }
        let next = Trail::Below(&*trail, part);
        self.node_from(&next, rest)
    }

    /// The bytes and the mode of the regular file at a path, no link followed. Takes no memory.
    pub fn file(&self, path: &str) -> Option<(&[u8], u32)>
        ensures { option_map (λ (f : Bor (List ℕ) × ℕ). (f.0.now, f.1)) result ≡ plain_file (mem_tree self.now) path.now }
    {
        if path.is_empty() {
            return None;
        }
        let node = self.node_from(&Trail::Top, Some(path))?;
        Some((node.bytes()?, node.mode()?))
    }
}
