//! Where paths lead in a tree in memory.

ghost use Rattle.std.specs.Prelude.{◌≡◌, List, ℕ, [], map, reverse, IfOk, IfSome, IsErrOf};
ghost use Rattle.std.specs.Borrow.{Bor};
ghost use Rattle.sd_io.specs.Paths.{Linking, steps, followed, reached, reached_plain, named, links_most};
ghost use Rattle.mem_io.specs.MemTree.{IsPlaceIn, IsFreePlace, HasNoFreePlace};
ghost use Rattle.mem_io.specs.MemTreeView.{mem_tree};
ghost use Rattle.mem_io.specs.MemWalk.{led_to};

use crate::BuildFault;
use crate::path::{parts_of, push_parts};
use crate::place::Place;
use crate::tree::MemTree;
use sd_io::NoMemory;

/// How many links are followed in one path at most.
pub const LINKS_MOST: u32 = 40;

/// How the parts of a path lead on from a directory where no link is followed.
enum Stop<'a> {
    Arrived,
    Nowhere,
    /// A link stands there, with this target.
    Link(&'a str),
}

impl MemTree {
    /// Goes on from a directory by the parts of a path, the next one last, up to their end or the first link. A link in
    /// the place of the last part is left unfollowed where `follow_last` says so.
    fn advance<'a>(
        &'a self,
        at: &mut Place,
        parts: &mut Vec<&'a str>,
        follow_last: bool,
    ) -> Result<Stop<'a>, NoMemory>
        ensures { (linking : Linking) → IfOk result (λ stop.
            steps (mem_tree self.now) linking follow_last at.old (reverse (map (λ (part : Bor (List ℕ)). part.now) parts.old.items))
            ≡ led_to linking at.new (reverse (map (λ (part : Bor (List ℕ)). part.now) parts.new.items)) stop) }
    {
        while let Some(part) = parts.pop() {
            if !self.is_directory(at) {
                return Ok(Stop::Nowhere);
            }
            if part == ".." {
                at.leave();
                continue;
            }
            at.enter(part)?;
            let Some(node) = self.node(at) else {
                return Ok(Stop::Nowhere);
            };
            if let Some(target) = node.target() {
                if parts.is_empty() && !follow_last {
                    return Ok(Stop::Arrived);
                }
                at.leave();
                return Ok(Stop::Link(target));
            }
        }
        Ok(Stop::Arrived)
    }

    /// Where the parts of a path lead from the top, the next one last.
    fn follow<'a>(
        &'a self,
        mut parts: Vec<&'a str>,
        follow_last: bool,
    ) -> Result<Option<Place>, NoMemory>
        ensures { IfOk result (λ place. place ≡ followed (mem_tree self.now) links_most follow_last [] (reverse (map (λ (part : Bor (List ℕ)). part.now) parts.entry.items))) }
    {
        let mut at = Place::top(self.alloc);
        for _ in 0..=LINKS_MOST {
            match self.advance(&mut at, &mut parts, follow_last)? {
                Stop::Arrived => return Ok(Some(at)),
                Stop::Nowhere => return Ok(None),
                Stop::Link(target) => {
                    if target.is_empty() {
                        return Ok(None);
                    }
                    if target.starts_with('/') {
                        at = Place::top(self.alloc);
                    }
                    push_parts(&mut parts, target)?;
                }
            }
        }
        Ok(None)
    }

    /// The place that a path leads to.
    pub fn reached(&self, path: &str, follow_last: bool) -> Result<Option<Place>, NoMemory>
        ensures { IfOk result (λ place. place ≡ reached (mem_tree self.now) path.now follow_last) }
    {
        if path.is_empty() {
            return Ok(None);
        }
        let mut parts = parts_of(self.alloc, path)?;
        parts.reverse();
        self.follow(parts, follow_last)
    }

    /// The place that a path leads to where no link is followed.
    pub fn reached_plain(&self, path: &str) -> Result<Option<Place>, NoMemory>
        ensures { IfOk result (λ place. place ≡ reached_plain (mem_tree self.now) path.now) }
    {
        if path.is_empty() {
            return Ok(None);
        }
        let mut parts = parts_of(self.alloc, path)?;
        parts.reverse();
        let mut at = Place::top(self.alloc);
        match self.advance(&mut at, &mut parts, false)? {
            Stop::Arrived => Ok(Some(at)),
            Stop::Nowhere | Stop::Link(_) => Ok(None),
        }
    }

    /// The place that a path names itself, where its folder is a directory.
    pub fn named(&self, path: &str) -> Result<Option<Place>, NoMemory>
        ensures answer { IfOk result (λ place. place ≡ named (mem_tree self.now) path.now) }
        ensures is_place { IfOk result (λ place. IfSome place (IsPlaceIn (mem_tree self.now))) }
    {
        let mut parts = parts_of(self.alloc, path)?;
        let Some(name) = parts.pop() else {
            return Ok(None);
        };
        if name == ".." {
            return Ok(None);
        }
        parts.reverse();
        match self.follow(parts, true)? {
            None => Ok(None),
            Some(mut place) => {
                if !self.is_directory(&place) {
                    return Ok(None);
                }
                place.enter(name)?;
                Ok(Some(place))
            }
        }
    }

    /// The place of a new node, where its parent is a directory and the name is free. No link is followed.
    pub fn free_place(&self, path: &str) -> Result<Place, BuildFault>
        ensures free { IfOk result (IsFreePlace (mem_tree self.now) path.now) }
        ensures bad_path { IsErrOf result BuildFault.BadPath → HasNoFreePlace (mem_tree self.now) path.now }
    {
        let mut parts = parts_of(self.alloc, path)?;
        let Some(name) = parts.pop() else {
            return Err(BuildFault::BadPath);
        };
        let mut place = Place::top(self.alloc);
        for part in parts.as_slice() {
            if *part == ".." {
                return Err(BuildFault::BadPath);
            }
            place.enter(part)?;
        }
        if name == ".." || !self.is_directory(&place) {
            return Err(BuildFault::BadPath);
        }
        place.enter(name)?;
        if self.nodes.contains_key(&place) {
            return Err(BuildFault::BadPath);
        }
        Ok(place)
    }
}
