//! A list of threads that go on later, as in Pike's virtual machine.

ghost use Rattle.std.specs.Prelude.{◌≡◌, ◌<◌, ◌==◌, ◌∷◌, [], ◌++◌, length, slice_get, Some, IfOk};
ghost use Rattle.hir_core.specs.Trails.{way_of, placed_at};

use crate::trail::Trail;
use sd_base::NoMemory;
use std::alloc::Global;
use std::marker::Model;

/// A thread that goes on later.
#[derive(Clone, Copy)]
pub struct Row {
    /// The spot that it is to try.
    pub spot: usize,
    /// The place of the text where it goes on.
    pub at: usize,
    /// Where its starts begin in the list of all starts.
    pub starts: usize,
    /// Where they end.
    pub starts_end: usize,
    /// Where its groups begin in the list of all groups.
    pub groups: usize,
    /// Where they end.
    pub groups_end: usize,
}

/// The threads that go on later, in order. Contracts see a list of spots and of the ways to them.
#[derive(Drop)]
pub struct ThreadList {
    rows: Vec<Row>,
    /// The starts of all threads, one thread after the other.
    starts: Vec<usize>,
    /// What the groups of all threads hold, one thread after the other.
    groups: Vec<Option<(usize, usize)>>,
}

impl Model for ThreadList {
    ghost use Rattle.std.specs.Prelude.{List, length, map};
    ghost use Rattle.hir_core.specs.Trails.{Stop};
    ghost use Rattle.hir_core.specs.Rows.{stop_in, AllLieIn};

    ghost Value = { List Stop };

    ghost view = { λ later. map (stop_in later.starts.items later.groups.items) later.rows.items };

    ghost invariant = { λ later. AllLieIn (length later.starts.items) (length later.groups.items) later.rows.items };
}

impl ThreadList {
    /// No threads.
    pub fn new(alloc: Global) -> ThreadList
        ensures { result ≡ [] }
    {
        ThreadList {
            rows: Vec::new(alloc),
            starts: Vec::new(alloc),
            groups: Vec::new(alloc),
        }
    }

    /// How many threads there are.
    pub fn len(&self) -> usize
        ensures { result ≡ length self.now }
    {
        self.rows.len()
    }

    /// Whether there is no thread.
    pub fn is_empty(&self) -> bool
        ensures { result ≡ (length self.now == 0) }
    {
        self.rows.is_empty()
    }

    /// Drops all threads.
    pub fn clear(&mut self)
        ensures { self.new ≡ [] }
    {
        self.rows.clear();
        self.starts.clear();
        self.groups.clear();
    }

    /// Adds the thread of a trail at the end, which goes on at a spot and a place. Refuses for want of memory alone.
    pub fn push(&mut self, spot: usize, at: usize, trail: &Trail) -> Result<(), NoMemory>
        ensures { IfOk result (λ _. self.new ≡ self.old ++ (spot, placed_at at (way_of trail.now)) ∷ []) }
    {
        let starts = self.starts.len();
        self.starts.extend_from_slice(trail.starts.as_slice())?;
        let groups = self.groups.len();
        self.groups.extend_from_slice(trail.groups.as_slice())?;
        self.rows.push(Row {
            spot,
            at,
            starts,
            starts_end: self.starts.len(),
            groups,
            groups_end: self.groups.len(),
        })?;
        Ok(())
    }

    /// Puts a thread by its number into a trail, and gives its spot. Refuses for want of memory alone.
    pub fn load(&self, i: usize, trail: &mut Trail) -> Result<usize, NoMemory>
        requires { i < length self.now }
        ensures { IfOk result (λ spot. slice_get self.now i ≡ Some (spot, way_of trail.new)) }
    {
        let row = self.rows[i];
        trail.at = row.at;
        trail.starts.clear();
        trail
            .starts
            .extend_from_slice(&self.starts[row.starts..row.starts_end])?;
        trail.groups.clear();
        trail
            .groups
            .extend_from_slice(&self.groups[row.groups..row.groups_end])?;
        Ok(row.spot)
    }
}
