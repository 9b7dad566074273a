//! The thread of a search that is followed, and what else is to be tried at its place.

ghost use Rattle.std.specs.Prelude.{◌≡◌, ◌+◌, ◌^◌, ◌<◌, ℕ, ◌∷◌, [], IfOk, OnOk, None, length, replicate, slice_index_or, slice_set};
ghost use Rattle.hir_program.specs.Program.{opened, closed, way};
ghost use Rattle.hir_tree.specs.Runs as runs;
ghost use Rattle.hir_core.specs.Trails.{way_of, placed_at, stops_of, stops_on, undone, ComesBack};

use sd_base::NoMemory;
use std::alloc::Global;

/// What is done when a search comes back to an alternative.
#[derive(Drop)]
pub enum Frame {
    /// This spot is tried, at this place of the text.
    Try(usize, usize),
    /// The start of the innermost group is taken off again.
    Begun,
    /// What a group held is put back, and its start, if it had one.
    Ended {
        index: usize,
        start: Option<usize>,
        before: Option<(usize, usize)>,
    },
}

/// The captures of the thread that is followed, and the alternatives on its way, which share them.
#[derive(Drop)]
pub struct Trail {
    /// The place of the text.
    pub at: usize,
    /// Where the groups began that the thread is in, the innermost last.
    pub starts: Vec<usize>,
    /// What the groups hold.
    pub groups: Vec<Option<(usize, usize)>>,
    /// The alternatives, the first to be tried last, each with its place, and between them what is undone on the way back to them;
    /// nothing is noted that no alternative is before.
    pub frames: Vec<Frame>,
}

/// What a group holds, unset where there is none of this index.
fn group(groups: &[Option<(usize, usize)>], index: usize) -> Option<(usize, usize)>
    ensures { result ≡ slice_index_or groups.now index None }
{
    *groups.get(index)?
}

/// Sets a group, if there is one of this index.
fn set_group(groups: &mut Vec<Option<(usize, usize)>>, index: usize, group: Option<(usize, usize)>)
    ensures { groups.new.items ≡ slice_set groups.old.items index group }
{
    if let Some(slot) = groups.get_mut(index) {
        *slot = group;
    }
}

/// Unsets groups.
fn unset(groups: &mut Vec<Option<(usize, usize)>>)
    ensures { groups.new.items ≡ replicate (length groups.old.items) None }
{
    for group in groups.iter_mut() {
        *group = None;
    }
}

/// Makes so many groups of these, all unset. Refuses for want of memory alone.
#[inline(always)]
fn unset_all(groups: &mut Vec<Option<(usize, usize)>>, count: usize) -> Result<(), NoMemory>
    ensures { OnOk result (groups.new.items ≡ replicate count None) }
{
    // there are as many already for most threads, and to fill them in anew takes longer to begin
    if groups.len() == count {
        unset(groups);
        return Ok(());
    }
    groups.clear();
    groups.resize(count, None)?;
    Ok(())
}

impl Trail {
    /// A trail with empty lists.
    pub fn new(alloc: Global) -> Trail
        ensures { stops_of result ≡ [] }
    {
        Trail {
            at: 0,
            starts: Vec::new(alloc),
            groups: Vec::new(alloc),
            frames: Vec::new(alloc),
        }
    }

    /// A thread begins at a place, with groups up to this index. Refuses for want of memory alone.
    #[inline(always)]
    pub fn begin(&mut self, at: usize, groups: u32) -> Result<(), NoMemory>
        ensures { IfOk result (λ _. way_of self.new ≡ way [] (runs.begin at groups)) }
    {
        self.at = at;
        self.starts.clear();
        unset_all(&mut self.groups, groups as usize + 1)
    }

    /// A thread begins at a place, where group 0 begins, with groups up to this index. Refuses for want of memory alone.
    #[inline(always)]
    pub fn begin_whole(&mut self, at: usize, groups: u32) -> Result<(), NoMemory>
        ensures { IfOk result (λ _. way_of self.new ≡ opened (way [] (runs.begin at groups))) }
    {
        self.begin(at, groups)?;
        self.starts.push(at)?;
        Ok(())
    }

    /// Drops the alternatives.
    pub fn clear(&mut self)
        ensures way { way_of self.new ≡ way_of self.old }
        ensures stops { stops_of self.new ≡ [] }
    {
        self.frames.clear();
    }

    /// Goes on by so many bytes.
    pub fn move_on(&mut self, bytes: usize)
        requires { self.old.at + bytes < 2 ^ 64 }
        ensures way { way_of self.new ≡ placed_at (self.old.at + bytes) (way_of self.old) }
        ensures stops { stops_of self.new ≡ stops_of self.old }
    {
        self.at += bytes;
    }

    /// A spot is to be tried before the alternatives. Refuses for want of memory alone.
    pub fn push(&mut self, spot: usize) -> Result<(), NoMemory>
        ensures way { way_of self.new ≡ way_of self.old }
        ensures stops { IfOk result (λ _. stops_of self.new ≡ (spot, way_of self.old) ∷ stops_of self.old) }
    {
        self.frames.push(Frame::Try(spot, self.at))?;
        Ok(())
    }

    /// Begins a group. Refuses for want of memory alone.
    pub fn open(&mut self) -> Result<(), NoMemory>
        ensures way { IfOk result (λ _. way_of self.new ≡ opened (way_of self.old)) }
        ensures stops { IfOk result (λ _. stops_of self.new ≡ stops_of self.old) }
    {
        self.starts.push(self.at)?;
        if !self.frames.is_empty() {
            self.frames.push(Frame::Begun)?;
        }
        Ok(())
    }

    /// Ends the innermost group. Refuses for want of memory alone.
    #[inline(always)]
    pub fn close(&mut self, index: usize) -> Result<(), NoMemory>
        ensures way { IfOk result (λ _. way_of self.new ≡ closed index (way_of self.old)) }
        ensures stops { IfOk result (λ _. stops_of self.new ≡ stops_of self.old) }
    {
        let start = self.starts.pop();
        let before = group(self.groups.as_slice(), index);
        set_group(&mut self.groups, index, Some((start.unwrap_or(0), self.at)));
        if !self.frames.is_empty() {
            self.frames.push(Frame::Ended {
                index,
                start,
                before,
            })?;
        }
        Ok(())
    }

    /// Undoes what a frame says. Refuses for want of memory alone.
    fn undo(&mut self, frame: Frame) -> Result<(), NoMemory>
        ensures way { IfOk result (λ _. way_of self.new ≡ undone frame (way_of self.old)) }
        ensures frames { IfOk result (λ _. self.new.frames ≡ self.old.frames) }
    {
        match frame {
            Frame::Try(_, _) => {}
            Frame::Begun => {
                self.starts.pop();
            }
            Frame::Ended {
                index,
                start,
                before,
            } => {
                if let Some(start) = start {
                    self.starts.push(start)?;
                }
                set_group(&mut self.groups, index, before);
            }
        }
        Ok(())
    }

    /// Gives the spot at which the thread goes on, if there is one, or else comes back to the last alternative, and gives its
    /// spot. Refuses for want of memory alone.
    #[inline(always)]
    pub fn next(&mut self, on: Option<usize>) -> Result<Option<usize>, NoMemory>
        ensures { IfOk result (λ next. ComesBack next (stops_on on self.old) (way_of self.new) (stops_of self.new)) }
    {
        if on.is_some() {
            return Ok(on);
        }
        self.come_back()
    }

    /// Comes back to the last alternative, if there is one, and gives its spot. Refuses for want of memory alone.
    fn come_back(&mut self) -> Result<Option<usize>, NoMemory>
        ensures { IfOk result (λ next. ComesBack next (stops_of self.old) (way_of self.new) (stops_of self.new)) }
    {
        while let Some(frame) = self.frames.pop() {
            if let Frame::Try(spot, at) = frame {
                self.at = at;
                return Ok(Some(spot));
            }
            self.undo(frame)?;
        }
        Ok(None)
    }
}
