//! What a crash may leave at each place of a disk in memory.

ghost use Rattle.std.specs.Prelude.{◌≡◌, ◌++◌, ◌∷◌, [], if◌then◌else◌, IfOk, OnOk};
ghost use Rattle.sd_io.specs.Outcomes.{left_behind, put, is_in, never_used, built, after_sync};
ghost use Rattle.mem_io.specs.Log.{first_on, after, after_move_on, after_no_move_on, in_folder, outcomes_after};

use crate::log::{Change, ChangeLog};
use crate::node::{MemContent, MemNode};
use crate::outcome::{MemLeft, MemOutcome, OutcomeList};
use crate::place::Place;
use sd_io::NoMemory;
use std::alloc::Global;
use std::collections::BTreeMap;

/// The outcomes of each place. One that isn't listed was never used: it has absent alone.
#[derive(Drop)]
pub struct OutcomeTable {
    alloc: Global,
    lists: BTreeMap<Place, OutcomeList>,
}

/// Puts what lies in a folder on the medium: its own outcomes alone stay. Answers whether there are any, or the place lies
/// elsewhere.
fn settle_in(folder: &Place, place: &Place, list: &mut OutcomeList) -> bool
    ensures { (if result then list.new else never_used) ≡ in_folder (is_in folder.now place.now) list.old }
{
    if !place.is_in(folder) {
        return true;
    }
    list.keep_own();
    !list.is_empty()
}

impl OutcomeTable {
    ghost use Rattle.mem_io.specs.OutcomeTable.{outcomes_of, Counts};

    /// Of a new disk whose top has this device: the top directory stands alone.
    fn new(alloc: Global, first_dev: u64) -> Result<OutcomeTable, NoMemory>
        ensures { IfOk result (λ table. outcomes_of table ≡ first_on first_dev) }
    {
        let mut table = OutcomeTable {
            alloc,
            lists: BTreeMap::new(alloc),
        };
        let top = MemNode::new(MemContent::Directory, first_dev, 1);
        table.build(&Place::top(alloc), top)?;
        Ok(table)
    }

    /// After all changes of a new disk.
    pub fn after(alloc: Global, log: &ChangeLog) -> Result<OutcomeTable, NoMemory>
        ensures { IfOk result (λ table. outcomes_of table ≡ outcomes_after log.now.first_dev log.now.changes.items) }
    {
        let mut table = OutcomeTable::new(alloc, log.first_dev)?;
        for change in log.changes.iter() {
            table.note(change)?;
        }
        Ok(table)
    }

    /// A copy of the outcomes of a place.
    fn list(&self, place: &Place) -> Result<OutcomeList, NoMemory>
        ensures { IfOk result (λ list. list ≡ outcomes_of self.now place.now) }
    {
        match self.lists.get(place) {
            None => OutcomeList::only(self.alloc, MemOutcome::older(MemLeft::Gone)),
            Some(list) => list.try_clone(),
        }
    }

    fn put(&mut self, place: &Place, list: OutcomeList) -> Result<(), NoMemory>
        ensures { OnOk result (outcomes_of self.new ≡ put place.now list (outcomes_of self.old)) }
    {
        self.lists.insert(place.try_clone()?, list)?;
        Ok(())
    }

    /// Adds an outcome to those of a place.
    fn add(&mut self, place: &Place, outcome: MemOutcome) -> Result<(), NoMemory>
        ensures { OnOk result (outcomes_of self.new ≡ put place.now (outcomes_of self.old place.now ++ outcome ∷ []) (outcomes_of self.old)) }
    {
        let mut list = self.list(place)?;
        list.push(outcome)?;
        self.put(place, list)
    }

    /// Another node comes to a place, or nothing stands there any more. The outcomes of what stood there stay behind.
    fn replace(&mut self, place: &Place, outcome: MemOutcome) -> Result<(), NoMemory>
        ensures { OnOk result (outcomes_of self.new ≡ put place.now (left_behind (outcomes_of self.old place.now) ++ outcome ∷ []) (outcomes_of self.old)) }
    {
        let mut list = self.list(place)?;
        list.leave_behind();
        list.push(outcome)?;
        self.put(place, list)
    }

    /// A node is built.
    fn build(&mut self, place: &Place, node: MemNode) -> Result<(), NoMemory>
        ensures { OnOk result (outcomes_of self.new ≡ put place.now (built node) (outcomes_of self.old)) }
    {
        let outcome = MemOutcome::own(MemLeft::This(node));
        self.put(place, OutcomeList::only(self.alloc, outcome)?)
    }

    /// A file is on the medium as it stands.
    fn sync(&mut self, place: &Place, node: &MemNode) -> Result<(), NoMemory>
        ensures { OnOk result (outcomes_of self.new ≡ after_sync place.now node.now (outcomes_of self.old)) }
    {
        let mut list = self.list(place)?;
        list.settle(node)?;
        self.put(place, list)
    }

    /// A file of this device goes from one place to another.
    fn rename(&mut self, from: &Place, to: &Place, dev: u64) -> Result<(), NoMemory>
        ensures { OnOk result (outcomes_of self.new ≡ after_move_on from.now to.now dev (outcomes_of self.old)) }
    {
        let mut coming = self.list(from)?;
        coming.keep_own();
        coming.put_dev(dev);
        let mut list = self.list(to)?;
        list.leave_behind();
        list.append(coming)?;
        self.replace(from, MemOutcome::older(MemLeft::Gone))?;
        self.put(to, list)
    }

    /// A file of this device that was to go to another place stays.
    fn unsettle(&mut self, from: &Place, to: &Place, dev: u64) -> Result<(), NoMemory>
        ensures { OnOk result (outcomes_of self.new ≡ after_no_move_on from.now to.now dev (outcomes_of self.old)) }
    {
        let mut coming = self.list(from)?;
        coming.keep_own();
        coming.put_dev(dev);
        coming.leave_behind();
        let mut list = self.list(to)?;
        list.append(coming)?;
        self.add(from, MemOutcome::older(MemLeft::Gone))?;
        self.put(to, list)
    }

    /// The names in a folder are on the medium.
    fn sync_folder(&mut self, folder: &Place)
        ensures { outcomes_of self.new ≡ (λ q. in_folder (is_in folder.now q) (outcomes_of self.old q)) }
    {
        self.lists
            .retain(|place, list| settle_in(folder, place, list));
    }

    /// One change more.
    fn note(&mut self, change: &Change) -> Result<(), NoMemory>
        ensures { OnOk result (outcomes_of self.new ≡ after change.now (outcomes_of self.old)) }
    {
        match change {
            Change::Created(place) => self.replace(place, MemOutcome::own(MemLeft::AnyFile)),
            Change::Written(place) => self.add(place, MemOutcome::own(MemLeft::AnyFile)),
            Change::Synced(place, node) => self.sync(place, node),
            Change::Moved(from, to, dev) => self.rename(from, to, *dev),
            Change::NotMoved(from, to, dev) => self.unsettle(from, to, *dev),
            Change::Removed(place) => self.replace(place, MemOutcome::older(MemLeft::Gone)),
            Change::FolderSynced(folder) => {
                self.sync_folder(folder);
                Ok(())
            }
            Change::Built(place, node) => self.build(place, node.try_clone(self.alloc)?),
        }
    }

    /// The places that have an outcome other than absent, in their order, each with its outcomes.
    pub fn counted(self) -> Result<Vec<(Place, OutcomeList)>, NoMemory>
        ensures { IfOk result (λ lists. Counts (outcomes_of self) lists.items) }
    {
        let counted = self
            .lists
            .into_iter()
            .filter(|entry| entry.1.has_other())
            .collect(self.alloc)?;
        Ok(counted)
    }
}
