//! The image that a crash leaves of a disk in memory.

ghost use Rattle.std.specs.Prelude.{◌≡◌, ◌≢◌, ◌++◌, [], None, IfOk, OnOk, IsSome};
ghost use Rattle.sd_io.specs.Tree.{NameList, node_at};
ghost use Rattle.mem_io.specs.MemTree.{IsPlaceIn, PutsDevice, dev_at};
ghost use Rattle.sd_io.specs.Outcomes.{content_at};
ghost use Rattle.mem_io.specs.Log.{IsCrash, HasDeviceOf, crash_content};
ghost use Rattle.mem_io.specs.MemOutcome.{left_of};
ghost use Rattle.mem_io.specs.MemTrail.{names_of};
ghost use Rattle.mem_io.specs.Images.{StandsAlone, SameDevicesOutside};
ghost use Rattle.mem_io.specs.LogRoom.{TellsDevice};
ghost use Rattle.mem_io.specs.Medium.{told_tree, outcomes_told};

use crate::medium::Medium;
use crate::outcome::MemLeft;
use crate::outcome_table::OutcomeTable;
use crate::place::Place;
use crate::trail::Trail;
use sd_io::{NoMemory, Text};
use std::alloc::Global;

impl Medium {
    /// Gives the node that names lead to from the end of a trail, and all nodes below it, another device.
    fn put_dev_along(&mut self, trail: &Trail<'_>, names: &[Text], dev: u64)
        ensures put { PutsDevice (told_tree self.old) (names_of trail.now ++ names.now) dev (told_tree self.new) }
        ensures tells { TellsDevice self.old.log (names_of trail.now ++ names.now) dev self.new.log }
    {
        match names.split_first() {
            None => {
                self.tree.put_dev_on(trail, dev);
                self.log.put_dev(trail, dev);
            }
            Some((name, rest)) => {
                let next = Trail::Below(&*trail, name.as_str());
                self.put_dev_along(&next, rest, dev);
            }
        }
    }

    /// A node that is left at a place has its device there.
    fn keep_dev(&mut self, place: &Place, left: &MemLeft)
        requires { IsSome (node_at (told_tree self.old) place.now) }
        ensures device { HasDeviceOf (left_of left.now) (dev_at (told_tree self.new) place.now) }
        ensures outside { SameDevicesOutside place.now (told_tree self.old) (told_tree self.new) }
        ensures contents { (q : NameList) → content_at (told_tree self.new) q ≡ content_at (told_tree self.old) q }
        ensures alone { StandsAlone (outcomes_told self.old) (told_tree self.old) → StandsAlone (outcomes_told self.new) (told_tree self.new) }
    {
        let MemLeft::This(node) = left else {
            return;
        };
        let dev = node.ident().dev;
        if self.tree.dev(place) == dev {
            return;
        }
        self.put_dev_along(&Trail::Top, place.names(), dev);
    }

    /// Puts what is left at a place there, where nothing stands yet. The top stands already.
    fn leave(&mut self, place: &Place, left: &MemLeft) -> Result<(), NoMemory>
        requires is_place { place.now ≢ [] → IsPlaceIn (told_tree self.old) place.now }
        requires free { place.now ≢ [] → node_at (told_tree self.old) place.now ≡ None }
        ensures takes { OnOk result (place.now ≢ [] → content_at (told_tree self.new) place.now ≡ crash_content (left_of left.now)) }
        ensures others { OnOk result ((q : NameList) → q ≢ place.now → content_at (told_tree self.new) q ≡ content_at (told_tree self.old) q) }
        ensures top { OnOk result (content_at (told_tree self.new) [] ≡ content_at (told_tree self.old) []) }
        ensures device { OnOk result (HasDeviceOf (left_of left.now) (dev_at (told_tree self.new) place.now)) }
        ensures outside { OnOk result (SameDevicesOutside place.now (told_tree self.old) (told_tree self.new)) }
        ensures alone { OnOk result (StandsAlone (outcomes_told self.old) (told_tree self.old) → StandsAlone (outcomes_told self.new) (told_tree self.new)) }
    {
        let Some(content) = left.content(self.tree.alloc)? else {
            return Ok(());
        };
        if !place.is_top() {
            self.build(place.try_clone()?, content)?;
        }
        self.keep_dev(place, left);
        Ok(())
    }

    /// The image of a choice, on which each place has one outcome. The places that have an outcome other than absent are
    /// counted from 0 in their order, and each takes one of its outcomes by the bits of the choice, a node with its device.
    pub fn crash(&self, alloc: Global, choice: u64) -> Result<Medium, NoMemory>
        ensures crash { IfOk result (λ image. IsCrash (outcomes_told self.now) choice (told_tree image)) }
        ensures alone { IfOk result (λ image. StandsAlone (outcomes_told image) (told_tree image)) }
    {
        let counted = OutcomeTable::after(alloc, &self.log)?.counted()?;
        let mut image = Medium::new(alloc);
        for (i, entry) in counted.iter().enumerate() {
            image.leave(&entry.0, entry.1.chosen(choice, i))?;
        }
        Ok(image)
    }
}
