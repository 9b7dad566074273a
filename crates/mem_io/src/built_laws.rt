//! A disk in memory as built has one outcome at each place.

ghost use Rattle.std.specs.Prelude.{◌≡◌, ℕ, List, Option};
ghost use Rattle.sd_io.specs.Tree.{NameList, Content};
ghost use Rattle.sd_io.specs.Outcomes.{Leaves, content_at};
ghost use Rattle.sd_io.specs.Disk.{DiskState, SameTree, outcomes_now};
ghost use Rattle.sd_io.specs.Crashes.{IsSettledAt};
ghost use Rattle.mem_io.specs.Log.{at_first};
ghost use Rattle.mem_io.specs.Images.{IsAsBuilt};
ghost use Rattle.mem_io.specs.MemTree.{PutsDeviceAt};
ghost use Rattle.mem_io.specs.MemDisk.{mem_state, IsTopAlone, Builds, SetsDevice};
ghost use Rattle.mem_io.specs.declared.disk.MemDisk.{MemDisk};

/// A new disk has one outcome at each place. One that has keeps that where a node is built or gets another device, or a
/// call changes nothing. A crash then leaves each place as it stands.
pub fn disks_as_built_have_one_outcome_a_place()
    ensures first { (disk : MemDisk) → IsTopAlone (mem_state disk).tree → outcomes_now (mem_state disk) ≡ at_first → IsAsBuilt (mem_state disk) }
    ensures built { (old new : MemDisk) (path : List ℕ) (content : Content) → Builds old path content new → IsAsBuilt (mem_state old) → IsAsBuilt (mem_state new) }
    ensures device { (old new : DiskState) (path : List ℕ) (dev : ℕ) → PutsDeviceAt old.tree path dev new.tree → SetsDevice old path dev new → IsAsBuilt old → IsAsBuilt new }
    ensures same { (old new : DiskState) → SameTree old new → IsAsBuilt old → IsAsBuilt new }
    ensures on_medium { (state : DiskState) → IsAsBuilt state → (place : NameList) (found : Option Content) → Leaves (outcomes_now state place) found → found ≡ content_at state.tree place }
    ensures settled { (state : DiskState) → IsAsBuilt state → (place : NameList) → IsSettledAt state place }
{}
