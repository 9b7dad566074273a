//! Keeping the rest of an open list, so that it can be closed.

ghost use Rattle.std.specs.Prelude.{◌≡◌, ◌+◌, ◌<◌, ◌≤◌, ℕ, IsTrue, IfSome, IfNone, OnOk, OnErr};
ghost use Rattle.sd_io.specs.Disk.{SameTree};
ghost use Rattle.walk_rest.specs.Level.{AddsFaults, IsOpenEntries};
ghost use Rattle.walk_steps.specs.Causes.{CountsFaults};
ghost use Rattle.walk_steps.specs.Inside.{IsRead};
ghost use Rattle.walk_steps.specs.Listed.{GivesListed, waits_of};
ghost use Rattle.walk_steps.specs.Sound.{AreApart, AreRead, AreShallow, AreSound, IsReadable, SameOtherThan, StaysWithin, open_in, opens};
ghost use Rattle.walk_steps.specs.Lists.{IsOldestOpen, KeepsLevel, KeepsOldest};
ghost use Rattle.walk_steps.specs.Progress.{KeepsListed, kept_of};
ghost use Rattle.walk_steps.specs.Work.{work_in, work_of};

use sd_io::{Disk, NoMemory};
use std::alloc::Global;
use walk_rest::{Entries, Level, read_list};

/// Reads the lowest open list of these levels to its end, keeps its entries and closes it. Each failure of the disk comes to be due.
/// Refuses for want of memory alone; the list may be open then.
pub fn keep_list<D: Disk>(
    alloc: Global,
    disk: &mut D,
    levels: &mut Vec<Level>,
) -> Result<(), NoMemory>
    requires sound { AreSound (D.state disk.old) levels.old.items }
    requires open { 0 < opens levels.old.items }
    ensures kept { IsTrue D.tells → OnOk result (KeepsOldest (D.state disk.old) levels.old.items (D.state disk.new) levels.new.items) }
    ensures sound { AreSound (D.state disk.new) levels.new.items }
    ensures read { AreRead levels.old.items → AreRead levels.new.items }
    ensures fewer { OnOk result (opens levels.new.items + 1 ≡ opens levels.old.items) }
    ensures not_more { opens levels.new.items ≤ opens levels.old.items }
    ensures within { StaysWithin 0 (D.state disk.old) levels.old.items (D.state disk.new) levels.new.items }
    ensures others { (number : ℕ) → AreApart number levels.old.items → (D.state disk.new).open_list number ≡ (D.state disk.old).open_list number }
    ensures apart { (number : ℕ) → AreApart number levels.old.items → AreApart number levels.new.items }
    ensures shallow { (deepest : ℕ) → AreShallow deepest levels.old.items → AreShallow deepest levels.new.items }
    ensures tree { SameTree (D.state disk.old) (D.state disk.new) }
    ensures faults { (D.state disk.old).faults ≤ (D.state disk.new).faults }
    ensures later { (D.state disk.old).listed ≤ (D.state disk.new).listed }
    ensures counted { OnOk result (CountsFaults 0 (D.state disk.old) levels.old.items (D.state disk.new) levels.new.items) }
    ensures listed_each { OnOk result (GivesListed 0 (D.state disk.old) levels.old.items (D.state disk.new) levels.new.items) }
    ensures kept_listed { OnOk result (KeepsListed (D.state disk.old) levels.old.items (D.state disk.new) levels.new.items) }
    ensures work { OnOk result (work_in (D.state disk.new) levels.new.items ≤ work_in (D.state disk.old) levels.old.items) }
{
    if let Some(place) = oldest_open(levels.as_slice()) {
        keep_level(alloc, disk, &mut levels[place])?;
    }
    Ok(())
}

/// The place of the lowest level whose list is open.
fn oldest_open(levels: &[Level]) -> Option<usize>
    ensures found { IfSome result (IsOldestOpen levels.now) }
    ensures none { IfNone result (opens levels.now ≡ 0) }
{
    levels
        .iter()
        .position(|level| matches!(level.entries, Entries::Open(_)))
}

/// Reads the open list of a level to its end, keeps its entries and closes it. Each failure of the disk comes to be due. Refuses for want of memory
/// alone; the list is open then.
fn keep_level<D: Disk>(alloc: Global, disk: &mut D, level: &mut Level) -> Result<(), NoMemory>
    requires readable { IsReadable (D.state disk.old) level.old.folder level.old.entries }
    requires is_open { IsOpenEntries level.old.entries }
    ensures kept { IsTrue D.tells → OnOk result (KeepsLevel (D.state disk.old) level.old (D.state disk.new) level.new) }
    ensures closed { OnOk result (open_in level.new.entries ≡ 0) }
    ensures refused { OnErr result (level.new.entries ≡ level.old.entries) }
    ensures folder { level.new.folder ≡ level.old.folder }
    ensures readable { IsReadable (D.state disk.new) level.new.folder level.new.entries }
    ensures read { IsRead level.new.entries }
    ensures count { (D.state disk.new).open_count + open_in level.old.entries ≡ (D.state disk.old).open_count + open_in level.new.entries }
    ensures most { (D.state disk.new).open_most ≡ (D.state disk.old).open_most }
    ensures others { SameOtherThan (D.state disk.old) level.old.entries (D.state disk.new) }
    ensures tree { SameTree (D.state disk.old) (D.state disk.new) }
    ensures faults { (D.state disk.old).faults ≤ (D.state disk.new).faults }
    ensures later { (D.state disk.old).listed ≤ (D.state disk.new).listed }
    ensures due { OnOk result (AddsFaults (D.state disk.old) level.old.faults.items (D.state disk.new) level.new.faults.items) }
    ensures listed_each { OnOk result (waits_of level.new + (D.state disk.old).listed ≤ waits_of level.old + (D.state disk.new).listed) }
    ensures kept_listed { OnOk result (kept_of level.new.entries level.new.folder + (D.state disk.old).listed ≤ kept_of level.old.entries level.old.folder + (D.state disk.new).listed) }
    ensures work { OnOk result (work_of (D.state disk.new) level.new ≤ work_of (D.state disk.old) level.old) }
{
    let list = match &level.entries {
        Entries::Open(list) => *list,
        _ => return Ok(()),
    };
    let folder = match &level.folder {
        Some(folder) => folder,
        None => return Ok(()),
    };
    let mut kept = read_list(alloc, disk, list, folder, &mut level.faults)?;
    disk.close_dir(list);
    kept.reverse();
    level.entries = Entries::Kept(kept);
    Ok(())
}
