//! Taking one entry of a directory.

ghost use Rattle.std.specs.Prelude.{◌≡◌, ◌≢◌, ◌∷◌, ◌+◌, ◌^◌, ◌<◌, ◌≤◌, IsTrue, IfOk, IfSome, IfNone, OnOk, IsErrOf, []};
ghost use Rattle.sd_io.specs.Count.{HasRisen};
ghost use Rattle.sd_io.specs.Disk.{SameTree};
ghost use Rattle.sd_io.specs.Lists.{SameOpen};
ghost use Rattle.walk_rest.specs.Sorting.{IsSublist};
ghost use Rattle.walk_rest.specs.Level.{IsOpenEntries};
ghost use Rattle.walk_steps.specs.Inside.{IsRead, entries_due};
ghost use Rattle.walk_steps.specs.Sound.{IsReadable, SameOtherThan, depth_below, open_in};
ghost use Rattle.walk_steps.specs.Listed.{below_one, waits_of};
ghost use Rattle.walk_steps.specs.Lists.{SameLevel};
ghost use Rattle.walk_steps.specs.Progress.{kept_of};
ghost use Rattle.walk_steps.specs.Work.{work_of};

use sd_io::{Disk, DiskFault};
use std::alloc::Global;
use walk_rest::{DirEntry, Entries, Level, entry_of};

/// The next entry of a level whose list was opened or read, or `None` where no more come. `Failed` takes off the next
/// entry, or all that were left. Refuses `Failed` with a counted fault, and for want of memory.
pub fn take_entry<D: Disk>(
    alloc: Global,
    disk: &mut D,
    level: &mut Level,
) -> Result<Option<DirEntry>, DiskFault>
    requires readable { IsReadable (D.state disk.old) level.old.folder level.old.entries }
    requires read { IsRead level.old.entries }
    ensures taken { IsTrue D.tells → IfOk result (λ given. IfSome given (λ entry.
        entries_due (D.state disk.old) level.old ≡ entry ∷ entries_due (D.state disk.new) level.new)) }
    ensures ended { IsTrue D.tells → IfOk result (λ given. IfNone given (entries_due (D.state disk.old) level.old ≡ [])) }
    ensures failed { IsTrue D.tells → IsErrOf result DiskFault.Failed
        → IsSublist (entries_due (D.state disk.new) level.new) (entries_due (D.state disk.old) level.old) }
    ensures not_absent { result ≢ Err DiskFault.Absent }
    ensures not_taken { result ≢ Err DiskFault.Taken }
    ensures depth { IfOk result (λ given. IfSome given (λ entry. entry.depth ≡ depth_below level.old.folder)) }
    ensures failing { IsErrOf result DiskFault.Failed → IsOpenEntries level.old.entries }
    ensures deep { IsErrOf result DiskFault.Failed → depth_below level.old.folder < 2 ^ 64 }
    ensures same { SameLevel level.old level.new }
    ensures readable { IsReadable (D.state disk.new) level.new.folder level.new.entries }
    ensures others { SameOtherThan (D.state disk.old) level.old.entries (D.state disk.new) }
    ensures open { SameOpen (D.state disk.old) (D.state disk.new) }
    ensures tree { SameTree (D.state disk.old) (D.state disk.new) }
    ensures faults { (D.state disk.old).faults ≤ (D.state disk.new).faults }
    ensures cause { IsErrOf result DiskFault.Failed → HasRisen (D.state disk.old).faults (D.state disk.new).faults }
    ensures later { (D.state disk.old).listed ≤ (D.state disk.new).listed }
    ensures at_most_one { (D.state disk.new).listed ≤ (D.state disk.old).listed + open_in level.old.entries }
    ensures listed_each { IfOk result (λ given. IfSome given (λ entry.
        below_one entry + waits_of level.new + (D.state disk.old).listed ≤ waits_of level.old + (D.state disk.new).listed)) }
    ensures waits { waits_of level.new + (D.state disk.old).listed ≤ waits_of level.old + (D.state disk.new).listed }
    ensures takes { IfOk result (λ given. IfSome given (λ entry.
        1 + kept_of level.new.entries level.new.folder + (D.state disk.old).listed ≤ kept_of level.old.entries level.old.folder + (D.state disk.new).listed)) }
    ensures none_listed { IfOk result (λ given. IfNone given ((D.state disk.new).listed ≡ (D.state disk.old).listed)) }
    ensures worked { IfOk result (λ given. IfSome given (λ entry. work_of (D.state disk.new) level.new + 5 ≤ work_of (D.state disk.old) level.old)) }
    ensures not_more { OnOk result (work_of (D.state disk.new) level.new ≤ work_of (D.state disk.old) level.old) }
    ensures wasted { IsErrOf result DiskFault.Failed → work_of (D.state disk.new) level.new < work_of (D.state disk.old) level.old }
{
    match &mut level.entries {
        Entries::Unread => Ok(None),
        Entries::Kept(kept) => Ok(kept.pop()),
        Entries::Open(list) => match &level.folder {
            None => Ok(None),
            Some(folder) => match disk.next_entry(alloc, *list)? {
                None => Ok(None),
                Some(raw) => Ok(Some(entry_of(alloc, folder, raw)?)),
            },
        },
    }
}
