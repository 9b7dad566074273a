//! An entry, found by listing its folder.

ghost use Rattle.std.specs.Prelude.{◌≡◌, ◌<◌, ◌≤◌, ◌++◌, ◌∷◌, [], IsTrue, IfOk, IfErr, IfSome, IsErrOf};
ghost use Rattle.sd_io.specs.Tree.{NameList};
ghost use Rattle.sd_io.specs.Disk.{SameTree};
ghost use Rattle.sd_io.specs.Lists.{IsOpen, IsNoDirectory, SameOtherLists, SameOpen};
ghost use Rattle.sd_course.specs.Course.{course};
ghost use Rattle.file_exchange.specs.Causes.{HasCauseOf};
ghost use Rattle.journal.specs.Finding.{FindsEntry, ListsFolder, LeavesLists, LookFails, kind_at};

use sd_io::{Disk, DiskFault, Kind, ListId};
use std::alloc::Global;

/// The kind of the entry with this name in the directory that a path leads to, by listing it; a link isn't followed. `None` where there is
/// no such entry. No list stays open. Refuses `Absent` where the path leads to no directory, `Failed` with a counted fault, and for want of
/// memory.
pub(crate) fn find_entry<D: Disk>(
    alloc: Global,
    disk: &mut D,
    folder: &str,
    name: &str,
) -> Result<Option<Kind>, DiskFault>
    ensures found { IsTrue D.tells → IfOk result (FindsEntry (D.state disk.old).tree folder.now name.now) }
    ensures listed { IfOk result (λ found. IfSome found (λ _. (D.state disk.old).listed < (D.state disk.new).listed)) }
    ensures fails { IfErr result (LookFails (course D.tells (D.state disk.old) (D.state disk.new)) (IsNoDirectory (D.state disk.old) folder.now)) }
    ensures tree { SameTree (D.state disk.old) (D.state disk.new) }
    ensures lists { LeavesLists (D.state disk.old) (D.state disk.new) }
    ensures never_falls { (D.state disk.old).faults ≤ (D.state disk.new).faults }
{
    let list = disk.open_dir(folder)?;
    let found = find_in(alloc, disk, list, name);
    disk.close_dir(list);
    found
}

/// The kind of the entry with this name in an open list of a directory. `None` where there is no such entry. The list stays open.
fn find_in<D: Disk>(
    alloc: Global,
    disk: &mut D,
    list: ListId,
    name: &str,
) -> Result<Option<Kind>, DiskFault>
    requires { IsOpen (D.state disk.old) list.number }
    ensures found { IsTrue D.tells → (folder : NameList) → ListsFolder (D.state disk.old) list.number folder
        → IfOk result (λ found. found ≡ kind_at (D.state disk.old).tree (folder ++ name.now ∷ [])) }
    ensures listed { IfOk result (λ found. IfSome found (λ _. (D.state disk.old).listed < (D.state disk.new).listed)) }
    ensures not_absent { IsErrOf result DiskFault.Absent → ⊥ }
    ensures is_open { IsOpen (D.state disk.new) list.number }
    ensures others { SameOtherLists (D.state disk.old) list.number (D.state disk.new) }
    ensures open { SameOpen (D.state disk.old) (D.state disk.new) }
    ensures later { (D.state disk.old).listed ≤ (D.state disk.new).listed }
    ensures tree { SameTree (D.state disk.old) (D.state disk.new) }
    ensures cause { HasCauseOf (λ fault. fault) D.tells (D.state disk.old) (D.state disk.new) result }
{
    loop {
        let Some(entry) = disk.next_entry(alloc, list)? else {
            return Ok(None);
        };
        if entry.name.as_str() == name {
            return Ok(Some(entry.kind));
        }
    }
}
