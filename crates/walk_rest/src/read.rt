//! Reading the list of a directory whole.

ghost use Rattle.std.specs.Prelude.{◌≡◌, ◌+◌, ◌-◌, ◌<◌, ◌≤◌, ◌^◌, ℕ, List, vec_len, All, IsPermutation, IsTrue, IsSome, IfOk, OnOk, reverse, map, length, if◌then◌else◌};
ghost use Rattle.std.specs.String.{string_bytes};
ghost use Rattle.sd_io.specs.Disk.{SameLists, SameTree};
ghost use Rattle.sd_io.specs.Lists.{IsOpen, SameOtherLists, SameOpen, directory_of};
ghost use Rattle.walk_rest.specs.declared.entry.DirEntry as entry;
ghost use Rattle.walk_rest.specs.Plan.{Comparison, sorted, path_below, entry_below, IsContents};
ghost use Rattle.walk_rest.specs.Level.{AddsFaults, TakesEntries, TakesWithFaults, LeavesLists, ReadsFolder, unended};
ghost use Rattle.walk_rest.specs.Read.{ReadsList, manner_by};

use crate::{DirEntry, Due, Folder, Options, Order};
use sd_io::{Disk, DiskFault, ListId, NoMemory, RawEntry, Text};
use std::alloc::Global;

/// The entries of a directory that was entered, in their order, the next one last; none at `max_depth`, where its list isn't
/// opened. Otherwise its list is opened, read to its end and closed, also where want of memory ends it. Each failure of
/// the disk comes to be due. Refuses for want of memory alone.
pub fn read_folder<D: Disk, S: Order>(
    alloc: Global,
    disk: &mut D,
    options: &Options,
    order: &S,
    folder: &Folder,
    faults: &mut Vec<Due>,
) -> Result<Vec<DirEntry>, NoMemory>
    requires { S.can_compare order.now }
    ensures read { IsTrue D.tells → (by : Comparison) (device : ℕ) (inner : List entry.DirEntry) → S.compares_by order.now by
        → IsContents (D.state disk.old).tree (manner_by options.now (S.sorts order.now) by device) folder.now inner
        → IfOk result (λ entries. ReadsFolder (D.state disk.old) folder.now faults.old.items inner (D.state disk.new) faults.new.items (reverse entries.items)) }
    ensures taken { IfOk result (λ entries. TakesEntries (vec_len entries) (D.state disk.old) (D.state disk.new)) }
    ensures passed { IfOk result (λ entries. TakesWithFaults (vec_len entries) 1 (D.state disk.old) faults.old.items (D.state disk.new) faults.new.items) }
    ensures depth { IfOk result (λ entries. All (λ entry. entry.depth ≡ folder.now.depth + 1) entries.items) }
    ensures due { (IsTrue D.tells → folder.now.depth < options.now.max_depth → IsSome (directory_of (D.state disk.old).tree folder.now.path))
        → OnOk result (AddsFaults (D.state disk.old) faults.old.items (D.state disk.new) faults.new.items) }
    ensures unopened { options.now.max_depth ≤ folder.now.depth → SameLists (D.state disk.old) (D.state disk.new) }
    ensures lists { LeavesLists (D.state disk.old) (D.state disk.new) }
    ensures tree { SameTree (D.state disk.old) (D.state disk.new) }
    ensures faults { (D.state disk.old).faults ≤ (D.state disk.new).faults }
    ensures later { (D.state disk.old).listed ≤ (D.state disk.new).listed }
{
    if options.max_depth <= folder.depth {
        return Ok(Vec::new(alloc));
    }
    match disk.open_dir(folder.path.as_str()) {
        Ok(list) => {
            let read = read_list(alloc, disk, list, folder, faults);
            disk.close_dir(list);
            let mut entries = read?;
            put_in_order(order, &mut entries)?;
            Ok(entries)
        }
        Err(fault) => {
            if fault == DiskFault::NoMemory {
                return Err(NoMemory);
            }
            let path = Text::new(alloc, folder.path.as_str())?;
            faults.push(Due {
                path: Some(path),
                depth: folder.depth,
            })?;
            Ok(Vec::new(alloc))
        }
    }
}

/// The entries that an open list of a directory has left, in the disk's order. It is read to its end, and stays open. Each failure of the
/// disk comes to be due. Refuses for want of memory alone.
pub fn read_list<D: Disk>(
    alloc: Global,
    disk: &mut D,
    list: ListId,
    folder: &Folder,
    faults: &mut Vec<Due>,
) -> Result<Vec<DirEntry>, NoMemory>
    requires open { IsOpen (D.state disk.old) list.number }
    requires shallow { folder.now.depth + 1 < 2 ^ 64 }
    ensures read { IsTrue D.tells
        → IfOk result (λ entries. ReadsList (D.state disk.old) list.number folder.now faults.old.items (D.state disk.new) faults.new.items entries.items) }
    ensures taken { IfOk result (λ entries. TakesEntries (vec_len entries) (D.state disk.old) (D.state disk.new)) }
    ensures passed { IfOk result (λ entries. TakesWithFaults (vec_len entries) (unended ((D.state disk.old).open_list list.number)) (D.state disk.old) faults.old.items (D.state disk.new) faults.new.items) }
    ensures depth { IfOk result (λ entries. All (λ entry. entry.depth ≡ folder.now.depth + 1) entries.items) }
    ensures due { OnOk result (AddsFaults (D.state disk.old) faults.old.items (D.state disk.new) faults.new.items) }
    ensures is_open { IsOpen (D.state disk.new) list.number }
    ensures others { SameOtherLists (D.state disk.old) list.number (D.state disk.new) }
    ensures open { SameOpen (D.state disk.old) (D.state disk.new) }
    ensures tree { SameTree (D.state disk.old) (D.state disk.new) }
    ensures faults { (D.state disk.old).faults ≤ (D.state disk.new).faults }
    ensures later { (D.state disk.old).listed ≤ (D.state disk.new).listed }
{
    let mut entries = Vec::new(alloc);
    loop {
        match disk.next_entry(alloc, list) {
            Ok(None) => return Ok(entries),
            Ok(Some(raw)) => entries.push(entry_of(alloc, folder, raw)?)?,
            Err(DiskFault::Failed) => faults.push(Due {
                path: None,
                depth: folder.depth + 1,
            })?,
            Err(_) => return Err(NoMemory),
        }
    }
}

/// The entry of which the list of a directory tells. Refuses for want of memory alone.
pub fn entry_of(alloc: Global, folder: &Folder, raw: RawEntry) -> Result<DirEntry, NoMemory>
    requires { folder.now.depth + 1 < 2 ^ 64 }
    ensures { IfOk result (λ entry. entry ≡ entry_below folder.now raw) }
{
    let path = join(alloc, folder.path.as_str(), raw.name.as_str())?;
    Ok(DirEntry {
        path,
        kind: raw.kind,
        depth: folder.depth + 1,
        ino: raw.ino,
        followed: false,
    })
}

/// The folder's path, `/` unless that ends with it, and the name.
fn join(alloc: Global, folder: &str, name: &str) -> Result<Text, NoMemory>
    ensures { IfOk result (λ path. path ≡ path_below folder.now name.now) }
{
    let mut path = with_room(alloc, folder, name.len() + 1)?;
    if !folder.ends_with('/') {
        path.push('/')?;
    }
    path.push_str(name)?;
    Ok(Text::from(path))
}

/// A copy of a text, with room for so many bytes more.
fn with_room(alloc: Global, text: &str, room: usize) -> Result<String, NoMemory>
    requires { length text.now + room < 2 ^ 64 }
    ensures { IfOk result (λ copy. string_bytes copy ≡ text.now) }
{
    let mut copy = String::with_capacity(alloc, text.len() + room)?;
    copy.push_str(text)?;
    Ok(copy)
}

/// Puts entries in their order, the last one first.
fn put_in_order<S: Order>(order: &S, entries: &mut Vec<DirEntry>) -> Result<(), NoMemory>
    requires { S.can_compare order.now }
    ensures in_order { (by : Comparison) → S.compares_by order.now by
        → OnOk result (reverse entries.new.items ≡ (if S.sorts order.now then sorted by entries.old.items else entries.old.items)) }
    ensures same { OnOk result (IsPermutation entries.old.items entries.new.items) }
    ensures length { OnOk result (vec_len entries.new ≡ vec_len entries.old) }
{
    if order.sorts() {
        entries.sort_by(|a, b| order.compare(a, b))?;
    }
    entries.reverse();
    Ok(())
}
