//! Reading what was entered for the first time.

ghost use Rattle.std.specs.Prelude.{◌≡◌, ◌≢◌, ◌⊎◌, ◌+◌, ◌<◌, ◌≤◌, ◌^◌, ℕ, max, vec_len, List, true, false, None, Some, Err, IsTrue, IsSome, IsErr, IfSome, IfOk, OnOk, OnErr};
ghost use Rattle.sd_io.specs.declared.meta.RawEntry as raw;
ghost use Rattle.sd_io.specs.Disk.{SameLists, SameTree};
ghost use Rattle.sd_io.specs.Count.{HasRisen};
ghost use Rattle.sd_io.specs.Lists.{IsOpen, directory_of};
ghost use Rattle.walk_rest.specs.declared.level.Folder as folder;
ghost use Rattle.walk_rest.specs.declared.level.Level as level;
ghost use Rattle.walk_rest.specs.declared.level.Entries.TheVariants.{Unread};
ghost use Rattle.walk_rest.specs.Level.{AddsFaults};
ghost use Rattle.walk_rest.specs.Plan.{Comparison, ListsNames};
ghost use Rattle.walk_rest.specs.Rest.{Rest};
ghost use Rattle.walk_steps.specs.Causes.{CountsFaults, IsCaused, faults_told};
ghost use Rattle.walk_steps.specs.Inside.{HasRest, IsRead, levels_of, with_top};
ghost use Rattle.walk_steps.specs.Listed.{GivesListed, IsToList, gives_below};
ghost use Rattle.walk_steps.specs.Lists.{OpensFolder};
ghost use Rattle.walk_steps.specs.Progress.{HasReadTop, KeepsListed};
ghost use Rattle.walk_steps.specs.Sound.{AreRead, AreShallow, AreSound, IsApart, IsReadable, IsSound, IsSoundBelow, KeepsWalk};
ghost use Rattle.walk_steps.specs.Sound.{SameOtherThan, SameOthers, StaysWithin, open_in, open_limit, opens};
ghost use Rattle.walk_steps.specs.Steps.{ByEachRest, LiesUnread, MovesTo, TurnsTo, WithUnread};
ghost use Rattle.walk_steps.specs.Work.{left_to_do, weight_in, work_in};

use crate::Inside;
use crate::begin::begin;
use crate::keep::keep_list;
use crate::see::named;
use sd_io::{Disk, DiskFault, NoMemory, Text};
use std::alloc::Global;
use walk_rest::{DirEntry, Due, Entries, Error, Folder, Level, Order, read_folder};

/// Looks at the root, which was not looked at yet, and puts its level on top. Gives the error that stands in its place. Refuses for want of memory
/// alone.
pub fn read_root<D: Disk, S: Order>(
    disk: &mut D,
    inside: &mut Inside<S>,
) -> Result<Option<Result<DirEntry, Error>>, NoMemory>
    requires sound { IsSoundBelow (D.state disk.old) (S.sorts inside.old.order) inside.old }
    requires taken { inside.old.top ≡ None }
    ensures turns { IsTrue D.tells → WithUnread inside.old None (λ before. (by : Comparison) (rest : Rest)
        → HasRest (D.state disk.old) (S.sorts inside.old.order) by before rest
        → IfOk result (λ answer. TurnsTo (D.state disk.old) (S.sorts inside.old.order) by rest answer (D.state disk.new) inside.new)) }
    ensures named { IfOk result (λ answer. answer ≢ Some (Err Error.NoMemory)) }
    ensures sound { OnOk result (IsSound (D.state disk.new) (S.sorts inside.new.order) inside.new) }
    ensures keeps { WithUnread inside.old None (λ before. KeepsWalk (D.state disk.old) before (D.state disk.new) inside.new) }
    ensures counted { IfOk result (λ answer.
        CountsFaults (faults_told D.tells answer) (D.state disk.old) inside.old.stack.items (D.state disk.new) (levels_of inside.new)) }
    ensures caused { IfOk result (λ answer. IsCaused D.tells (D.state disk.old) (D.state disk.new) answer inside.new) }
    ensures listed_each { IfOk result (λ answer.
        GivesListed (gives_below answer) (D.state disk.old) inside.old.stack.items (D.state disk.new) (levels_of inside.new)) }
    ensures read { OnOk result (HasReadTop inside.new.top) }
    ensures failed { IfOk result (λ answer. IfSome answer IsErr) }
    ensures kept { WithUnread inside.old None (λ before.
        OnOk result (KeepsListed (D.state disk.old) (levels_of before) (D.state disk.new) (levels_of inside.new))) }
    ensures unlisted { (D.state disk.new).listed ≡ (D.state disk.old).listed }
    ensures less { WithUnread inside.old None (λ before.
        OnOk result (left_to_do (D.state disk.new) inside.new < left_to_do (D.state disk.old) before)) }
{
    let mut kept = Vec::new(inside.alloc);
    let answer = match begin(disk, inside) {
        Ok(entry) => {
            kept.push(entry)?;
            None
        }
        Err(error) => Some(Err(named(error)?)),
    };
    inside.top = Some(Level {
        folder: None,
        first: None,
        entries: Entries::Kept(kept),
        faults: Vec::new(inside.alloc),
    });
    Ok(answer)
}

/// Reads a directory that lies unread: whole where the walk sorts, else its list is opened, where the oldest open list is kept first if as many are open
/// as may be. At `max_depth` nothing is opened. Its level comes on top. Refuses for want of memory alone.
pub fn read_directory<D: Disk, S: Order>(
    disk: &mut D,
    inside: &mut Inside<S>,
    folder: Folder,
) -> Result<(), NoMemory>
    requires sound { IsSoundBelow (D.state disk.old) (S.sorts inside.old.order) inside.old }
    requires taken { inside.old.top ≡ None }
    requires order { S.can_compare inside.old.order }
    ensures moves { WithUnread inside.old (Some folder) (λ before.
        ByEachRest D.tells S.compares_by (D.state disk.old) (S.sorts inside.old.order) before (λ by rest.
        OnOk result (MovesTo (D.state disk.old) (S.sorts inside.old.order) by rest (D.state disk.new) inside.new))) }
    ensures sound { OnOk result (IsSound (D.state disk.new) (S.sorts inside.new.order) inside.new) }
    ensures keeps { WithUnread inside.old (Some folder) (λ before. KeepsWalk (D.state disk.old) before (D.state disk.new) inside.new) }
    ensures counted { WithUnread inside.old (Some folder) (λ before.
        (IsTrue D.tells → folder.depth < inside.old.options.max_depth → IsSome (directory_of (D.state disk.old).tree folder.path))
        → OnOk result (CountsFaults 0 (D.state disk.old) inside.old.stack.items (D.state disk.new) (levels_of inside.new))) }
    ensures listed_each { OnOk result (GivesListed 0 (D.state disk.old) inside.old.stack.items (D.state disk.new) (levels_of inside.new)) }
    ensures read { OnOk result (HasReadTop inside.new.top) }
    ensures kept { WithUnread inside.old (Some folder) (λ before.
        OnOk result (KeepsListed (D.state disk.old) (levels_of before) (D.state disk.new) (levels_of inside.new))) }
    ensures unlisted { S.sorts inside.old.order ≡ false → (inside.old.options.max_depth ≤ folder.depth)
        ⊎ (opens inside.old.stack.items < open_limit inside.old.options)
        → (D.state disk.new).listed ≡ (D.state disk.old).listed }
    ensures listed_whole { IsTrue D.tells → (by : Comparison) (count : ℕ) → S.compares_by inside.old.order by → S.sorts inside.old.order ≡ true
        → IsToList (D.state disk.old).tree inside.old.options.max_depth (Some folder) Unread count
        → ¬ HasRisen (D.state disk.old).faults (D.state disk.new).faults
        → OnOk result ((D.state disk.new).listed ≡ (D.state disk.old).listed + count) }
    ensures less { WithUnread inside.old (Some folder) (λ before.
        OnOk result (left_to_do (D.state disk.new) inside.new < left_to_do (D.state disk.old) before)) }
{
    if inside.options.max_depth <= folder.depth || inside.order.sorts() {
        return read_whole(disk, inside, folder);
    }
    make_room(disk, inside)?;
    open_level(disk, inside, folder)
}

/// Reads a directory whole, in its order, where the walk sorts; at `max_depth` it holds nothing. Its level comes on top. Refuses for want of memory alone.
#[tactic(none)]
fn read_whole<D: Disk, S: Order>(
    disk: &mut D,
    inside: &mut Inside<S>,
    folder: Folder,
) -> Result<(), NoMemory>
    requires sound { IsSoundBelow (D.state disk.old) (S.sorts inside.old.order) inside.old }
    requires taken { inside.old.top ≡ None }
    requires order { S.can_compare inside.old.order }
    requires whole { folder.depth < inside.old.options.max_depth → S.sorts inside.old.order ≡ true }
    ensures moves { WithUnread inside.old (Some folder) (λ before.
        ByEachRest D.tells S.compares_by (D.state disk.old) (S.sorts inside.old.order) before (λ by rest.
        OnOk result (MovesTo (D.state disk.old) (S.sorts inside.old.order) by rest (D.state disk.new) inside.new))) }
    ensures sound { OnOk result (IsSound (D.state disk.new) (S.sorts inside.new.order) inside.new) }
    ensures keeps { WithUnread inside.old (Some folder) (λ before. KeepsWalk (D.state disk.old) before (D.state disk.new) inside.new) }
    ensures counted { (IsTrue D.tells → folder.depth < inside.old.options.max_depth → IsSome (directory_of (D.state disk.old).tree folder.path))
        → OnOk result (CountsFaults 0 (D.state disk.old) inside.old.stack.items (D.state disk.new) (levels_of inside.new)) }
    ensures listed_each { OnOk result (GivesListed 0 (D.state disk.old) inside.old.stack.items (D.state disk.new) (levels_of inside.new)) }
    ensures read { OnOk result (HasReadTop inside.new.top) }
    ensures kept { WithUnread inside.old (Some folder) (λ before.
        OnOk result (KeepsListed (D.state disk.old) (levels_of before) (D.state disk.new) (levels_of inside.new))) }
    ensures unlisted { inside.old.options.max_depth ≤ folder.depth → (D.state disk.new).listed ≡ (D.state disk.old).listed }
    ensures listed_whole { IsTrue D.tells → (by : Comparison) (count : ℕ) → S.compares_by inside.old.order by
        → IsToList (D.state disk.old).tree inside.old.options.max_depth (Some folder) Unread count
        → ¬ HasRisen (D.state disk.old).faults (D.state disk.new).faults
        → OnOk result ((D.state disk.new).listed ≡ (D.state disk.old).listed + count) }
    ensures less { WithUnread inside.old (Some folder) (λ before.
        OnOk result (left_to_do (D.state disk.new) inside.new < left_to_do (D.state disk.old) before)) }
{
    let mut faults = Vec::new(inside.alloc);
    let entries = read_folder(
        inside.alloc,
        disk,
        &inside.options,
        &inside.order,
        &folder,
        &mut faults,
    )?;
    inside.top = Some(Level {
        folder: Some(folder),
        first: None,
        entries: Entries::Kept(entries),
        faults,
    });
    Ok(())
}

/// Opens the list of a directory of a walk that doesn't sort, where one more may be open. Its level comes on top. Refuses for want of memory alone.
#[tactic(none)]
fn open_level<D: Disk, S: Order>(
    disk: &mut D,
    inside: &mut Inside<S>,
    folder: Folder,
) -> Result<(), NoMemory>
    requires sound { IsSoundBelow (D.state disk.old) (S.sorts inside.old.order) inside.old }
    requires taken { inside.old.top ≡ None }
    requires unsorted { S.sorts inside.old.order ≡ false }
    requires shallow { folder.depth < inside.old.options.max_depth }
    requires countable { folder.depth + 1 < 2 ^ 64 }
    requires room { opens inside.old.stack.items < open_limit inside.old.options }
    ensures moves { WithUnread inside.old (Some folder) (λ before.
        ByEachRest D.tells S.compares_by (D.state disk.old) (S.sorts inside.old.order) before (λ by rest.
        OnOk result (MovesTo (D.state disk.old) (S.sorts inside.old.order) by rest (D.state disk.new) inside.new))) }
    ensures sound { OnOk result (IsSound (D.state disk.new) (S.sorts inside.new.order) inside.new) }
    ensures keeps { WithUnread inside.old (Some folder) (λ before. KeepsWalk (D.state disk.old) before (D.state disk.new) inside.new) }
    ensures counted { (IsTrue D.tells → IsSome (directory_of (D.state disk.old).tree folder.path))
        → OnOk result (CountsFaults 0 (D.state disk.old) inside.old.stack.items (D.state disk.new) (levels_of inside.new)) }
    ensures listed_each { OnOk result (GivesListed 0 (D.state disk.old) inside.old.stack.items (D.state disk.new) (levels_of inside.new)) }
    ensures read { OnOk result (HasReadTop inside.new.top) }
    ensures kept { WithUnread inside.old (Some folder) (λ before.
        OnOk result (KeepsListed (D.state disk.old) (levels_of before) (D.state disk.new) (levels_of inside.new))) }
    ensures unlisted { (D.state disk.new).listed ≡ (D.state disk.old).listed }
    ensures less { WithUnread inside.old (Some folder) (λ before.
        OnOk result (left_to_do (D.state disk.new) inside.new < left_to_do (D.state disk.old) before)) }
{
    let mut faults = Vec::new(inside.alloc);
    let entries = open_list(inside.alloc, disk, &folder, &mut faults)?;
    inside.top = Some(Level {
        folder: Some(folder),
        first: None,
        entries,
        faults,
    });
    Ok(())
}

/// Keeps the oldest open list of a walk that doesn't sort, where as many are open as may be. Refuses for want of memory alone.
fn make_room<D: Disk, S: Order>(disk: &mut D, inside: &mut Inside<S>) -> Result<(), NoMemory>
    requires sound { IsSoundBelow (D.state disk.old) (S.sorts inside.old.order) inside.old }
    requires unsorted { S.sorts inside.old.order ≡ false }
    ensures moves { IsTrue D.tells → (by : Comparison) (lying : level.Level) (folder : folder.Folder) (rest : Rest) → LiesUnread lying (Some folder)
        → HasRest (D.state disk.old) (S.sorts inside.old.order) by (with_top inside.old lying) rest
        → OnOk result (MovesTo (D.state disk.old) (S.sorts inside.old.order) by rest (D.state disk.new) (with_top inside.new lying)) }
    ensures room { OnOk result (opens inside.new.stack.items < open_limit inside.old.options) }
    ensures not_more { opens inside.new.stack.items ≤ opens inside.old.stack.items }
    ensures lists { AreSound (D.state disk.new) inside.new.stack.items }
    ensures read { AreRead inside.new.stack.items }
    ensures within { StaysWithin 0 (D.state disk.old) inside.old.stack.items (D.state disk.new) inside.new.stack.items }
    ensures others { SameOthers (D.state disk.old) inside.old.stack.items (D.state disk.new) inside.new.stack.items }
    ensures shallow { (deepest : ℕ) → AreShallow deepest inside.old.stack.items → AreShallow deepest inside.new.stack.items }
    ensures same { inside.new ≡ record inside.old { stack = inside.new.stack } }
    ensures tree { SameTree (D.state disk.old) (D.state disk.new) }
    ensures faults { (D.state disk.old).faults ≤ (D.state disk.new).faults }
    ensures later { (D.state disk.old).listed ≤ (D.state disk.new).listed }
    ensures counted { OnOk result (CountsFaults 0 (D.state disk.old) inside.old.stack.items (D.state disk.new) inside.new.stack.items) }
    ensures listed_each { OnOk result (GivesListed 0 (D.state disk.old) inside.old.stack.items (D.state disk.new) inside.new.stack.items) }
    ensures kept { OnOk result (KeepsListed (D.state disk.old) inside.old.stack.items (D.state disk.new) inside.new.stack.items) }
    ensures roomy { opens inside.old.stack.items < open_limit inside.old.options → (D.state disk.new).listed ≡ (D.state disk.old).listed }
    ensures work { OnOk result (work_in (D.state disk.new) inside.new.stack.items ≤ work_in (D.state disk.old) inside.old.stack.items) }
{
    if count_open(inside.stack.as_slice()) < inside.options.max_open.max(1) {
        return Ok(());
    }
    keep_list(inside.alloc, disk, &mut inside.stack)
}

/// How many lists these levels hold open.
fn count_open(levels: &[Level]) -> usize
    ensures { result ≡ opens levels.now }
{
    levels
        .iter()
        .filter(|level| matches!(level.entries, Entries::Open(_)))
        .count()
}

/// Opens the list of a directory. A failure of the disk comes to be due, and no entries then. Refuses for want of memory alone, and opens nothing then.
fn open_list<D: Disk>(
    alloc: Global,
    disk: &mut D,
    folder: &Folder,
    faults: &mut Vec<Due>,
) -> Result<Entries, NoMemory>
    requires shallow { folder.now.depth + 1 < 2 ^ 64 }
    ensures opened { IsTrue D.tells → (listed : List raw.RawEntry) → ListsNames (D.state disk.old).tree folder.now.path listed
        → IfOk result (λ entries. OpensFolder (D.state disk.old) folder.now faults.old.items listed (D.state disk.new) faults.new.items entries) }
    ensures read { IfOk result IsRead }
    ensures readable { IfOk result (IsReadable (D.state disk.new) (Some folder.now)) }
    ensures apart { (number : ℕ) → IsOpen (D.state disk.old) number → IfOk result (IsApart number) }
    ensures others { IfOk result (λ entries. SameOtherThan (D.state disk.old) entries (D.state disk.new)) }
    ensures refused { OnErr result (SameLists (D.state disk.old) (D.state disk.new)) }
    ensures count { IfOk result (λ entries. (D.state disk.new).open_count ≡ (D.state disk.old).open_count + open_in entries) }
    ensures most { (D.state disk.new).open_most ≤ max (D.state disk.old).open_most ((D.state disk.old).open_count + 1) }
    ensures listed { (D.state disk.new).listed ≡ (D.state disk.old).listed }
    ensures tree { SameTree (D.state disk.old) (D.state disk.new) }
    ensures faults { (D.state disk.old).faults ≤ (D.state disk.new).faults }
    ensures counted { (IsTrue D.tells → IsSome (directory_of (D.state disk.old).tree folder.now.path))
        → OnOk result (AddsFaults (D.state disk.old) faults.old.items (D.state disk.new) faults.new.items) }
    ensures light { IfOk result (λ entries. weight_in (D.state disk.new) entries + vec_len faults.new ≤ vec_len faults.old + 2) }
{
    match disk.open_dir(folder.path.as_str()) {
        Ok(list) => Ok(Entries::Open(list)),
        Err(fault) => {
            if fault == DiskFault::NoMemory {
                return Err(NoMemory);
            }
            faults.push(Due {
                path: Some(Text::new(alloc, folder.path.as_str())?),
                depth: folder.depth,
            })?;
            Ok(Entries::Kept(Vec::new(alloc)))
        }
    }
}
