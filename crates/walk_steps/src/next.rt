//! The next item of a walk.

ghost use Rattle.std.specs.Prelude.{◌≡◌, ◌≢◌, ◌+◌, ◌^◌, ◌<◌, ◌≤◌, ◌↔◌, true, false, [], Some, None, Err, IsTrue, IfOk, IfSome, IsErr, OnOk, OnSome, IfNone};
ghost use Rattle.walk_rest.specs.declared.error.Error.TheVariants as error;
ghost use Rattle.walk_rest.specs.declared.level.Entries.TheVariants.{Unread};
ghost use Rattle.walk_rest.specs.Plan.{Comparison};
ghost use Rattle.walk_rest.specs.Rest.{Rest};
ghost use Rattle.walk_steps.specs.Causes.{CountsFaults, IsCaused, faults_told};
ghost use Rattle.walk_steps.specs.Inside.{HasRest, IsRead, levels_of, with_top};
ghost use Rattle.walk_steps.specs.Listed.{GivesAtOnce, GivesListed, HasRoom, IsTopSettled};
ghost use Rattle.walk_steps.specs.Listed.{below_one, gives_below, waits_in};
ghost use Rattle.walk_steps.specs.Progress.{HasReadTop, IsTurn, IsTurnPart, KeepsListed, Progresses, kept_in};
ghost use Rattle.walk_steps.specs.Promises.{GivesNext};
ghost use Rattle.walk_steps.specs.Sound.{IsSound, KeepsWalk, depth_below, open_in, open_limit};
ghost use Rattle.walk_steps.specs.Steps.{HasTaken, TurnsTo};
ghost use Rattle.walk_steps.specs.Work.{left_to_do};

use crate::Inside;
use crate::enter::{enter, is_shown};
use crate::leave::{close_level, give_up};
use crate::open::{read_directory, read_root};
use crate::see::{Sight, named, see};
use crate::take::take_entry;
use sd_io::{Disk, DiskFault, NoMemory};
use walk_rest::{DirEntry, Entries, Error, Folder, Level, Order};

/// The next item of a walk, or `None` where nothing is left. `NoMemory` closes every list that the walk holds and ends it.
pub fn next_item<D: Disk, S: Order>(
    disk: &mut D,
    inside: &mut Inside<S>,
) -> Option<Result<DirEntry, Error>>
    requires sound { IsSound (D.state disk.old) (S.sorts inside.old.order) inside.old }
    requires order { S.can_compare inside.old.order }
    ensures gives { GivesNext D.tells (S.sorts inside.old.order) (S.compares_by inside.old.order) (D.state disk.old) inside.old result
        (D.state disk.new) inside.new }
    ensures less { OnSome result (left_to_do (D.state disk.new) inside.new < left_to_do (D.state disk.old) inside.old) }
{
    while let Some(level) = inside.top.take() {
        match turn(disk, inside, level) {
            Ok(None) => {}
            Ok(Some(item)) => return Some(item),
            Err(_) => {
                give_up(disk, inside);
                return Some(Err(Error::NoMemory));
            }
        }
    }
    None
}

/// Gives the next item that the topmost level leads to, or comes nearer to it: reads the level where it lies unread, and goes on to what is due of it,
/// its first entry for one. Refuses for want of memory alone.
fn turn<D: Disk, S: Order>(
    disk: &mut D,
    inside: &mut Inside<S>,
    level: Level,
) -> Result<Option<Result<DirEntry, Error>>, NoMemory>
    requires sound { IsSound (D.state disk.old) (S.sorts inside.old.order) (with_top inside.old level) }
    requires order { S.can_compare inside.old.order }
    requires top { inside.old.top ≡ None }
    ensures turns { IfOk result (λ answer.
        IsTurn D.tells S.sorts S.compares_by (D.state disk.old) (with_top inside.old level) answer (D.state disk.new) inside.new) }
    ensures keeps { KeepsWalk (D.state disk.old) (with_top inside.old level) (D.state disk.new) inside.new }
    ensures listed_once { S.sorts inside.old.order ≡ false → GivesAtOnce inside.old.options
        → HasRoom (open_limit inside.old.options) inside.old.options.max_depth inside.old.stack.items (Some level)
        → (D.state disk.new).listed ≤ (D.state disk.old).listed + 1 }
{
    if is_read(&level.entries) {
        return take_due(disk, inside, level);
    }
    match read_level(disk, inside, level)? {
        Some(failed) => Ok(Some(failed)),
        None => take_top(disk, inside),
    }
}

/// Reads the topmost level, which lies unread: looks at the root, or reads the directory. Gives the error that stands in the root's place. Refuses for
/// want of memory alone.
fn read_level<D: Disk, S: Order>(
    disk: &mut D,
    inside: &mut Inside<S>,
    level: Level,
) -> Result<Option<Result<DirEntry, Error>>, NoMemory>
    requires sound { IsSound (D.state disk.old) (S.sorts inside.old.order) (with_top inside.old level) }
    requires order { S.can_compare inside.old.order }
    requires top { inside.old.top ≡ None }
    requires unread { level.entries ≡ Unread }
    ensures reads { IfOk result (λ answer.
        IsTurnPart D.tells S.sorts S.compares_by (D.state disk.old) (with_top inside.old level) answer (D.state disk.new) inside.new) }
    ensures read { OnOk result (HasReadTop inside.new.top) }
    ensures failed { IfOk result (λ answer. IfSome answer IsErr) }
    ensures kept { OnOk result (KeepsListed (D.state disk.old) (levels_of (with_top inside.old level)) (D.state disk.new) (levels_of inside.new)) }
    ensures keeps { KeepsWalk (D.state disk.old) (with_top inside.old level) (D.state disk.new) inside.new }
    ensures unlisted { S.sorts inside.old.order ≡ false
        → HasRoom (open_limit inside.old.options) inside.old.options.max_depth inside.old.stack.items (Some level)
        → (D.state disk.new).listed ≡ (D.state disk.old).listed }
{
    let Level {
        folder,
        first: _first,
        entries: _entries,
        faults: _faults,
    } = level;
    match folder {
        None => read_root(disk, inside),
        Some(folder) => {
            read_directory(disk, inside, folder)?;
            Ok(None)
        }
    }
}

/// Takes what is due of the topmost level, which was read. Refuses for want of memory alone.
fn take_top<D: Disk, S: Order>(
    disk: &mut D,
    inside: &mut Inside<S>,
) -> Result<Option<Result<DirEntry, Error>>, NoMemory>
    requires sound { IsSound (D.state disk.old) (S.sorts inside.old.order) inside.old }
    requires read { HasReadTop inside.old.top }
    ensures turns { IfOk result (λ answer.
        IsTurn D.tells S.sorts S.compares_by (D.state disk.old) inside.old answer (D.state disk.new) inside.new) }
    ensures keeps { KeepsWalk (D.state disk.old) inside.old (D.state disk.new) inside.new }
    ensures listed_once { (D.state disk.new).listed ≤ (D.state disk.old).listed + 1 }
{
    match inside.top.take() {
        Some(level) => take_due(disk, inside, level),
        None => Ok(None),
    }
}

/// Takes what is due of a level that was read: a failure, or else the item of a directory that was left, or else its next entry. Refuses for want of
/// memory alone.
fn take_due<D: Disk, S: Order>(
    disk: &mut D,
    inside: &mut Inside<S>,
    level: Level,
) -> Result<Option<Result<DirEntry, Error>>, NoMemory>
    requires sound { IsSound (D.state disk.old) (S.sorts inside.old.order) (with_top inside.old level) }
    requires read { IsRead level.entries }
    ensures turns { IfOk result (λ answer.
        IsTurn D.tells S.sorts S.compares_by (D.state disk.old) (with_top inside.old level) answer (D.state disk.new) inside.new) }
    ensures keeps { KeepsWalk (D.state disk.old) (with_top inside.old level) (D.state disk.new) inside.new }
    ensures listed_once { (D.state disk.new).listed ≤ (D.state disk.old).listed + 1 }
{
    let mut level = level;
    if let Some(due) = level.faults.pop() {
        inside.top = Some(level);
        return Ok(Some(Err(Error::Disk {
            path: due.path,
            depth: due.depth,
        })));
    }
    if let Some(entry) = level.first.take() {
        inside.top = Some(level);
        return Ok(Some(Ok(entry)));
    }
    take_next(disk, inside, level)
}

/// Whether a list was opened or read.
fn is_read(entries: &Entries) -> bool
    ensures { IsTrue result ↔ IsRead entries.now }
{
    match entries {
        Entries::Unread => false,
        Entries::Open(_) => true,
        Entries::Kept(_) => true,
    }
}

/// Takes the next entry of a level that was read and of which nothing is due first, or leaves it where there is none. Refuses for want of memory alone.
fn take_next<D: Disk, S: Order>(
    disk: &mut D,
    inside: &mut Inside<S>,
    level: Level,
) -> Result<Option<Result<DirEntry, Error>>, NoMemory>
    requires sound { IsSound (D.state disk.old) (S.sorts inside.old.order) (with_top inside.old level) }
    requires read { IsRead level.entries }
    requires first { level.first ≡ None }
    requires faultless { level.faults.items ≡ [] }
    ensures turns { IsTrue D.tells → (by : Comparison) (rest : Rest)
        → HasRest (D.state disk.old) (S.sorts inside.old.order) by (with_top inside.old level) rest
        → IfOk result (λ answer. TurnsTo (D.state disk.old) (S.sorts inside.old.order) by rest answer (D.state disk.new) inside.new) }
    ensures named { IfOk result (λ answer. answer ≢ Some (Err error.NoMemory)) }
    ensures sound { OnOk result (IsSound (D.state disk.new) (S.sorts inside.new.order) inside.new) }
    ensures keeps { KeepsWalk (D.state disk.old) (with_top inside.old level) (D.state disk.new) inside.new }
    ensures counted { IfOk result (λ answer.
        CountsFaults (faults_told D.tells answer) (D.state disk.old) (levels_of (with_top inside.old level)) (D.state disk.new) (levels_of inside.new)) }
    ensures caused { IfOk result (λ answer. IsCaused D.tells (D.state disk.old) (D.state disk.new) answer inside.new) }
    ensures listed_each { IfOk result (λ answer.
        GivesListed (gives_below answer) (D.state disk.old) (levels_of (with_top inside.old level)) (D.state disk.new) (levels_of inside.new)) }
    ensures settles { GivesAtOnce inside.old.options → IfOk result (λ answer. IfNone answer (IsTopSettled inside.old.options.max_depth inside.new.top)) }
    ensures listed_once { (D.state disk.new).listed ≤ (D.state disk.old).listed + open_in level.entries }
    ensures passes { GivesAtOnce inside.old.options → IfOk result (λ answer. IfNone answer ((D.state disk.new).listed ≡ (D.state disk.old).listed)) }
    ensures progress { IfOk result (λ answer.
        Progresses None (D.state disk.old) (levels_of (with_top inside.old level)) answer (D.state disk.new) (levels_of inside.new)) }
    ensures less { OnOk result (left_to_do (D.state disk.new) inside.new < left_to_do (D.state disk.old) (with_top inside.old level)) }
{
    let mut level = level;
    match take_entry(inside.alloc, disk, &mut level) {
        Ok(None) => {
            close_level(disk, level);
            inside.top = inside.stack.pop();
            Ok(None)
        }
        Ok(Some(entry)) => meet(disk, inside, level, entry),
        Err(DiskFault::Failed) => {
            let depth = depth_in(&level.folder);
            inside.top = Some(level);
            Ok(Some(Err(Error::Disk { path: None, depth })))
        }
        Err(_) => {
            inside.top = Some(level);
            Err(NoMemory)
        }
    }
}

/// The depth of the entries of a folder; the root lies in none.
fn depth_in(folder: &Option<Folder>) -> usize
    requires { depth_below folder.now < 2 ^ 64 }
    ensures { result ≡ depth_below folder.now }
{
    match folder {
        None => 0,
        Some(folder) => folder.depth + 1,
    }
}

/// Meets an entry that was taken from the level that comes on top: enters it, or gives it or the error in its place, or passes over it where it is no
/// item. Refuses for want of memory alone.
fn meet<D: Disk, S: Order>(
    disk: &mut D,
    inside: &mut Inside<S>,
    level: Level,
    entry: DirEntry,
) -> Result<Option<Result<DirEntry, Error>>, NoMemory>
    requires sound { IsSound (D.state disk.old) (S.sorts inside.old.order) (with_top inside.old level) }
    requires read { IsRead level.entries }
    requires first { level.first ≡ None }
    requires faultless { level.faults.items ≡ [] }
    requires depth { entry.depth ≡ depth_below level.folder }
    ensures turns { IsTrue D.tells → (by : Comparison) (rest : Rest)
        → HasTaken (D.state disk.old) (S.sorts inside.old.order) by inside.old level entry rest
        → IfOk result (λ answer. TurnsTo (D.state disk.old) (S.sorts inside.old.order) by rest answer (D.state disk.new) inside.new) }
    ensures named { IfOk result (λ answer. answer ≢ Some (Err error.NoMemory)) }
    ensures sound { OnOk result (IsSound (D.state disk.new) (S.sorts inside.new.order) inside.new) }
    ensures keeps { KeepsWalk (D.state disk.old) (with_top inside.old level) (D.state disk.new) inside.new }
    ensures counted { IfOk result (λ answer.
        CountsFaults (faults_told D.tells answer) (D.state disk.old) (levels_of (with_top inside.old level)) (D.state disk.new) (levels_of inside.new)) }
    ensures caused { IfOk result (λ answer. IsCaused D.tells (D.state disk.old) (D.state disk.new) answer inside.new) }
    ensures listed_each { IfOk result (λ answer.
        gives_below answer + waits_in (levels_of inside.new) ≤ below_one entry + waits_in (levels_of (with_top inside.old level))) }
    ensures hides { GivesAtOnce inside.old.options → IfOk result (λ answer. IfNone answer (inside.old.options.max_depth < entry.depth)) }
    ensures settles { GivesAtOnce inside.old.options → IfOk result (λ answer. IfNone answer (IsTopSettled inside.old.options.max_depth inside.new.top)) }
    ensures listed { (D.state disk.new).listed ≡ (D.state disk.old).listed }
    ensures kept { OnOk result (kept_in (levels_of inside.new) ≡ kept_in (levels_of (with_top inside.old level))) }
    ensures little { OnOk result (left_to_do (D.state disk.new) inside.new ≤ left_to_do (D.state disk.old) (with_top inside.old level) + 4) }
{
    match see(disk, inside, &level, entry) {
        Ok(Sight::Enters(entry, folder)) => match enter(inside, level, entry, folder)? {
            Some(entry) => Ok(Some(Ok(entry))),
            None => Ok(None),
        },
        Ok(Sight::Stays(entry)) => {
            inside.top = Some(level);
            if is_shown(&inside.options, entry.depth) {
                return Ok(Some(Ok(entry)));
            }
            Ok(None)
        }
        Err(error) => {
            inside.top = Some(level);
            Ok(Some(Err(named(error)?)))
        }
    }
}
