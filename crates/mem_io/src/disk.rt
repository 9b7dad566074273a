//! A disk in memory.

ghost use Rattle.std.specs.Prelude.{◌≡◌, ◌≢◌, ◌∷◌, ◌++◌, ◌+◌, ◌↔◌, [], List, ℕ, ◌⊎◌, option_map, IfSome, IfNone, IsSome, IsNone, IfOk, IfErr, OnOk, OnErr, IsErrOf, Some, None};
ghost use Rattle.std.specs.Global.{Vec};
ghost use Rattle.sd_io.specs.Tree.{directory, link, file, other};
ghost use Rattle.sd_io.specs.Paths.{reached_plain, plain_file};
ghost use Rattle.open_lists.specs.OpenLists.{list_at, told_list, SameOpenLists, TakesEntry, EndsList};
ghost use Rattle.mem_io.specs.MemNode.{content_of};
ghost use Rattle.mem_io.specs.MemTree.{HasNoFreePlace, PutsDeviceAt};
ghost use Rattle.sd_io.specs.Disk.{SameTree, SameLists, MayLeave, outcomes_now};
ghost use Rattle.mem_io.specs.Log.{at_first, IsCrash};
ghost use Rattle.mem_io.specs.Images.{StandsAlone};
ghost use Rattle.sd_io.specs.Calls.{earliest};
ghost use Rattle.sd_io.specs.Files.{LeadsNowhere, Describes, Identifies, Resolves, IsNoFile, Reads, Creates, CannotCreate, IsTaken, Writes, MayHaveWritten, Syncs, Renames, CannotRename, MayHaveRenamed, Removes, CannotRemove};
ghost use Rattle.sd_io.specs.Lists.{IsOpen, SameOtherLists, SameOpen, Opens, IsNoDirectory, ListsDirectory, SyncsFolder, Ends, HasNoneLeft, Closes};
ghost use Rattle.mem_io.specs.MemDisk.{mem_state, left_entries, TakesLast, failing_calls, stop_of, calls_of, next_number, IsTopAlone, IsUncalled, IsUnused, Builds, BuildsLike, SetsDevice, KeepsTree, KeepsCounts, IsToFail, FailsToGive, TakesNext, Skips, CountsCall};

use crate::BuildFault;
use crate::calls::CallCounter;
use crate::medium::Medium;
use crate::node::MemContent;
use open_lists::{OpenList, OpenLists};
use sd_io::{Disk, DiskFault, Ident, ListId, Meta, NoMemory, RawEntry, Text};
use std::alloc::Global;

/// A disk in memory, which tells its tree and what a crash may leave of it, and counts its calls from 1. Every call but
/// `close_dir` is counted, and fails where its number is chosen by `fail_at` or comes at that of `stop_at` or after.
/// A directory's order is that of inode numbers.
#[derive(Drop)]
pub struct MemDisk {
    alloc: Global,
    medium: Medium,
    /// Each with what it hasn't given yet, the next one last.
    lists: OpenLists<Vec<RawEntry>>,
    counter: CallCounter,
}

impl MemDisk {
    /// A top directory alone, of device 1. No call fails.
    pub fn new(alloc: Global) -> MemDisk
        ensures tree { IsTopAlone (mem_state result).tree }
        ensures number { next_number result ≡ 2 }
        ensures unused { IsUnused result }
        ensures outcomes { outcomes_now (mem_state result) ≡ at_first }
    {
        MemDisk {
            alloc,
            medium: Medium::new(alloc),
            lists: OpenLists::new(alloc),
            counter: CallCounter::new(alloc),
        }
    }

    /// Adds a node at a path, which holds no `..`, in a directory in which the name is free. No link is followed.
    fn add(&mut self, path: &str, content: MemContent) -> Result<(), BuildFault>
        ensures added { OnOk result (Builds self.old path.now (content_of content) self.new) }
        ensures bad_path { IsErrOf result BuildFault.BadPath → HasNoFreePlace (mem_state self.old).tree path.now }
        ensures refused { OnErr result (KeepsTree self.old self.new) }
        ensures counts { KeepsCounts self.old self.new }
    {
        let place = self.medium.tree.free_place(path)?;
        Ok(self.medium.build(place, content)?)
    }

    /// Adds a directory.
    pub fn add_dir(&mut self, path: &str) -> Result<(), BuildFault>
        ensures added { OnOk result (Builds self.old path.now directory self.new) }
        ensures bad_path { IsErrOf result BuildFault.BadPath → HasNoFreePlace (mem_state self.old).tree path.now }
        ensures refused { OnErr result (KeepsTree self.old self.new) }
        ensures counts { KeepsCounts self.old self.new }
    {
        self.add(path, MemContent::Directory)
    }

    /// Adds a regular file.
    pub fn add_file(&mut self, path: &str, bytes: &[u8], mode: u32) -> Result<(), BuildFault>
        ensures added { OnOk result (Builds self.old path.now (file bytes.now mode) self.new) }
        ensures bad_path { IsErrOf result BuildFault.BadPath → HasNoFreePlace (mem_state self.old).tree path.now }
        ensures refused { OnErr result (KeepsTree self.old self.new) }
        ensures counts { KeepsCounts self.old self.new }
    {
        let bytes = bytes.to_vec(self.alloc)?;
        self.add(path, MemContent::File(bytes, mode))
    }

    /// Adds a symbolic link.
    pub fn add_link(&mut self, path: &str, target: &str) -> Result<(), BuildFault>
        ensures added { OnOk result (Builds self.old path.now (link target.now) self.new) }
        ensures bad_path { IsErrOf result BuildFault.BadPath → HasNoFreePlace (mem_state self.old).tree path.now }
        ensures refused { OnErr result (KeepsTree self.old self.new) }
        ensures counts { KeepsCounts self.old self.new }
    {
        let target = Text::new(self.alloc, target)?;
        self.add(path, MemContent::Link(target))
    }

    /// Adds a node that is no directory, no link and no regular file.
    pub fn add_other(&mut self, path: &str) -> Result<(), BuildFault>
        ensures added { OnOk result (Builds self.old path.now other self.new) }
        ensures bad_path { IsErrOf result BuildFault.BadPath → HasNoFreePlace (mem_state self.old).tree path.now }
        ensures refused { OnErr result (KeepsTree self.old self.new) }
        ensures counts { KeepsCounts self.old self.new }
    {
        self.add(path, MemContent::Other)
    }

    /// Gives the node at a path and all nodes below it another device, and so every node that a crash may leave there or
    /// below. No link is followed. Takes no memory.
    pub fn set_dev(&mut self, path: &str, dev: u64) -> Result<(), BuildFault>
        ensures put { OnOk result (PutsDeviceAt (mem_state self.old).tree path.now dev (mem_state self.new).tree) }
        ensures outcomes { OnOk result (SetsDevice (mem_state self.old) path.now dev (mem_state self.new)) }
        ensures bad_path { IsErrOf result BuildFault.BadPath → reached_plain (mem_state self.old).tree path.now ≡ None }
        ensures only_bad_path { IfErr result (λ fault. fault ≡ BuildFault.BadPath) }
        ensures refused { OnErr result (SameTree (mem_state self.old) (mem_state self.new)) }
        ensures number { next_number self.new ≡ next_number self.old }
        ensures counts { KeepsCounts self.old self.new }
    {
        if self.medium.set_dev(path, dev) {
            Ok(())
        } else {
            Err(BuildFault::BadPath)
        }
    }

    /// That counted call is to fail: it answers `Failed`, and does nothing but to leave to a crash what its refusal may
    /// leave. Where it is `next_entry`, it passes over the next entry, or puts a list without one at its end; on a list
    /// that is at its end already it answers `None`.
    pub fn fail_at(&mut self, call: u64) -> Result<(), NoMemory>
        ensures added { OnOk result (failing_calls self.new ≡ failing_calls self.old ++ call ∷ []) }
        ensures refused { OnErr result (failing_calls self.new ≡ failing_calls self.old) }
        ensures stop { stop_of self.new ≡ stop_of self.old }
        ensures told { mem_state self.new ≡ mem_state self.old }
        ensures calls { calls_of self.new ≡ calls_of self.old }
        ensures number { next_number self.new ≡ next_number self.old }
    {
        self.counter.fail_at(call)
    }

    /// That counted call and all later ones are to fail, as those of `fail_at` are. An earlier stop holds still.
    pub fn stop_at(&mut self, call: u64)
        ensures stop { stop_of self.new ≡ Some (earliest (stop_of self.old) call) }
        ensures failing { failing_calls self.new ≡ failing_calls self.old }
        ensures told { mem_state self.new ≡ mem_state self.old }
        ensures calls { calls_of self.new ≡ calls_of self.old }
        ensures number { next_number self.new ≡ next_number self.old }
    {
        self.counter.stop_at(call);
    }

    /// The bytes of the regular file at a path, or `None` where there is none. No link is followed.
    pub fn read_all(&self, alloc: Global, path: &str) -> Result<Option<Vec<u8>>, NoMemory>
        ensures { IfOk result (λ bytes. option_map (λ (v : Vec ℕ). v.items) bytes ≡ option_map (λ (f : List ℕ × ℕ). f.0) (plain_file (mem_state self.now).tree path.now)) }
    {
        match self.medium.tree.file(path) {
            None => Ok(None),
            Some((bytes, _)) => Ok(Some(bytes.to_vec(alloc)?)),
        }
    }

    /// The mode of the regular file at a path, or `None` where there is none. No link is followed.
    pub fn mode_at(&self, path: &str) -> Option<u32>
        ensures { result ≡ option_map (λ (f : List ℕ × ℕ). f.1) (plain_file (mem_state self.now).tree path.now) }
    {
        match self.medium.tree.file(path) {
            None => None,
            Some((_, mode)) => Some(mode),
        }
    }

    /// The image that a crash leaves now, by a choice: a disk of its own, of which no call was made or is to fail, and on
    /// which each place has one outcome. The places that have an outcome other than absent are counted from 0 in the order
    /// of their names. The one with number i takes its outcome number (choice rotated right by i mod 64 bits) mod their
    /// count, a node with its device; any file becomes the one byte 0 with mode 0. Nothing stands elsewhere.
    pub fn crash(&self, alloc: Global, choice: u64) -> Result<MemDisk, NoMemory>
        ensures crash { IfOk result (λ image. IsCrash (outcomes_now (mem_state self.now)) choice (mem_state image).tree) }
        ensures left { IfOk result (λ image. MayLeave (mem_state self.now) (mem_state image).tree) }
        ensures alone { IfOk result (λ image. StandsAlone (outcomes_now (mem_state image)) (mem_state image).tree) }
        ensures uncalled { IfOk result IsUncalled }
    {
        Ok(MemDisk {
            alloc,
            medium: self.medium.crash(alloc, choice)?,
            lists: OpenLists::new(alloc),
            counter: CallCounter::new(alloc),
        })
    }

    /// How many calls were counted.
    pub fn calls(&self) -> u64
        ensures { result ≡ calls_of self.now }
    {
        self.counter.calls
    }

    /// How many calls failed.
    pub fn faults(&self) -> u64
        ensures { result ≡ (mem_state self.now).faults }
    {
        self.counter.faults
    }

    /// How many lists were open at most.
    pub fn lists_most(&self) -> u64
        ensures { result ≡ (mem_state self.now).open_most }
    {
        self.lists.most
    }
}

/// Takes the last of a list's entries; where there is none, the list is put at its end.
fn take_last(list: &mut OpenList<Vec<RawEntry>>) -> Option<RawEntry>
    ensures given { IfSome result (λ entry. TakesLast (told_list left_entries list.old) entry (told_list left_entries list.new)) }
    ensures none_left { IfNone result ((told_list left_entries list.old).left ≡ []) }
    ensures ended { IfNone result (list.new ≡ OpenList.AtEnd) }
{
    let OpenList::Unfinished(entries) = list else {
        return None;
    };
    let last = entries.pop();
    if last.is_none() {
        *list = OpenList::AtEnd;
    }
    last
}

/// Takes the next entry off an open list and counts it; where there is none, the list is put at its end.
fn take_next(lists: &mut OpenLists<Vec<RawEntry>>, number: u64) -> Option<RawEntry>
    ensures given { IfSome result (λ entry. TakesEntry left_entries lists.old number entry lists.new) }
    ensures none_left { IfNone result (IsSome (list_at lists.old number) → EndsList left_entries lists.old number lists.new) }
    ensures not_open { IsNone (list_at lists.old number) → IsNone result × SameOpenLists lists.old lists.new }
{
    let Some(list) = lists.open.get_mut(&number) else {
        return None;
    };
    let next = take_last(list);
    if next.is_some() {
        lists.count();
    }
    next
}

impl Disk for MemDisk {
    ghost use Rattle.std.specs.Prelude.{true};
    ghost use Rattle.mem_io.specs.MemHolds.{holds};

    ghost tells = { true };

    ghost state = { mem_state };

    ghost is_tree = { λ disk told. disk.medium.tree.sound.is_tree };

    ghost holds_present = { λ disk told. holds disk };

    fn stat(&mut self, path: &str, follow: bool) -> Result<Meta, DiskFault>
        ensures answer { IfOk result (Describes (mem_state self.old) path.now follow) }
        ensures absent { IsErrOf result DiskFault.Absent → LeadsNowhere (mem_state self.old) path.now follow }
        ensures not_taken { result ≢ Err DiskFault.Taken }
        ensures tree { KeepsTree self.old self.new }
        ensures lists { SameLists (mem_state self.old) (mem_state self.new) }
        ensures fails { IsErrOf result DiskFault.Failed ↔ IsToFail self.old }
        ensures counts { CountsCall self.old result self.new }
    {
        self.counter.pass()?;
        let Some(place) = self.medium.tree.reached(path, follow)? else {
            return Err(DiskFault::Absent);
        };
        match self.medium.tree.node(&place) {
            None => Err(DiskFault::Absent),
            Some(node) => Ok(node.meta()),
        }
    }

    fn ident(&mut self, path: &str) -> Result<Ident, DiskFault>
        ensures answer { IfOk result (Identifies (mem_state self.old) path.now) }
        ensures absent { IsErrOf result DiskFault.Absent → LeadsNowhere (mem_state self.old) path.now true }
        ensures not_taken { result ≢ Err DiskFault.Taken }
        ensures tree { KeepsTree self.old self.new }
        ensures lists { SameLists (mem_state self.old) (mem_state self.new) }
        ensures fails { IsErrOf result DiskFault.Failed ↔ IsToFail self.old }
        ensures counts { CountsCall self.old result self.new }
    {
        self.counter.pass()?;
        let Some(place) = self.medium.tree.reached(path, true)? else {
            return Err(DiskFault::Absent);
        };
        match self.medium.tree.node(&place) {
            None => Err(DiskFault::Absent),
            Some(node) => Ok(node.ident()),
        }
    }

    fn resolve(&mut self, _alloc: Global, path: &str) -> Result<Text, DiskFault>
        ensures answer { IfOk result (Resolves (mem_state self.old) path.now) }
        ensures absent { IsErrOf result DiskFault.Absent → LeadsNowhere (mem_state self.old) path.now true }
        ensures not_taken { result ≢ Err DiskFault.Taken }
        ensures tree { KeepsTree self.old self.new }
        ensures lists { SameLists (mem_state self.old) (mem_state self.new) }
        ensures fails { IsErrOf result DiskFault.Failed ↔ IsToFail self.old }
        ensures counts { CountsCall self.old result self.new }
    {
        self.counter.pass()?;
        match self.medium.tree.reached(path, true)? {
            None => Err(DiskFault::Absent),
            Some(place) => Ok(place.path()?),
        }
    }

    fn open_dir(&mut self, path: &str) -> Result<ListId, DiskFault>
        ensures opened { IfOk result (λ list. Opens (mem_state self.old) list.number (mem_state self.new)) }
        ensures entries { IfOk result (λ list. ListsDirectory (mem_state self.old) path.now list.number (mem_state self.new)) }
        ensures absent { IsErrOf result DiskFault.Absent → IsNoDirectory (mem_state self.old) path.now }
        ensures not_taken { result ≢ Err DiskFault.Taken }
        ensures refused { OnErr result (SameLists (mem_state self.old) (mem_state self.new)) }
        ensures tree { KeepsTree self.old self.new }
        ensures fails { IsErrOf result DiskFault.Failed ↔ IsToFail self.old }
        ensures counts { CountsCall self.old result self.new }
    {
        self.counter.pass()?;
        let Some(place) = self.medium.tree.reached(path, true)? else {
            return Err(DiskFault::Absent);
        };
        if !self.medium.tree.is_directory(&place) {
            return Err(DiskFault::Absent);
        }
        let mut entries = self.medium.tree.entries(&place)?;
        entries.reverse();
        Ok(self.lists.open(entries)?)
    }

    fn next_entry(&mut self, _alloc: Global, list: ListId) -> Result<Option<RawEntry>, DiskFault>
        requires { IsOpen (mem_state self.old) list.number }
        ensures next { IfOk result (λ given. IfSome given (λ entry. TakesNext (mem_state self.old) list.number entry (mem_state self.new))) }
        ensures ended { IfOk result (λ given. IfNone given (Ends (mem_state self.old) list.number (mem_state self.new))) }
        ensures none_left { IfOk result (λ given. IfNone given (HasNoneLeft (mem_state self.old) list.number)) }
        ensures skips { IsErrOf result DiskFault.Failed → Skips (mem_state self.old) list.number (mem_state self.new) }
        ensures only_failed { IfErr result (λ fault. fault ≡ DiskFault.Failed) }
        ensures others { SameOtherLists (mem_state self.old) list.number (mem_state self.new) }
        ensures open { SameOpen (mem_state self.old) (mem_state self.new) }
        ensures tree { KeepsTree self.old self.new }
        ensures fails { IsErrOf result DiskFault.Failed ↔ FailsToGive self.old list.number }
        ensures counts { CountsCall self.old result self.new }
    {
        let fails = self.counter.count();
        if self.lists.is_at_end(list.number) {
            return Ok(None);
        }
        if self.lists.is_full() {
            self.lists.end(list.number);
            return Err(self.counter.fault());
        }
        let next = take_next(&mut self.lists, list.number);
        if fails {
            return Err(self.counter.fault());
        }
        Ok(next)
    }

    fn close_dir(&mut self, list: ListId)
        ensures closed { Closes (mem_state self.old) list.number (mem_state self.new) }
        ensures tree { KeepsTree self.old self.new }
        ensures faults { (mem_state self.new).faults ≡ (mem_state self.old).faults }
        ensures calls { calls_of self.new ≡ calls_of self.old }
        ensures failing { failing_calls self.new ≡ failing_calls self.old }
        ensures stop { stop_of self.new ≡ stop_of self.old }
    {
        self.lists.close(list.number);
    }

    fn read_file(&mut self, alloc: Global, path: &str) -> Result<Vec<u8>, DiskFault>
        ensures bytes { IfOk result (λ bytes. Reads (mem_state self.old) path.now bytes.items) }
        ensures absent { IsErrOf result DiskFault.Absent → IsNoFile (mem_state self.old) path.now }
        ensures not_taken { result ≢ Err DiskFault.Taken }
        ensures tree { KeepsTree self.old self.new }
        ensures lists { SameLists (mem_state self.old) (mem_state self.new) }
        ensures fails { IsErrOf result DiskFault.Failed ↔ IsToFail self.old }
        ensures counts { CountsCall self.old result self.new }
    {
        self.counter.pass()?;
        let Some(place) = self.medium.tree.reached(path, true)? else {
            return Err(DiskFault::Absent);
        };
        match self.medium.tree.bytes(&place) {
            None => Err(DiskFault::Absent),
            Some(bytes) => Ok(bytes.to_vec(alloc)?),
        }
    }

    fn create_like(&mut self, path: &str, like: &str) -> Result<(), DiskFault>
        ensures created { OnOk result (Creates (mem_state self.old) path.now like.now (mem_state self.new)) }
        ensures absent { IsErrOf result DiskFault.Absent → CannotCreate (mem_state self.old) path.now like.now }
        ensures taken { IsErrOf result DiskFault.Taken → IsTaken (mem_state self.old) path.now like.now }
        ensures added { OnOk result (BuildsLike self.old path.now like.now self.new) }
        ensures refused { OnErr result (KeepsTree self.old self.new) }
        ensures lists { SameLists (mem_state self.old) (mem_state self.new) }
        ensures fails { IsErrOf result DiskFault.Failed ↔ IsToFail self.old }
        ensures counts { CountsCall self.old result self.new }
    {
        self.counter.pass()?;
        let Some(model) = self.medium.tree.reached(like, true)? else {
            return Err(DiskFault::Absent);
        };
        let Some(mode) = self.medium.tree.mode(&model) else {
            return Err(DiskFault::Absent);
        };
        let Some(place) = self.medium.tree.named(path)? else {
            return Err(DiskFault::Absent);
        };
        if self.medium.tree.node(&place).is_some() {
            return Err(DiskFault::Taken);
        }
        Ok(self.medium.create(place, mode)?)
    }

    fn write_file(&mut self, path: &str, bytes: &[u8]) -> Result<(), DiskFault>
        ensures written { OnOk result (Writes (mem_state self.old) path.now bytes.now (mem_state self.new)) }
        ensures absent { IsErrOf result DiskFault.Absent → IsNoFile (mem_state self.old) path.now }
        ensures not_taken { result ≢ Err DiskFault.Taken }
        ensures failed { IsErrOf result DiskFault.Failed → MayHaveWritten (mem_state self.old) path.now (mem_state self.new) }
        ensures refused { IfErr result (λ fault. fault ≢ DiskFault.Failed → SameTree (mem_state self.old) (mem_state self.new)) }
        ensures tree { OnErr result ((mem_state self.new).tree ≡ (mem_state self.old).tree) }
        ensures number { next_number self.new ≡ next_number self.old }
        ensures lists { SameLists (mem_state self.old) (mem_state self.new) }
        ensures fails { IsErrOf result DiskFault.Failed → IsToFail self.old }
        ensures to_fail { IsToFail self.old → IsErrOf result DiskFault.Failed ⊎ IsErrOf result DiskFault.NoMemory }
        ensures counts { CountsCall self.old result self.new }
    {
        if self.counter.count() {
            self.medium.spoil(path)?;
            return Err(self.counter.fault());
        }
        let Some(place) = self.medium.tree.reached(path, true)? else {
            return Err(DiskFault::Absent);
        };
        if !self.medium.tree.is_file(&place) {
            return Err(DiskFault::Absent);
        }
        let copy = bytes.to_vec(self.alloc)?;
        Ok(self.medium.write(place, copy)?)
    }

    fn sync(&mut self, path: &str) -> Result<(), DiskFault>
        ensures synced { OnOk result (Syncs (mem_state self.old) path.now (mem_state self.new)) }
        ensures absent { IsErrOf result DiskFault.Absent → IsNoFile (mem_state self.old) path.now }
        ensures not_taken { result ≢ Err DiskFault.Taken }
        ensures failed { IsErrOf result DiskFault.Failed → MayHaveWritten (mem_state self.old) path.now (mem_state self.new) }
        ensures refused { IfErr result (λ fault. fault ≢ DiskFault.Failed → SameTree (mem_state self.old) (mem_state self.new)) }
        ensures tree { (mem_state self.new).tree ≡ (mem_state self.old).tree }
        ensures number { next_number self.new ≡ next_number self.old }
        ensures lists { SameLists (mem_state self.old) (mem_state self.new) }
        ensures fails { IsErrOf result DiskFault.Failed → IsToFail self.old }
        ensures to_fail { IsToFail self.old → IsErrOf result DiskFault.Failed ⊎ IsErrOf result DiskFault.NoMemory }
        ensures counts { CountsCall self.old result self.new }
    {
        if self.counter.count() {
            self.medium.spoil(path)?;
            return Err(self.counter.fault());
        }
        match self.medium.tree.reached(path, true)? {
            Some(place) if self.medium.tree.is_file(&place) => Ok(self.medium.sync(place)?),
            _ => Err(DiskFault::Absent),
        }
    }

    fn rename(&mut self, from: &str, to: &str) -> Result<(), DiskFault>
        ensures renamed { OnOk result (Renames (mem_state self.old) from.now to.now (mem_state self.new)) }
        ensures absent { IsErrOf result DiskFault.Absent → CannotRename (mem_state self.old) from.now to.now }
        ensures not_taken { result ≢ Err DiskFault.Taken }
        ensures failed { IsErrOf result DiskFault.Failed → MayHaveRenamed (mem_state self.old) from.now to.now (mem_state self.new) }
        ensures refused { IfErr result (λ fault. fault ≢ DiskFault.Failed → SameTree (mem_state self.old) (mem_state self.new)) }
        ensures tree { OnErr result ((mem_state self.new).tree ≡ (mem_state self.old).tree) }
        ensures number { next_number self.new ≡ next_number self.old }
        ensures lists { SameLists (mem_state self.old) (mem_state self.new) }
        ensures fails { IsErrOf result DiskFault.Failed → IsToFail self.old }
        ensures to_fail { IsToFail self.old → IsErrOf result DiskFault.Failed ⊎ IsErrOf result DiskFault.NoMemory }
        ensures counts { CountsCall self.old result self.new }
    {
        if self.counter.count() {
            self.medium.unsettle(from, to)?;
            return Err(self.counter.fault());
        }
        match self.medium.ends(from, to)? {
            None => Err(DiskFault::Absent),
            Some((source, target)) => Ok(self.medium.rename(source, target)?),
        }
    }

    fn remove(&mut self, path: &str) -> Result<(), DiskFault>
        ensures removed { OnOk result (Removes (mem_state self.old) path.now (mem_state self.new)) }
        ensures absent { IsErrOf result DiskFault.Absent → CannotRemove (mem_state self.old) path.now }
        ensures not_taken { result ≢ Err DiskFault.Taken }
        ensures refused { OnErr result (SameTree (mem_state self.old) (mem_state self.new)) }
        ensures number { next_number self.new ≡ next_number self.old }
        ensures lists { SameLists (mem_state self.old) (mem_state self.new) }
        ensures fails { IsErrOf result DiskFault.Failed ↔ IsToFail self.old }
        ensures counts { CountsCall self.old result self.new }
    {
        self.counter.pass()?;
        match self.medium.tree.named(path)? {
            Some(place) if self.medium.tree.is_file(&place) => Ok(self.medium.remove(place)?),
            _ => Err(DiskFault::Absent),
        }
    }

    fn sync_dir(&mut self, path: &str) -> Result<(), DiskFault>
        ensures synced { OnOk result (SyncsFolder (mem_state self.old) path.now (mem_state self.new)) }
        ensures absent { IsErrOf result DiskFault.Absent → IsNoDirectory (mem_state self.old) path.now }
        ensures not_taken { result ≢ Err DiskFault.Taken }
        ensures refused { OnErr result (SameTree (mem_state self.old) (mem_state self.new)) }
        ensures number { next_number self.new ≡ next_number self.old }
        ensures lists { SameLists (mem_state self.old) (mem_state self.new) }
        ensures fails { IsErrOf result DiskFault.Failed ↔ IsToFail self.old }
        ensures counts { CountsCall self.old result self.new }
    {
        self.counter.pass()?;
        match self.medium.tree.reached(path, true)? {
            Some(place) if self.medium.tree.is_directory(&place) => {
                Ok(self.medium.sync_folder(place)?)
            }
            _ => Err(DiskFault::Absent),
        }
    }
}
