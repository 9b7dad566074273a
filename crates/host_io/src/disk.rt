//! The host's disk.

ghost use Rattle.std.specs.Prelude.{◌≡◌, ◌≢◌, ◌↔◌, ◌⊎◌, ℕ, [], None, Err, IsTrue, IsSomeAnd, IfOk, IfSome, IfNone, OnErr, IsErrOf};
ghost use Rattle.sd_io.specs.Disk.{SameTree, SameLists};
ghost use Rattle.sd_io.specs.Lists.{IsOpen, IsUnfinished, SameOtherLists, SameOpen, Opens, Ends, Gives, PassesOver, IsFull};
ghost use Rattle.host_io.specs.HostDisk.{IsCounted};
ghost use Rattle.host_io.specs.HostDiskState.{host_state};
ghost use Rattle.host_io.specs.HostKnown.{AsksTheHost, HasNothingTold, KnowsNothingAt};
ghost use Rattle.open_lists.specs.OpenLists.{told_list, KeepsTold};

use crate::faults::FaultCounter;
use crate::folders::{Folders, Place, ident_of, same_node, status_of};
use crate::list::{HostList, ListFault, meta_of};
use crate::new_file::{NewFile, create};
use host_known::FileStatus;
use open_lists::{OpenList, OpenLists};
use sd_io::{Disk, DiskFault, Ident, ListId, Meta, RawEntry, Text};
use std::alloc::Global;
use std::fs::{Metadata, OpenFile, OpenOptions};
use std::io::{ErrorKind, Read, Write};
use std::os::fd::AsRawFd;
use std::rt::Files;
use std::{fs, io};

/// The host's disk. It tells its counts and its open lists, and nothing of its tree.
#[derive(Drop)]
pub struct HostDisk<R: Files + AllocGlobal + Drop> {
    rt: R,
    lists: OpenLists<Box<HostList<R>>>,
    folders: Folders<R>,
    /// The file that was created last, until a file is renamed or removed.
    new_file: Option<NewFile<R::File>>,
    counter: FaultCounter,
}

impl<R: Files + AllocGlobal + Drop> HostDisk<R>
where
    R::File: AsRawFd,
{
    /// No call was made: there is no fault, nothing is listed, and no list is open.
    pub fn new(rt: R) -> HostDisk<R>
        ensures faults { (host_state result).faults ≡ 0 }
        ensures listed { (host_state result).listed ≡ 0 }
        ensures none_open { (number : ℕ) → (host_state result).open_list number ≡ None }
        ensures open_count { (host_state result).open_count ≡ 0 }
        ensures open_most { (host_state result).open_most ≡ 0 }
    {
        let lists = OpenLists::new(rt.alloc());
        let folders = Folders::new(rt.alloc());
        HostDisk {
            rt,
            lists,
            folders,
            new_file: None,
            counter: FaultCounter::new(),
        }
    }
}

/// What the host tells of a path. A link in the place of its last name is followed where `follow` says so.
fn metadata<R: Files>(rt: &R, path: &str, follow: bool) -> io::Result<Metadata> {
    if follow {
        fs::metadata(rt, path)
    } else {
        fs::symlink_metadata(rt, path)
    }
}

/// What the host tells of a path, a link in the place of its last name not followed.
fn unfollowed<R: Files>(rt: &R, path: &str) -> io::Result<FileStatus> {
    Ok(status_of(&fs::symlink_metadata(rt, path)?))
}

/// Whether something else than a regular file stands at a path, a link in the place of its last name not followed.
fn is_no_file<R: Files>(rt: &R, path: &str) -> bool {
    match fs::symlink_metadata(rt, path) {
        Ok(metadata) => !metadata.is_file(),
        Err(_) => false,
    }
}

/// The bytes of the file at a path, of which this was told. There is room for them at once, and for the read that finds its end.
fn read<R: Files + AllocGlobal + Drop>(
    rt: &R,
    alloc: Global,
    folders: &mut Folders<R>,
    path: &str,
    told: FileStatus,
) -> io::Result<Vec<u8>>
where
    R::File: AsRawFd,
{
    let place = folders.place(rt, path)?;
    let mut file = fs::open(rt, place.path.as_str())?;
    let metadata = same_node(&file, told.ident)?;
    folders.tell_file(rt.alloc(), path, &place, &metadata)?;
    let room = (metadata.len() as usize).saturating_add(1);
    let mut bytes = Vec::with_capacity(alloc, room)?;
    file.read_to_end(&mut bytes)?;
    Ok(bytes)
}

/// Writes the file at a place, of which this was told, anew.
fn write<R: Files>(rt: &R, place: &Place, told: FileStatus, bytes: &[u8]) -> io::Result<()> {
    let mut file = OpenOptions::new()
        .write(true)
        .open(rt, place.path.as_str())?;
    let _metadata = same_node(&file, told.ident)?;
    file.set_len(0)?;
    file.write_all(bytes)
}

/// Puts the bytes of the file at a place, of which this was told, on the medium.
fn sync<R: Files>(rt: &R, place: &Place, told: FileStatus) -> io::Result<()> {
    let file = fs::open(rt, place.path.as_str())?;
    let _metadata = same_node(&file, told.ident)?;
    file.sync_all()
}

/// The next entry of a list that isn't at its end.
fn next_of<R: Files + AllocGlobal + Drop>(
    rt: &R,
    alloc: Global,
    list: &mut OpenList<Box<HostList<R>>>,
    folders: &mut Folders<R>,
) -> Result<Option<RawEntry>, ListFault>
where
    R::File: AsRawFd,
    ensures { told_list (λ _. []) list.new ≡ told_list (λ _. []) list.old }
{
    match list {
        OpenList::Unfinished(entries) => entries.next(rt, alloc, folders),
        OpenList::AtEnd => Ok(None),
    }
}

/// The next entry of an open list.
fn next_in<R: Files + AllocGlobal + Drop>(
    rt: &R,
    alloc: Global,
    lists: &mut OpenLists<Box<HostList<R>>>,
    number: u64,
    folders: &mut Folders<R>,
) -> Result<Option<RawEntry>, ListFault>
where
    R::File: AsRawFd,
    ensures { KeepsTold (λ _. []) lists.old lists.new }
{
    match lists.open.get_mut(&number) {
        Some(list) => next_of(rt, alloc, list, folders),
        None => Ok(None),
    }
}

/// Whether a path is that of the file that was just created.
fn is_new<F: OpenFile + Write + Drop>(new_file: &Option<NewFile<F>>, path: &str) -> bool
    ensures { IsTrue result ↔ IsSomeAnd new_file.now (λ new. new.path ≡ path.now) }
{
    new_file.as_ref().is_some_and(|new| new.is_at(path))
}

impl<R: Files + AllocGlobal + Drop> Disk for HostDisk<R>
where
    R::File: AsRawFd,
{
    ghost use Rattle.std.specs.Prelude.{false};
    ghost use Rattle.std.proofs.lemmas.Bool.{false≢true};
    ghost use Rattle.host_io.specs.HostDiskState.{host_state};

    ghost tells = { false };

    ghost state = { host_state };

    ghost is_tree = { λ disk told. absurd (false≢true told) };

    ghost holds_present = { λ disk told. absurd (false≢true told) };

    fn stat(&mut self, path: &str, follow: bool) -> Result<Meta, DiskFault>
        ensures not_taken { result ≢ Err DiskFault.Taken }
        ensures tree { SameTree (host_state self.old) (host_state self.new) }
        ensures lists { SameLists (host_state self.old) (host_state self.new) }
        ensures count { IsCounted (host_state self.old).faults (host_state self.new).faults result }
    {
        if !follow && let Some(told) = self.folders.take_told(path) {
            return Ok(told);
        }
        let metadata = self.counter.counted(metadata(&self.rt, path, follow))?;
        Ok(meta_of(&metadata))
    }

    fn ident(&mut self, path: &str) -> Result<Ident, DiskFault>
        ensures not_taken { result ≢ Err DiskFault.Taken }
        ensures tree { SameTree (host_state self.old) (host_state self.new) }
        ensures lists { SameLists (host_state self.old) (host_state self.new) }
        ensures count { IsCounted (host_state self.old).faults (host_state self.new).faults result }
    {
        let metadata = self.counter.counted(fs::metadata(&self.rt, path))?;
        Ok(ident_of(&metadata))
    }

    fn resolve(&mut self, alloc: Global, path: &str) -> Result<Text, DiskFault>
        ensures not_taken { result ≢ Err DiskFault.Taken }
        ensures tree { SameTree (host_state self.old) (host_state self.new) }
        ensures lists { SameLists (host_state self.old) (host_state self.new) }
        ensures count { IsCounted (host_state self.old).faults (host_state self.new).faults result }
    {
        let resolved = self.counter.counted(self.folders.resolve(&self.rt, path))?;
        Ok(Text::new(alloc, resolved.as_str())?)
    }

    fn open_dir(&mut self, path: &str) -> Result<ListId, DiskFault>
        ensures opened { IfOk result (λ list. Opens (host_state self.old) list.number (host_state self.new)) }
        ensures not_taken { result ≢ Err DiskFault.Taken }
        ensures refused { OnErr result (SameLists (host_state self.old) (host_state self.new)) }
        ensures tree { SameTree (host_state self.old) (host_state self.new) }
        ensures count { IsCounted (host_state self.old).faults (host_state self.new).faults result }
    {
        self.counter.counted(self.folders.list(&self.rt, path))?;
        let list = self.counter.counted(HostList::open(&self.rt, path))?;
        let boxed = Box::new(self.rt.alloc(), list)?;
        Ok(self.lists.open(boxed)?)
    }

    fn next_entry(&mut self, alloc: Global, list: ListId) -> Result<Option<RawEntry>, DiskFault>
        requires { IsOpen (host_state self.old) list.number }
        ensures given { IfOk result (λ given. IfSome given (λ _. Gives (host_state self.old) list.number (host_state self.new))) }
        ensures ended { IfOk result (λ given. IfNone given (Ends (host_state self.old) list.number (host_state self.new))) }
        ensures failed { IsErrOf result DiskFault.Failed → PassesOver (host_state self.old) list.number (host_state self.new) }
        ensures full { IsFull (host_state self.old) → IsUnfinished (host_state self.old) list.number → IsErrOf result DiskFault.Failed ⊎ IsErrOf result DiskFault.NoMemory }
        ensures full_ends { IsFull (host_state self.old) → IsErrOf result DiskFault.Failed → Ends (host_state self.old) list.number (host_state self.new) }
        ensures not_absent { result ≢ Err DiskFault.Absent }
        ensures not_taken { result ≢ Err DiskFault.Taken }
        ensures no_memory { IsErrOf result DiskFault.NoMemory → SameLists (host_state self.old) (host_state self.new) }
        ensures others { SameOtherLists (host_state self.old) list.number (host_state self.new) }
        ensures open { SameOpen (host_state self.old) (host_state self.new) }
        ensures tree { SameTree (host_state self.old) (host_state self.new) }
        ensures count { IsCounted (host_state self.old).faults (host_state self.new).faults result }
    {
        if self.lists.is_at_end(list.number) {
            return Ok(None);
        }
        if self.lists.is_full() {
            self.lists.end(list.number);
            return Err(self.counter.refusal(DiskFault::Failed));
        }
        match next_in(
            &self.rt,
            alloc,
            &mut self.lists,
            list.number,
            &mut self.folders,
        ) {
            Ok(None) => {
                self.lists.end(list.number);
                Ok(None)
            }
            Ok(Some(entry)) => {
                self.lists.count();
                Ok(Some(entry))
            }
            Err(ListFault::NoMemory) => Err(DiskFault::NoMemory),
            Err(ListFault::Entry) => {
                self.lists.count();
                Err(self.counter.refusal(DiskFault::Failed))
            }
            Err(ListFault::List) => {
                self.lists.end(list.number);
                Err(self.counter.refusal(DiskFault::Failed))
            }
        }
    }

    fn close_dir(&mut self, list: ListId) {
        self.lists.close(list.number);
    }

    fn read_file(&mut self, alloc: Global, path: &str) -> Result<Vec<u8>, DiskFault>
        ensures not_taken { result ≢ Err DiskFault.Taken }
        ensures tree { SameTree (host_state self.old) (host_state self.new) }
        ensures lists { SameLists (host_state self.old) (host_state self.new) }
        ensures count { IsCounted (host_state self.old).faults (host_state self.new).faults result }
    {
        let told = self.counter.regular(self.folders.status(&self.rt, path))?;
        self.counter
            .counted(read(&self.rt, alloc, &mut self.folders, path, told))
    }

    fn create_like(&mut self, path: &str, like: &str) -> Result<(), DiskFault>
        ensures tree { SameTree (host_state self.old) (host_state self.new) }
        ensures lists { SameLists (host_state self.old) (host_state self.new) }
        ensures count { IsCounted (host_state self.old).faults (host_state self.new).faults result }
        ensures untold { HasNothingTold self.new }
        ensures unknown { KnowsNothingAt self.new path.now }
    {
        self.folders.change_name(path);
        let told = self.counter.regular(self.folders.status(&self.rt, like))?;
        let place = self.counter.counted(self.folders.place(&self.rt, path))?;
        let path = Text::new(self.rt.alloc(), path)?;
        match create(&self.rt, path, place.path.as_str(), told.mode) {
            Ok(new) => {
                self.new_file = Some(new);
                Ok(())
            }
            Err(error) if error.kind() == ErrorKind::AlreadyExists => {
                Err(self.counter.refusal(DiskFault::Taken))
            }
            Err(error) => self.counter.counted(Err(error)),
        }
    }

    fn write_file(&mut self, path: &str, bytes: &[u8]) -> Result<(), DiskFault>
        ensures not_taken { result ≢ Err DiskFault.Taken }
        ensures tree { SameTree (host_state self.old) (host_state self.new) }
        ensures lists { SameLists (host_state self.old) (host_state self.new) }
        ensures count { IsCounted (host_state self.old).faults (host_state self.new).faults result }
        ensures untold { HasNothingTold self.new }
    {
        self.folders.change_bytes();
        match &mut self.new_file {
            Some(new) if new.is_empty_at(path) => self.counter.counted(new.fill(bytes)),
            _ => {
                let told = self.counter.regular(self.folders.status(&self.rt, path))?;
                let place = self.counter.counted(self.folders.place(&self.rt, path))?;
                self.counter.counted(write(&self.rt, &place, told, bytes))
            }
        }
    }

    fn sync(&mut self, path: &str) -> Result<(), DiskFault>
        ensures not_taken { result ≢ Err DiskFault.Taken }
        ensures tree { SameTree (host_state self.old) (host_state self.new) }
        ensures lists { SameLists (host_state self.old) (host_state self.new) }
        ensures count { IsCounted (host_state self.old).faults (host_state self.new).faults result }
    {
        match &self.new_file {
            Some(new) if new.is_at(path) => self.counter.counted(new.sync()),
            _ => {
                let told = self.counter.regular(self.folders.status(&self.rt, path))?;
                let place = self.counter.counted(self.folders.place(&self.rt, path))?;
                self.counter.counted(sync(&self.rt, &place, told))
            }
        }
    }

    fn rename(&mut self, from: &str, to: &str) -> Result<(), DiskFault>
        ensures not_taken { result ≢ Err DiskFault.Taken }
        ensures tree { SameTree (host_state self.old) (host_state self.new) }
        ensures lists { SameLists (host_state self.old) (host_state self.new) }
        ensures count { IsCounted (host_state self.old).faults (host_state self.new).faults result }
        ensures asks { AsksTheHost self.new }
    {
        let is_file = self.folders.knows_file(to);
        self.folders.change_names();
        let (old, new) = self
            .counter
            .counted(self.folders.places(&self.rt, from, to))?;
        if !is_new(&self.new_file, from) {
            self.counter
                .regular(unfollowed(&self.rt, old.path.as_str()))?;
        }
        if !is_file && is_no_file(&self.rt, new.path.as_str()) {
            return Err(self.counter.refusal(DiskFault::Absent));
        }
        self.new_file = None;
        self.counter
            .counted(fs::rename(&self.rt, old.path.as_str(), new.path.as_str()))
    }

    fn remove(&mut self, path: &str) -> Result<(), DiskFault>
        ensures not_taken { result ≢ Err DiskFault.Taken }
        ensures tree { SameTree (host_state self.old) (host_state self.new) }
        ensures lists { SameLists (host_state self.old) (host_state self.new) }
        ensures count { IsCounted (host_state self.old).faults (host_state self.new).faults result }
        ensures asks { AsksTheHost self.new }
    {
        self.folders.change_names();
        let place = self.counter.counted(self.folders.place(&self.rt, path))?;
        if !is_new(&self.new_file, path) {
            self.counter
                .regular(unfollowed(&self.rt, place.path.as_str()))?;
        }
        self.new_file = None;
        self.counter
            .counted(fs::remove_file(&self.rt, place.path.as_str()))
    }

    fn sync_dir(&mut self, path: &str) -> Result<(), DiskFault>
        ensures not_taken { result ≢ Err DiskFault.Taken }
        ensures tree { SameTree (host_state self.old) (host_state self.new) }
        ensures lists { SameLists (host_state self.old) (host_state self.new) }
        ensures count { IsCounted (host_state self.old).faults (host_state self.new).faults result }
    {
        self.counter.counted(self.folders.sync(&self.rt, path))
    }
}
