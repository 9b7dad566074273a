//! The open lists of the host.

ghost use Rattle.std.specs.Prelude.{◌≡◌, ◌≢◌, ◌↔◌, ◌≤◌, IfOk, IsTrue, IsErrAnd, length};
ghost use Rattle.std.specs.Fs.{IsFile, file_type, metadata_len};
ghost use Rattle.std.specs.IoError.{error_kind};
ghost use Rattle.host_io.specs.HostDisk.{IsOfKind};

use crate::folders::{Folders, ListedEntry};
use sd_io::{Kind, Meta, RawEntry, Text};
use std::alloc::{AllocError, Global};
use std::fs::Metadata;
use std::io::{BufRead, BufReader, ErrorKind};
use std::os::fd::AsRawFd;
use std::os::unix::fs::MetadataExt;
use std::rt::Files;
use std::{io, str};

/// An open list of the host's. The host gives names alone; what else is told of an entry is asked for by its path.
#[derive(Drop)]
pub struct HostList<R: Files + AllocGlobal + Drop> {
    /// The folder's path, with a slash at its end.
    folder: String,
    /// The path of an entry, in room that serves one after the other.
    path: String,
    /// The names that are left, each with a byte 0 behind.
    names: BufReader<R::Dir>,
}

/// Why a list gives no entry, and isn't at its end.
#[derive(Clone, Copy)]
pub enum ListFault {
    /// There is no memory for the next entry. It stays the next one.
    NoMemory,
    /// The next entry can't be told. It is passed over.
    Entry,
    /// The host can't go on with the list.
    List,
}

/// How many bytes of names are read at once. Linux wants room for one entry at least, which takes at most 280.
const ROOM: usize = 4096;

/// How many bytes a name has at most, as a rule.
const NAME: usize = 255;

/// The kind of a node, by what the host tells of it.
pub fn kind_of(metadata: &Metadata) -> Kind
    ensures { IsOfKind metadata.now result }
{
    if metadata.is_dir() {
        Kind::Directory
    } else if metadata.is_symlink() {
        Kind::Link
    } else if metadata.is_file() {
        Kind::File
    } else {
        Kind::Other
    }
}

/// The kind of a node, and a regular file's number of bytes, by what the host tells of it.
pub fn meta_of(metadata: &Metadata) -> Meta
    ensures kind { IsOfKind metadata.now result.kind }
    ensures len { IsFile (file_type metadata.now) → result.len ≡ metadata_len metadata.now }
    ensures no_len { ¬ IsFile (file_type metadata.now) → result.len ≡ 0 }
{
    let kind = kind_of(metadata);
    let len = if metadata.is_file() {
        metadata.len()
    } else {
        0
    };
    Meta { kind, len }
}

/// A path with a slash at its end, behind which the host opens nothing but a folder. The empty path stays empty.
fn with_slash(alloc: Global, path: &str) -> Result<String, AllocError> {
    let mut folder = String::with_capacity(alloc, path.len().saturating_add(1))?;
    folder.push_str(path)?;
    if !path.is_empty() && !path.ends_with('/') {
        folder.push('/')?;
    }
    Ok(folder)
}

/// How many bytes the first of some names takes, each of which has a byte 0 behind.
fn first_len(names: &[u8]) -> usize
    ensures { result ≤ length names.now }
{
    names
        .iter()
        .position(|byte| *byte == 0)
        .unwrap_or(names.len())
}

/// The first of some names, which takes so many bytes. `None` where it isn't UTF-8.
fn first_name(names: &[u8], len: usize) -> Option<&str> {
    str::from_utf8(names.get(..len)?).ok()
}

/// Whether a name is none of an entry: that of the folder itself, or of the one above.
fn is_dots(name: &[u8]) -> bool {
    name == b".".as_slice() || name == b"..".as_slice()
}

/// Whether memory alone was wanting.
pub fn is_out_of_memory<T>(answer: &io::Result<T>) -> bool
    ensures { IsTrue result ↔ IsErrAnd answer.now (λ error. error_kind error ≡ ErrorKind.OutOfMemory) }
{
    match answer {
        Ok(_) => false,
        Err(error) => error.kind() == ErrorKind::OutOfMemory,
    }
}

/// The fault of a list by the host's error: want of memory, or else this one.
fn list_fault(error: &io::Error, other: ListFault) -> ListFault
    ensures memory { error_kind error.now ≡ ErrorKind.OutOfMemory → result ≡ ListFault.NoMemory }
    ensures other { error_kind error.now ≢ ErrorKind.OutOfMemory → result ≡ other }
{
    if error.kind() == ErrorKind::OutOfMemory {
        ListFault::NoMemory
    } else {
        other
    }
}

/// An entry with its kind and inode, a link not followed. The folders get to know of it.
fn tell<R: Files + AllocGlobal + Drop>(
    rt: &R,
    alloc: Global,
    folders: &mut Folders<R>,
    entry: ListedEntry<'_>,
) -> io::Result<RawEntry>
where
    R::File: AsRawFd,
    ensures name { IfOk result (λ told. told.name ≡ entry.entry.name.now) }
    ensures file { folders.new.file ≡ folders.old.file }
{
    let metadata = rt.symlink_metadata(entry.path)?;
    let name = String::from_str(alloc, entry.name)?;
    folders.tell(alloc, entry, &metadata)?;
    Ok(RawEntry {
        name: Text::from(name),
        kind: kind_of(&metadata),
        ino: metadata.ino(),
    })
}

impl<R: Files + AllocGlobal + Drop> HostList<R>
where
    R::File: AsRawFd,
{
    /// The list of the folder at a path.
    pub fn open(rt: &R, path: &str) -> io::Result<HostList<R>> {
        let alloc = rt.alloc();
        let folder = with_slash(alloc, path)?;
        let names = BufReader::with_capacity(alloc, ROOM, rt.open_dir(folder.as_str())?)?;
        let path = String::with_capacity(alloc, folder.len().saturating_add(NAME))?;
        Ok(HostList {
            folder,
            path,
            names,
        })
    }

    /// The next entry, as the host tells it. `None` at the end.
    pub fn next(
        &mut self,
        rt: &R,
        alloc: Global,
        folders: &mut Folders<R>,
    ) -> Result<Option<RawEntry>, ListFault>
        ensures { folders.new.file ≡ folders.old.file }
    {
        let len = match self.next_len() {
            Ok(None) => return Ok(None),
            Ok(Some(len)) => len,
            Err(error) => return Err(list_fault(&error, ListFault::List)),
        };
        let told = self.tell(rt, alloc, folders, len);
        if !is_out_of_memory(&told) {
            self.names.consume(len.saturating_add(1));
        }
        match told {
            Ok(entry) => Ok(Some(entry)),
            Err(error) => Err(list_fault(&error, ListFault::Entry)),
        }
    }

    /// How many bytes the name of the next entry takes, once the names that are none of an entry are passed over. `None` at the end.
    fn next_len(&mut self) -> io::Result<Option<usize>> {
        for _ in 0..u64::MAX {
            let names = self.names.fill_buf()?;
            if names.is_empty() {
                return Ok(None);
            }
            let len = first_len(names);
            if !is_dots(&names[..len]) {
                return Ok(Some(len));
            }
            self.names.consume(len.saturating_add(1));
        }
        Ok(None)
    }

    /// The entry whose name takes so many of the bytes that were read. Refuses where that isn't UTF-8.
    fn tell(
        &mut self,
        rt: &R,
        alloc: Global,
        folders: &mut Folders<R>,
        len: usize,
    ) -> io::Result<RawEntry>
        ensures { folders.new.file ≡ folders.old.file }
    {
        let Some(name) = first_name(self.names.buffer(), len) else {
            return Err(io::Error::from(ErrorKind::InvalidFilename));
        };
        let folder = self.folder.as_str();
        self.path.clear();
        self.path.push_str(folder)?;
        self.path.push_str(name)?;
        let path = self.path.as_str();
        tell(rt, alloc, folders, ListedEntry { folder, name, path })
    }
}
