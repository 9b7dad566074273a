//! The file that the host's disk just created.

ghost use Rattle.std.specs.Prelude.{◌≡◌, ◌↔◌, false, true, IsTrue, IfOk};

use sd_io::Text;
use std::fs::{OpenFile, OpenOptions, Permissions};
use std::io::Write;
use std::os::unix::fs::{OpenOptionsExt, PermissionsExt};
use std::rt::Files;
use std::{fs, io};

/// The bits of a mode that a host may drop at a write: set-user-ID and set-group-ID.
const SET_ID_BITS: u32 = 0o6000;

/// A file that was created here, and has been neither renamed nor removed since. What created it also writes its first
/// bytes, for its mode may forbid to open it for writing, and puts it on the medium.
#[derive(Drop)]
pub struct NewFile<F: Drop> {
    path: Text,
    file: F,
    mode: u32,
    is_empty: bool,
}

/// Creates a file with this mode where nothing stands. The host is asked for its path by that place.
pub fn create<R: Files>(rt: &R, path: Text, place: &str, mode: u32) -> io::Result<NewFile<R::File>>
    ensures path { IfOk result (λ new. new.path ≡ path) }
    ensures mode { IfOk result (λ new. new.mode ≡ mode) }
    ensures empty { IfOk result (λ new. new.is_empty ≡ true) }
{
    let file = OpenOptions::new()
        .write(true)
        .create_new(true)
        .mode(0o600)
        .open(rt, place)?;
    if let Err(error) = file.set_permissions(Permissions::from_mode(mode)) {
        let _removed = fs::remove_file(rt, place);
        return Err(error);
    }
    Ok(NewFile {
        path,
        file,
        mode,
        is_empty: true,
    })
}

impl<F: OpenFile + Write + Drop> NewFile<F> {
    /// Whether it was created at this path.
    pub fn is_at(&self, path: &str) -> bool
        ensures { IsTrue result ↔ (self.now.path ≡ path.now) }
    {
        self.path.as_str() == path
    }

    /// Whether it was created at this path, and nothing was written to it.
    pub fn is_empty_at(&self, path: &str) -> bool
        ensures { IsTrue result ↔ ((self.now.path ≡ path.now) × IsTrue self.now.is_empty) }
    {
        self.is_at(path) && self.is_empty
    }

    /// Writes its first bytes. It has its mode afterwards, even where the host drops some of it at a write.
    pub fn fill(&mut self, bytes: &[u8]) -> io::Result<()>
        ensures path { self.new.path ≡ self.old.path }
        ensures mode { self.new.mode ≡ self.old.mode }
        ensures not_empty { self.new.is_empty ≡ false }
    {
        self.is_empty = false;
        self.file.write_all(bytes)?;
        if self.mode & SET_ID_BITS != 0 {
            self.file
                .set_permissions(Permissions::from_mode(self.mode))?;
        }
        Ok(())
    }

    /// Puts its bytes and its mode on the medium.
    pub fn sync(&self) -> io::Result<()> {
        self.file.sync_all()
    }
}
