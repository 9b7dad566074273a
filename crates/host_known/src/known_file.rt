//! What is known of the file that was resolved last.
//!
//! A path that is resolved below a listed folder is asked for without following a link in the place of its last name. That answer also serves
//! the questions that come next: whether a regular file stands there, before it is opened and before another is renamed to its path; which node
//! must be open then; and which mode a new file beside it gets. It holds until something at that path may be changed through the disk. This
//! asks nothing of the host.

ghost use Rattle.std.specs.Prelude.{◌≡◌, ◌≢◌, ℕ, List, None, Some, string_bytes, if◌then◌else◌};
ghost use Rattle.std.specs.Str.{bytes_eq};

use sd_io::{Ident, Kind};

/// What the host tells of a node, and a write to it doesn't change.
#[derive(Clone, Copy)]
pub struct FileStatus {
    pub ident: Ident,
    pub kind: Kind,
    pub mode: u32,
}

/// At most one path, and what stands there, a link not followed.
#[derive(Drop)]
pub struct KnownFile {
    known: Option<KnownPath>,
}

/// A path with what stands there.
#[derive(Drop)]
struct KnownPath {
    path: String,
    status: FileStatus,
}

impl KnownFile {
    ghost use Rattle.host_known.specs.KnownFile.{status_at};

    /// Nothing is known.
    pub fn new() -> KnownFile
        ensures { (path : List ℕ) → status_at result path ≡ None }
    {
        KnownFile { known: None }
    }

    /// What is known to stand at a path.
    pub fn get(&self, path: &str) -> Option<FileStatus>
        ensures { result ≡ status_at self.now path.now }
    {
        match &self.known {
            Some(known) if known.path.as_str() == path => Some(known.status),
            _ => None,
        }
    }

    /// Notes what stands at a path. Nothing else is known then.
    pub fn tell(&mut self, path: String, status: FileStatus)
        ensures { (other : List ℕ) → status_at self.new other ≡ (if bytes_eq (string_bytes path) other then Some status else None) }
    {
        self.known = Some(KnownPath { path, status });
    }

    /// Notes that what stands at a path may be another.
    pub fn forget_at(&mut self, path: &str)
        ensures gone { status_at self.new path.now ≡ None }
        ensures others { (other : List ℕ) → other ≢ path.now → status_at self.new other ≡ status_at self.old other }
    {
        if self.get(path).is_some() {
            self.known = None;
        }
    }

    /// Notes that what stands at any path may be another.
    pub fn forget(&mut self)
        ensures { (path : List ℕ) → status_at self.new path ≡ None }
    {
        self.known = None;
    }
}
