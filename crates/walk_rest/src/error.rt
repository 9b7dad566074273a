//! Why a walk gives no entry.

ghost use Rattle.std.specs.Prelude.{◌≡◌, option_map};
ghost use Rattle.walk_rest.specs.declared.error.Error.TheVariants as error;
ghost use Rattle.walk_rest.specs.Errors.{error_kind, error_path, error_depth, error_ancestor, error_ident, error_fault};

use sd_io::{DiskFault, Ident, NoMemory, Text};
use std::alloc::{AllocError, AllocFailed};
use std::fmt;

/// Why a walk gives no entry, or a call on an entry no answer.
#[derive(Drop, thiserror::Error)]
pub enum Error {
    /// The disk failed, and counted it.
    #[error("{}{}", Operation(.path), DiskFault::Failed)]
    Disk {
        /// The path of the entry, where the failure is one of it.
        path: Option<Text>,
        /// How many directories the entry lies below the root.
        depth: usize,
    },
    /// The path leads nowhere: the root, the target of a link that is followed, or an entry that is asked about.
    #[error("IO error for operation on {}: {}", .path.as_str(), DiskFault::Absent)]
    Absent {
        /// The path.
        path: Text,
        /// How many directories the entry lies below the root.
        depth: usize,
    },
    /// A followed link leads to a directory that was entered and not left.
    #[error("File system loop found: {} points to an ancestor {}", .path.as_str(), .ancestor.as_str())]
    Loop {
        /// The path of the link.
        path: Text,
        /// How many directories the link lies below the root.
        depth: usize,
        /// The path of the nearest such directory, as it was entered.
        ancestor: Text,
        /// What the link leads to.
        ident: Ident,
    },
    /// There is no memory left.
    #[error("out of memory")]
    NoMemory,
    /// There are as many entries as the caller's cap, or more.
    #[error("too many entries")]
    TooMany,
}

/// The kinds of [`Error`].
#[derive(Clone, Copy, Debug, PartialEq, Eq)]
pub enum ErrorKind {
    /// The disk failed.
    Disk,
    /// A path leads nowhere.
    Absent,
    /// A followed link leads to a directory that was entered and not left.
    Loop,
    /// There is no memory left.
    NoMemory,
    /// There are too many entries.
    TooMany,
}

impl Error {
    /// Its kind.
    pub fn kind(&self) -> ErrorKind
        ensures { result ≡ error_kind self.now }
    {
        match self {
            Error::Disk { .. } => ErrorKind::Disk,
            Error::Absent { .. } => ErrorKind::Absent,
            Error::Loop { .. } => ErrorKind::Loop,
            Error::NoMemory => ErrorKind::NoMemory,
            Error::TooMany => ErrorKind::TooMany,
        }
    }

    /// The path that it is about, where it is about one.
    pub fn path(&self) -> Option<&str>
        ensures { option_map (λ path. path.now) result ≡ error_path self.now }
    {
        match self {
            Error::Disk { path, .. } => path.as_ref().map(|path| path.as_str()),
            Error::Absent { path, .. } | Error::Loop { path, .. } => Some(path.as_str()),
            Error::NoMemory | Error::TooMany => None,
        }
    }

    /// The path of the directory that a loop leads back to, as it was entered.
    pub fn loop_ancestor(&self) -> Option<&str>
        ensures { option_map (λ path. path.now) result ≡ error_ancestor self.now }
    {
        match self {
            Error::Loop { ancestor, .. } => Some(ancestor.as_str()),
            _ => None,
        }
    }

    /// What the directory is that a loop leads back to.
    pub fn loop_ident(&self) -> Option<Ident>
        ensures { result ≡ error_ident self.now }
    {
        match self {
            Error::Loop { ident, .. } => Some(*ident),
            _ => None,
        }
    }

    /// How many directories below the root it was met; 0 for want of memory and for too many entries.
    pub fn depth(&self) -> usize
        ensures { result ≡ error_depth self.now }
    {
        match self {
            Error::Disk { depth, .. } | Error::Absent { depth, .. } | Error::Loop { depth, .. } =>
                *depth,
            Error::NoMemory | Error::TooMany => 0,
        }
    }

    /// The disk's refusal that it stands for, where it stands for one.
    pub fn io_error(&self) -> Option<DiskFault>
        ensures { result ≡ error_fault self.now }
    {
        match self {
            Error::Disk { .. } => Some(DiskFault::Failed),
            Error::Absent { .. } => Some(DiskFault::Absent),
            _ => None,
        }
    }

    /// The disk's refusal that it stands for, with the error given up.
    pub fn into_io_error(self) -> Option<DiskFault>
        ensures { result ≡ error_fault self }
    {
        self.io_error()
    }
}

impl fmt::Debug for Error {
    fn fmt<W: fmt::Write>(&self, f: &mut fmt::Formatter<W>) -> fmt::Result {
        write!(f, "Error({self})")
    }
}

/// What a call was about, as it stands before the disk's refusal.
#[derive(Drop)]
struct Operation<'a>(&'a Option<Text>);

impl fmt::Display for Operation<'_> {
    fn fmt<W: fmt::Write>(&self, f: &mut fmt::Formatter<W>) -> fmt::Result {
        match self.0 {
            Some(path) => write!(f, "IO error for operation on {}: ", path.as_str()),
            None => Ok(()),
        }
    }
}

impl From<NoMemory> for Error {
    ghost from_gives = { λ _ failed. failed ≡ error.NoMemory };

    fn from(_error: NoMemory) -> Error {
        Error::NoMemory
    }
}

impl From<AllocError> for Error {
    ghost from_gives = { λ _ failed. failed ≡ error.NoMemory };

    fn from(_error: AllocError) -> Error {
        Error::NoMemory
    }
}

impl<T: Drop> From<AllocFailed<T>> for Error {
    ghost from_gives = { λ _ failed. failed ≡ error.NoMemory };

    fn from(_error: AllocFailed<T>) -> Error {
        Error::NoMemory
    }
}
