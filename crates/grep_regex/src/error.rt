//! Why no matcher is built.

ghost use Rattle.std.specs.Prelude.{◌≡◌};
ghost use Rattle.grep_regex.specs.declared.error.ErrorKind.TheVariants as kind;

use sd_base::NoMemory;
use std::alloc::{AllocError, AllocFailed};
use std::fmt;
use thiserror::Error;

/// Why a pattern is not read, or too large.
#[derive(Clone, Copy, Debug, PartialEq, Eq, Error)]
pub enum RegexFault {
    /// The grammar reads nothing in it.
    #[error("regex parse error")]
    Grammar,
    /// It nests deeper than its limit.
    #[error("regex nests too deep")]
    Nest,
    /// Two groups have one name.
    #[error("duplicate group name")]
    DoubleName,
    /// It is larger than this many bytes.
    #[error("compiled regex exceeds size limit of {0}")]
    Size(u64),
}

/// Why no matcher is built.
#[derive(Clone, Copy, Debug, PartialEq, Eq, Error)]
pub enum ErrorKind {
    /// A pattern is not read, or too large.
    #[error("{0}")]
    Regex(RegexFault),
    /// A part of the pattern must match this byte of the terminator.
    #[error("the literal {} is not allowed in a regex", Quoted(*.0))]
    NotAllowed(u8),
    /// This byte of the terminator is not ASCII.
    #[error("line terminators must be ASCII, but byte {0} is not")]
    InvalidLineTerminator(u8),
    /// A part of the pattern must match this byte, which is banned.
    #[error("pattern contains byte {0} but it is impossible to match")]
    Banned(u8),
    /// There is no memory left.
    #[error("out of memory")]
    NoMemory,
}

/// Shows the text of one character, its code a byte, in double quotes and escaped.
#[derive(Clone, Copy)]
struct Quoted(u8);

impl fmt::Display for Quoted {
    fn fmt<W: fmt::Write>(&self, f: &mut fmt::Formatter<W>) -> fmt::Result {
        let mut bytes = [0; 4];
        write!(f, "{:?}", char::from(self.0).encode_utf8(&mut bytes))
    }
}

/// Why no matcher is built.
#[derive(Clone, Copy, Debug, PartialEq, Eq, Error)]
#[error("{kind}")]
pub struct Error {
    kind: ErrorKind,
}

impl Error {
    /// An error of this kind.
    pub(crate) fn new(kind: ErrorKind) -> Error
        ensures { result.kind ≡ kind }
    {
        Error { kind }
    }

    /// Which kind of error it is.
    pub fn kind(&self) -> &ErrorKind
        ensures { result.now ≡ self.now.kind }
    {
        &self.kind
    }
}

impl From<RegexFault> for Error {
    ghost from_gives = { λ fault error. error.kind ≡ kind.Regex fault };

    fn from(fault: RegexFault) -> Error {
        Error::new(ErrorKind::Regex(fault))
    }
}

impl From<NoMemory> for Error {
    ghost from_gives = { λ _ error. error.kind ≡ kind.NoMemory };

    fn from(_error: NoMemory) -> Error {
        Error::new(ErrorKind::NoMemory)
    }
}

impl From<AllocError> for Error {
    ghost from_gives = { λ _ error. error.kind ≡ kind.NoMemory };

    fn from(_error: AllocError) -> Error {
        Error::new(ErrorKind::NoMemory)
    }
}

impl<T: Drop> From<AllocFailed<T>> for Error {
    ghost from_gives = { λ _ error. error.kind ≡ kind.NoMemory };

    fn from(_error: AllocFailed<T>) -> Error {
        Error::new(ErrorKind::NoMemory)
    }
}
