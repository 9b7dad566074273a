//! How a run of the program ends.

ghost use Rattle.std.specs.Prelude.{◌≡◌};
ghost use Rattle.sd_core.specs.Run as form;

use crate::Error;

/// How a run ended.
#[derive(Drop)]
pub struct Ended {
    /// The status to end the process with: 0 where all was done, 2 where the words ask for nothing, else 1.
    pub status: u8,
    /// Why it ended so.
    pub why: Why,
}

/// Why a run ended.
#[derive(Drop)]
pub enum Why {
    /// All was done, and reported where a tree or a demo was worked on.
    Done,
    /// The words are no command line of the program.
    Usage,
    /// Something failed.
    Fault(Error),
    /// All was done, and the report could not be written.
    Print,
}

impl Why {
    /// The status of a process that ends so.
    pub(crate) fn status(&self) -> u8
        ensures { result ≡ form.status_of self.now }
    {
        match self {
            Why::Done => 0,
            Why::Usage => 2,
            Why::Fault(_) | Why::Print => 1,
        }
    }
}
