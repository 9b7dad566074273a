//! How a run of the program ends.

ghost use Rattle.std.specs.Prelude.{◌≡◌};
ghost use Rattle.sd_journal.specs.Run as form;

use crate::error::JournalError;
use sd_replace::ReplacerFault;

/// How a run ended.
#[derive(Drop)]
pub struct JournalEnded {
    /// The status to end the process with: 0 where all was done, 2 where the words ask for nothing, else 1.
    pub status: u8,
    /// Why it ended so.
    pub why: JournalWhy,
}

/// Why a run ended.
#[derive(Drop)]
pub enum JournalWhy {
    /// All was done, and reported.
    Done,
    /// The words are no command line of the program.
    Usage,
    /// No replacer is made of the words. Want of memory for one comes as that of a sweep.
    Replacer(ReplacerFault),
    /// The sweep wasn't made, or wasn't recovered.
    Journal(JournalError),
    /// All was done, and the report could not be written.
    Print,
}

impl JournalWhy {
    /// The status of a process that ends so.
    pub fn status(&self) -> u8
        ensures { result ≡ form.status_of self.now }
    {
        match self {
            JournalWhy::Done => 0,
            JournalWhy::Usage => 2,
            JournalWhy::Replacer(_) | JournalWhy::Journal(_) | JournalWhy::Print => 1,
        }
    }
}
