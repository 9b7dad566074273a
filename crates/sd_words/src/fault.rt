//! Why words ask for nothing that can be done.

ghost use Rattle.std.specs.Prelude.{◌≡◌};
ghost use Rattle.sd_words.specs.OrderRead.{IsRefusalOf};
ghost use Rattle.sd_words.specs.Refusal as form;

use clap::error::ErrorKind;
use sd_base::{NoMemory, Text};
use std::alloc::{AllocError, Global};
use std::error::Error;
use std::fmt;

/// Why there are no options.
#[derive(Drop)]
pub enum OptionsFault {
    /// The words are no command line of the program. Has the text for the user, where there is one and memory for it.
    Usage(Option<Text>),
    /// There is no memory left.
    NoMemory,
}

impl OptionsFault {
    /// Its text for the user: what the words' parse said, where it carries that, or else a fixed text.
    pub fn text(&self) -> &str
        ensures { result.now ≡ form.refusal_text self.now }
    {
        match self {
            OptionsFault::Usage(Some(text)) => text.as_str(),
            OptionsFault::Usage(None) => "not a valid command line",
            OptionsFault::NoMemory => "out of memory",
        }
    }
}

impl Error for OptionsFault {}

/// A fault shows as its text.
impl fmt::Display for OptionsFault {
    ghost use Rattle.std.specs.Prelude.{Some};

    ghost output = { λ fault. Some (form.refusal_text fault) };

    fn fmt<W: fmt::Write>(&self, f: &mut fmt::Formatter<W>) -> fmt::Result {
        f.write_str(self.text())
    }
}

/// A fault shows as its text.
impl fmt::Debug for OptionsFault {
    fn fmt<W: fmt::Write>(&self, f: &mut fmt::Formatter<W>) -> fmt::Result {
        write!(f, "{self}")
    }
}

impl From<NoMemory> for OptionsFault {
    ghost use Rattle.std.specs.Prelude.{◌≡◌};
    ghost use Rattle.sd_words.specs.declared.fault.OptionsFault.{OptionsFault};

    ghost from_gives = { λ _ fault. fault ≡ OptionsFault.NoMemory };

    fn from(_error: NoMemory) -> OptionsFault {
        OptionsFault::NoMemory
    }
}

impl From<AllocError> for OptionsFault {
    ghost use Rattle.std.specs.Prelude.{◌≡◌};
    ghost use Rattle.sd_words.specs.declared.fault.OptionsFault.{OptionsFault};

    ghost from_gives = { λ _ fault. fault ≡ OptionsFault.NoMemory };

    fn from(_error: AllocError) -> OptionsFault {
        OptionsFault::NoMemory
    }
}

/// What a parse's error comes to. Where there is no memory for its text, it has none.
pub fn refusal(alloc: Global, error: &clap::Error) -> OptionsFault
    ensures { IsRefusalOf error.now result }
{
    if error.kind() == ErrorKind::OutOfMemory {
        OptionsFault::NoMemory
    } else {
        OptionsFault::Usage(shown(alloc, error).ok())
    }
}

/// What is shown of the text of a parse's error: help whole, and of a mistake what it says first.
fn shown(alloc: Global, error: &clap::Error) -> Result<Text, NoMemory> {
    let text = format!(in alloc; "{error}")?;
    if error.kind() == ErrorKind::DisplayHelp {
        Ok(Text::from(text))
    } else {
        Text::new(alloc, mistake(text.as_str()))
    }
}

/// The text of a mistake, without `error: ` before it, up to the first empty line.
fn mistake(text: &str) -> &str
    ensures { result.now ≡ form.mistake_shown text.now }
{
    before_empty_line(text.strip_prefix("error: ").unwrap_or(text))
}

/// A text up to its first empty line, or the whole text.
fn before_empty_line(text: &str) -> &str
    ensures { result.now ≡ form.before_empty_line text.now }
{
    match text.split_once("\n\n") {
        Some((front, _)) => front,
        None => text,
    }
}
