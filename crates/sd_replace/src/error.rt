//! Why no replacer is made.

use grep_regex::ErrorKind;
use sd_base::{NoMemory, Text};
use std::fmt;
use thiserror::Error;

/// A replacement text is ambiguous: it has a reference without braces whose name begins with a digit and holds something else.
///
/// It shows as four lines: which group could be meant, how to say so, the text, and below it the place of the name.
#[derive(Drop)]
pub struct InvalidReplaceCapture {
    /// The replacement text.
    pub original: Text,
    /// Where the reference's name starts, in bytes.
    pub start: usize,
    /// Where it ends, in bytes.
    pub end: usize,
    /// How many digits it begins with.
    pub digits: usize,
}

impl fmt::Display for InvalidReplaceCapture {
    fn fmt<W: fmt::Write>(&self, f: &mut fmt::Formatter<W>) -> fmt::Result {
        let text = self.original.as_str();
        let behind_digits = self.start.saturating_add(self.digits);
        let number = text.get(self.start..behind_digits).unwrap_or("");
        let rest = text.get(behind_digits..self.end).unwrap_or("");
        writeln!(
            f,
            "The numbered capture group `${number}` in the replacement text is ambiguous."
        )?;
        writeln!(
            f,
            "hint: Use curly braces to disambiguate it `${{{number}}}{rest}`."
        )?;
        writeln!(f, "{}", OneLine(text))?;
        write_marks(
            f,
            text.get(..self.start).unwrap_or(""),
            self.end.saturating_sub(self.start),
        )
    }
}

/// Writes a space for each character of a text, and then so many marks.
fn write_marks<W: fmt::Write>(
    f: &mut fmt::Formatter<W>,
    before: &str,
    marks: usize,
) -> fmt::Result {
    for _ in before.chars() {
        f.write_char(' ')?;
    }
    for _ in 0..marks {
        f.write_char('^')?;
    }
    Ok(())
}

/// Shows a text as one line: line feeds, carriage returns and tabs as their symbols.
#[derive(Clone, Copy)]
struct OneLine<'a>(&'a str);

impl fmt::Display for OneLine<'_> {
    fn fmt<W: fmt::Write>(&self, f: &mut fmt::Formatter<W>) -> fmt::Result {
        for c in self.0.chars() {
            f.write_char(match c {
                '\n' => '\u{240a}',
                '\r' => '\u{240d}',
                '\t' => '\u{2409}',
                _ => c,
            })?;
        }
        Ok(())
    }
}

/// It shows as its four lines.
impl fmt::Debug for InvalidReplaceCapture {
    fn fmt<W: fmt::Write>(&self, f: &mut fmt::Formatter<W>) -> fmt::Result {
        write!(f, "{self}")
    }
}

impl std::error::Error for InvalidReplaceCapture {}

/// Why a replacement text is refused.
#[derive(Debug, Drop, Error)]
pub enum ReplaceFault {
    /// It is ambiguous.
    #[error("{0}")]
    InvalidReplaceCapture(InvalidReplaceCapture),
    /// There is no memory left.
    #[error("out of memory")]
    NoMemory,
}

impl From<NoMemory> for ReplaceFault {
    ghost use Rattle.std.specs.Prelude.{◌≡◌};
    ghost use Rattle.sd_replace.specs.declared.error.ReplaceFault.TheVariants as fault;

    ghost from_gives = { λ _ made. made ≡ fault.NoMemory };

    fn from(_error: NoMemory) -> ReplaceFault {
        ReplaceFault::NoMemory
    }
}

/// Why no replacer is made.
#[derive(Debug, Drop, Error)]
pub enum ReplacerFault {
    /// The replacement text is ambiguous.
    #[error("{0}")]
    InvalidReplaceCapture(InvalidReplaceCapture),
    /// No matcher is built of the text to find.
    #[error("invalid regex {0}")]
    Regex(grep_regex::Error),
    /// There is no memory left.
    #[error("out of memory")]
    NoMemory,
}

impl From<NoMemory> for ReplacerFault {
    ghost use Rattle.std.specs.Prelude.{◌≡◌};
    ghost use Rattle.sd_replace.specs.declared.error.ReplacerFault.TheVariants as fault;

    ghost from_gives = { λ _ made. made ≡ fault.NoMemory };

    fn from(_error: NoMemory) -> ReplacerFault {
        ReplacerFault::NoMemory
    }
}

impl From<ReplaceFault> for ReplacerFault {
    ghost use Rattle.std.specs.Prelude.{◌≡◌};
    ghost use Rattle.sd_replace.specs.Faults.{of_text};

    ghost from_gives = { λ fault made. made ≡ of_text fault };

    fn from(fault: ReplaceFault) -> ReplacerFault {
        match fault {
            ReplaceFault::InvalidReplaceCapture(told) => ReplacerFault::InvalidReplaceCapture(told),
            ReplaceFault::NoMemory => ReplacerFault::NoMemory,
        }
    }
}

impl From<grep_regex::Error> for ReplacerFault {
    ghost use Rattle.std.specs.Prelude.{◌≡◌};
    ghost use Rattle.sd_replace.specs.Faults.{of_find};

    ghost from_gives = { λ error made. made ≡ of_find error };

    fn from(error: grep_regex::Error) -> ReplacerFault {
        match error.kind() {
            ErrorKind::NoMemory => ReplacerFault::NoMemory,
            _ => ReplacerFault::Regex(error),
        }
    }
}
