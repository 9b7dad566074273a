//! The line of an error.

ghost use Rattle.std.specs.Prelude.{ℕ, List, ◌++◌, codes};
ghost use Rattle.sd_course.specs.Course.{course};
ghost use Rattle.error_line.specs.ErrorLine.{PrintsSome, PrintsText, Writes};

use crate::shown::write_shown;
use sd_io::{Failed, Sink};
use std::fmt::Display;
use stream_rewrite::write_all;

/// Prints `error: `, a text and a newline. Refuses with a counted fault of the sink alone, after a prefix of that line.
pub fn print_text<E: Sink>(err: &mut E, text: &str) -> Result<(), Failed>
    ensures { PrintsText text.now result (course E.tells (E.state err.old) (E.state err.new)) }
{
    match write_bytes(err, b"error: ") {
        Ok(()) => write_both(err, text.as_bytes(), b"\n"),
        Err(failed) => Err(failed),
    }
}

/// Prints `error: `, what the value shows and a newline. Refuses with a counted fault of the sink alone, after a prefix of that
/// line.
pub fn print_shown<E: Sink, T: Display>(err: &mut E, shown: &T) -> Result<(), Failed>
    ensures { PrintsSome result (course E.tells (E.state err.old) (E.state err.new)) }
{
    match write_bytes(err, b"error: ") {
        Ok(()) => write_end(err, shown),
        Err(failed) => Err(failed),
    }
}

/// Writes what the value shows and a newline.
fn write_end<E: Sink, T: Display>(err: &mut E, shown: &T) -> Result<(), Failed>
    ensures { (text : List ℕ) × Writes (text ++ codes "\n") result (course E.tells (E.state err.old) (E.state err.new)) }
{
    match write_shown(err, shown) {
        Ok(()) => write_bytes(err, b"\n"),
        Err(failed) => Err(failed),
    }
}

/// Writes two texts, one after the other.
fn write_both<E: Sink>(err: &mut E, first: &[u8], second: &[u8]) -> Result<(), Failed>
    ensures { Writes (first.now ++ second.now) result (course E.tells (E.state err.old) (E.state err.new)) }
{
    match write_bytes(err, first) {
        Ok(()) => write_bytes(err, second),
        Err(failed) => Err(failed),
    }
}

/// Writes a text.
fn write_bytes<E: Sink>(err: &mut E, bytes: &[u8]) -> Result<(), Failed>
    ensures { Writes bytes.now result (course E.tells (E.state err.old) (E.state err.new)) }
{
    write_all(err, bytes)
}
