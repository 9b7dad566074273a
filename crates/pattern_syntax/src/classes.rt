//! Bracketed classes.

mod heads;
mod members;
mod names;
mod open_class;
mod steps;

ghost use Rattle.std.specs.Prelude.{◌<◌, IfOk, length};
ghost use Rattle.pattern_syntax.specs.Readers.{IsClassRead};

use crate::classes::heads::read_head;
use crate::classes::open_class::OpenClass;
use crate::classes::steps::{Reading, Step, advance};
use crate::{BracketClass, Flags};
use sd_base::NoMemory;
use std::alloc::Global;

/// The bracketed class at a place, and the place behind it, if one stands there. Refuses for want of memory alone.
pub fn read_class(
    alloc: Global,
    text: &[char],
    at: usize,
    flags: Flags,
) -> Result<Option<(BracketClass, usize)>, NoMemory>
    requires { at < length text.now }
    ensures { IfOk result (IsClassRead flags text.now at) }
{
    if text[at] != '[' {
        return Ok(None);
    }
    let (head, behind) = read_head(text, at, flags);
    let mut reading = Reading {
        outer: Vec::new(alloc),
        class: OpenClass::new(alloc, head)?,
        at: behind,
    };
    while reading.at < text.len() {
        reading = match advance(alloc, text, reading, flags)? {
            Step::Open(next) => next,
            Step::Done(class, behind) => return Ok(Some((class, behind))),
            Step::Nothing => return Ok(None),
        };
    }
    Ok(None)
}
