//! The steps of a reading of classes.

ghost use Rattle.std.specs.Prelude.{◌≡◌, ◌<◌, false, true, IfOk, drop, length, slice_index};
ghost use Rattle.pattern_syntax.specs.Class.{begins_name, makes_range};
ghost use Rattle.pattern_syntax.specs.ClassReading.{IsOperationRead, MemberAt, Steps, begins_member};

use crate::classes::heads::read_head;
use crate::classes::members::{ClassMember, read_member, read_second};
use crate::classes::names::read_name;
use crate::classes::open_class::{OpenClass, Operation};
use crate::{BracketClass, Flags, behind_blanks, makes_range};
use sd_base::NoMemory;
use std::alloc::Global;

/// What was read of a class and of those that are nested in it, up to a place.
#[derive(Drop)]
pub(crate) struct Reading {
    /// The open classes but the innermost, the outermost first.
    pub outer: Vec<OpenClass>,
    /// The innermost open class.
    pub class: OpenClass,
    /// The place.
    pub at: usize,
}

/// What one step of the reading comes to.
#[derive(Drop)]
pub(crate) enum Step {
    /// The reading goes on.
    Open(Reading),
    /// The class ends before a place.
    Done(BracketClass, usize),
    /// No class stands there.
    Nothing,
}

/// One step. Refuses for want of memory alone.
pub(crate) fn advance(
    alloc: Global,
    text: &[char],
    mut reading: Reading,
    flags: Flags,
) -> Result<Step, NoMemory>
    requires { reading.at < length text.now }
    ensures { IfOk result (Steps flags text.now reading) }
{
    let place = behind_blanks(text, reading.at, flags.spaces);
    if place > reading.at {
        reading.at = place;
        return Ok(Step::Open(reading));
    }
    let c = text[reading.at];
    if c == ']' {
        return close(reading, text, flags);
    }
    if c == '[' {
        return bracket(alloc, text, reading, flags);
    }
    match operation_at(text, reading.at) {
        Some(operation) => operate(alloc, text, reading, operation, flags),
        None => member(alloc, text, reading, flags),
    }
}

/// A `]` ends the innermost class. Refuses for want of memory alone.
fn close(reading: Reading, text: &[char], flags: Flags) -> Result<Step, NoMemory>
    requires within { reading.at < length text.now }
    requires closes { slice_index text.now reading.at ≡ 93 }
    ensures { IfOk result (Steps flags text.now reading) }
{
    let Reading {
        mut outer,
        class,
        at,
    } = reading;
    let ended = class.end(flags)?;
    let Some(mut class) = outer.pop() else {
        return Ok(Step::Done(ended, at + 1));
    };
    class.add_class(&ended)?;
    Ok(Step::Open(Reading {
        outer,
        class,
        at: at + 1,
    }))
}

/// A `[` begins a name or a nested class. Refuses for want of memory alone.
fn bracket(
    alloc: Global,
    text: &[char],
    mut reading: Reading,
    flags: Flags,
) -> Result<Step, NoMemory>
    requires within { reading.at < length text.now }
    requires opens { slice_index text.now reading.at ≡ 91 }
    ensures { IfOk result (Steps flags text.now reading) }
{
    let Some((set, behind)) = read_name(alloc, text, reading.at, flags)? else {
        return nest(alloc, text, reading, flags);
    };
    reading.class.add_set(&set)?;
    reading.at = behind;
    Ok(Step::Open(reading))
}

/// A nested class begins. Refuses for want of memory alone.
fn nest(alloc: Global, text: &[char], reading: Reading, flags: Flags) -> Result<Step, NoMemory>
    requires within { reading.at < length text.now }
    requires opens { slice_index text.now reading.at ≡ 91 }
    requires nameless { begins_name (drop reading.at text.now) ≡ false }
    ensures { IfOk result (Steps flags text.now reading) }
{
    let (head, behind) = read_head(text, reading.at, flags);
    let Reading {
        mut outer,
        class,
        at: _,
    } = reading;
    outer.push(class)?;
    Ok(Step::Open(Reading {
        outer,
        class: OpenClass::new(alloc, head)?,
        at: behind,
    }))
}

/// The operation that stands at a place, if one does.
fn operation_at(text: &[char], at: usize) -> Option<Operation>
    requires { at < length text.now }
    ensures { IsOperationRead text.now at result }
{
    if at + 1 == text.len() || text[at + 1] != text[at] {
        return None;
    }
    match text[at] {
        '&' => Some(Operation::Both),
        '-' => Some(Operation::Minus),
        '~' => Some(Operation::Either),
        _ => None,
    }
}

/// An operation begins its right side. Refuses for want of memory alone.
fn operate(
    alloc: Global,
    text: &[char],
    reading: Reading,
    operation: Operation,
    flags: Flags,
) -> Result<Step, NoMemory>
    requires { IsOperationRead text.now reading.at (Some operation) }
    ensures { IfOk result (Steps flags text.now reading) }
{
    let Reading { outer, class, at } = reading;
    Ok(Step::Open(Reading {
        outer,
        class: class.with_operation(alloc, operation, flags)?,
        at: at + 2,
    }))
}

/// A character or an escape is a member, or begins a range. Refuses for want of memory alone.
fn member(
    alloc: Global,
    text: &[char],
    mut reading: Reading,
    flags: Flags,
) -> Result<Step, NoMemory>
    requires within { reading.at < length text.now }
    requires begins { begins_member flags (drop reading.at text.now) ≡ true }
    ensures { IfOk result (Steps flags text.now reading) }
{
    let Some((member, behind)) = read_member(alloc, text, reading.at, flags)? else {
        return Ok(Step::Nothing);
    };
    match member {
        ClassMember::Many(set) => {
            reading.class.add_set(&set)?;
            reading.at = behind;
            Ok(Step::Open(reading))
        }
        ClassMember::Single(c) => single(alloc, text, reading, c, behind, flags),
    }
}

/// A single one that ends before a place is a member, or begins a range. Refuses for want of memory alone.
fn single(
    alloc: Global,
    text: &[char],
    mut reading: Reading,
    c: char,
    behind: usize,
    flags: Flags,
) -> Result<Step, NoMemory>
    requires begins { begins_member flags (drop reading.at text.now) ≡ true }
    requires is { MemberAt flags text.now reading.at (ClassMember.Single c) behind }
    ensures { IfOk result (Steps flags text.now reading) }
{
    if makes_range(text, behind, flags.spaces) {
        return range(alloc, text, reading, c, behind, flags);
    }
    reading.class.add_character(c)?;
    reading.at = behind;
    Ok(Step::Open(reading))
}

/// A range whose first end stops before a place. Refuses for want of memory alone.
fn range(
    alloc: Global,
    text: &[char],
    mut reading: Reading,
    low: char,
    behind: usize,
    flags: Flags,
) -> Result<Step, NoMemory>
    requires begins { begins_member flags (drop reading.at text.now) ≡ true }
    requires is { MemberAt flags text.now reading.at (ClassMember.Single low) behind }
    requires makes { makes_range flags (drop behind text.now) ≡ true }
    ensures { IfOk result (Steps flags text.now reading) }
{
    let Some((high, next)) = read_second(alloc, text, behind, flags)? else {
        return Ok(Step::Nothing);
    };
    if low > high {
        return Ok(Step::Nothing);
    }
    reading.class.add_range(low, high)?;
    reading.at = next;
    Ok(Step::Open(reading))
}
