//! What was read of a class that is open.

ghost use Rattle.std.specs.Prelude.{◌≡◌, ℕ, [], ◌∷◌, ◌==◌, ◌&&◌, ◌||◌, nat_lt, is_some, IfOk, OnOk};
ghost use Rattle.regex_class.specs.Ranges.{in_ranges};
ghost use Rattle.pattern_syntax.specs.Class as class;
ghost use Rattle.pattern_syntax.specs.ClassProgress as progress;
ghost use Rattle.pattern_syntax.specs.ClassProgress.{bracketed, literals_in, start, whole_class, with_member, with_operation};
ghost use Rattle.pattern_syntax.specs.ClassReading.{IsHead, code_part, frame_of, framed, held, left_depth, level_of, operation_of, waiting_of};
ghost use Rattle.pattern_syntax.specs.Readers.{IsSet};

use crate::classes::heads::ClassHead;
use crate::{BracketClass, Flags, Literals, closed, complement};
use regex_class::{Class, ClassRange};
use sd_base::NoMemory;
use std::alloc::Global;
use unicode::properties::is_uppercase;

/// An operation on sets.
#[derive(Clone, Copy, Debug, PartialEq, Eq)]
pub(crate) enum Operation {
    /// What both have: `&&`.
    Both,
    /// What the left one alone has: `--`.
    Minus,
    /// What one alone has: `~~`.
    Either,
}

/// What stands left of an operation.
#[derive(Drop)]
pub(crate) struct LeftSide {
    /// Its members.
    pub set: Class,
    /// How deep it nests.
    pub depth: usize,
    /// The operation.
    pub operation: Operation,
}

/// A class that is open: a union so far, and what stands left of the operation before it.
#[derive(Drop)]
pub(crate) struct OpenClass {
    /// Whether it is negated.
    pub negated: bool,
    /// What stands left of the operation, if there is one.
    pub left: Option<LeftSide>,
    /// The members of the union, in no order.
    pub ranges: Vec<ClassRange>,
    /// How many members were written.
    pub count: usize,
    /// How deep the deepest of them nests.
    pub deepest: usize,
    /// The literal characters of the class.
    pub literals: Literals,
}

impl OpenClass {
    /// A class of which the head was read. Refuses for want of memory alone.
    pub fn new(alloc: Global, head: ClassHead) -> Result<OpenClass, NoMemory>
        ensures { IfOk result (λ new. (h : class.Head) → IsHead head h → frame_of new ≡ framed (is_some h.negated) (start h)) }
    {
        let ranges = leading(alloc, head)?;
        let bracket = usize::from(head.bracket);
        let count = head.dashes.checked_add(bracket).ok_or(NoMemory)?;
        Ok(OpenClass {
            negated: head.negated,
            left: None,
            ranges,
            count,
            deepest: 0,
            literals: Literals {
                any: count > 0,
                uppercase: false,
            },
        })
    }

    /// Adds a member: these ranges, which nest so deep and have these literal characters. Refuses for want of memory alone.
    fn add(
        &mut self,
        ranges: &[ClassRange],
        depth: usize,
        literals: Literals,
    ) -> Result<(), NoMemory>
        ensures { OnOk result (frame_of self.new ≡ framed self.old.negated (with_member (held ranges.now) depth literals (level_of self.old))) }
    {
        self.count = self.count.checked_add(1).ok_or(NoMemory)?;
        self.ranges.extend_from_slice(ranges)?;
        self.deepest = self.deepest.max(depth);
        self.literals = in_both(self.literals, literals);
        Ok(())
    }

    /// Adds a character. Refuses for want of memory alone.
    pub fn add_character(&mut self, c: char) -> Result<(), NoMemory>
        ensures { OnOk result (frame_of self.new ≡ framed self.old.negated (with_member (λ d. class.matches_one (Some c) d) 0 (literals_in (c ∷ [])) (level_of self.old))) }
    {
        self.add(&[(u32::from(c), u32::from(c))], 0, literal(c))
    }

    /// Adds the characters from one to another. Refuses for want of memory alone.
    pub fn add_range(&mut self, low: char, high: char) -> Result<(), NoMemory>
        ensures { OnOk result (frame_of self.new ≡ framed self.old.negated (with_member (class.range_set (Some low) (Some high)) 0 (literals_in (low ∷ high ∷ [])) (level_of self.old))) }
    {
        let literals = in_both(literal(low), literal(high));
        self.add(&[(u32::from(low), u32::from(high))], 0, literals)
    }

    /// Adds a set without literal characters. Refuses for want of memory alone.
    pub fn add_set(&mut self, set: &Class) -> Result<(), NoMemory>
        ensures { OnOk result (frame_of self.new ≡ framed self.old.negated (with_member (in_ranges set.now.ranges.items) 0 (literals_in []) (level_of self.old))) }
    {
        let none = Literals {
            any: false,
            uppercase: false,
        };
        self.add(&set.ranges, 0, none)
    }

    /// Adds a nested class. Refuses for want of memory alone.
    pub fn add_class(&mut self, nested: &BracketClass) -> Result<(), NoMemory>
        ensures { OnOk result (frame_of self.new ≡ framed self.old.negated (with_member (in_ranges nested.now.set.ranges.items) nested.now.depth nested.now.literals (level_of self.old))) }
    {
        self.add(&nested.set.ranges, nested.depth, nested.literals)
    }

    /// How deep the union nests, with what stands left of it. Refuses for want of memory alone.
    fn depth(&self) -> Result<usize, NoMemory>
        ensures { IfOk result (λ depth. depth ≡ class.operated (left_depth self.now.left) (class.union_depth self.now.count self.now.deepest)) }
    {
        let union = if self.count < 2 {
            self.deepest
        } else {
            self.deepest.checked_add(1).ok_or(NoMemory)?
        };
        match &self.left {
            None => Ok(union),
            Some(left) => left.depth.max(union).checked_add(1).ok_or(NoMemory),
        }
    }

    /// The class behind an operation. Refuses for want of memory alone.
    pub fn with_operation(
        self,
        alloc: Global,
        operation: Operation,
        flags: Flags,
    ) -> Result<OpenClass, NoMemory>
        ensures { IfOk result (λ new. frame_of new ≡ framed self.negated (with_operation flags (operation_of operation) (level_of self))) }
    {
        let depth = self.depth()?;
        let OpenClass {
            negated,
            left,
            ranges,
            count: _,
            deepest: _,
            literals,
        } = self;
        let set = side(left, ranges, flags)?;
        Ok(OpenClass {
            negated,
            left: Some(LeftSide {
                set,
                depth,
                operation,
            }),
            ranges: Vec::new(alloc),
            count: 0,
            deepest: 0,
            literals,
        })
    }

    /// The class, which ends here. Refuses for want of memory alone.
    pub fn end(self, flags: Flags) -> Result<BracketClass, NoMemory>
        ensures { IfOk result (λ ended. code_part ended ≡ bracketed flags self.negated (whole_class flags (level_of self) class.close)) }
    {
        let nested = self.depth()?;
        let depth = nested.checked_add(1).ok_or(NoMemory)?;
        let OpenClass {
            negated,
            left,
            ranges,
            count: _,
            deepest: _,
            literals,
        } = self;
        let whole = side(left, ranges, flags)?;
        let inner = closed(whole, flags)?;
        if !negated {
            return Ok(BracketClass {
                set: inner,
                depth,
                literals,
            });
        }
        let set = complement(&inner, flags)?;
        Ok(BracketClass {
            set,
            depth,
            literals,
        })
    }
}

/// What one literal character makes of a class.
fn literal(c: char) -> Literals
    ensures { result ≡ literals_in (c ∷ []) }
{
    Literals {
        any: true,
        uppercase: is_uppercase(c),
    }
}

/// The literal characters of two parts.
fn in_both(first: Literals, second: Literals) -> Literals
    ensures { result ≡ progress.in_both first second }
{
    Literals {
        any: first.any || second.any,
        uppercase: first.uppercase || second.uppercase,
    }
}

/// The leading members. Refuses for want of memory alone.
fn leading(alloc: Global, head: ClassHead) -> Result<Vec<ClassRange>, NoMemory>
    ensures { IfOk result (λ ranges. (c : ℕ) → held ranges.items c ≡ ((c == 45 && nat_lt 0 head.dashes) || (c == 93 && head.bracket))) }
{
    let mut ranges = Vec::new(alloc);
    if head.dashes > 0 {
        push(&mut ranges, '-')?;
    }
    if head.bracket {
        push(&mut ranges, ']')?;
    }
    Ok(ranges)
}

/// Adds a character to ranges. Refuses for want of memory alone.
fn push(ranges: &mut Vec<ClassRange>, c: char) -> Result<(), NoMemory>
    ensures { OnOk result ((d : ℕ) → held ranges.new.items d ≡ (held ranges.old.items d || d == c)) }
{
    ranges.push((u32::from(c), u32::from(c)))?;
    Ok(())
}

/// A union, and what stands left of it. Refuses for want of memory alone.
fn side(left: Option<LeftSide>, ranges: Vec<ClassRange>, flags: Flags) -> Result<Class, NoMemory>
    ensures { IfOk result (λ set. IsSet set (class.side flags (waiting_of left) (held ranges.items))) }
{
    let union = Class::new(ranges)?;
    match left {
        None => Ok(union),
        Some(left) => {
            let first = closed(left.set, flags)?;
            let second = closed(union, flags)?;
            combined(&first, &second, left.operation)
        }
    }
}

/// What an operation makes of two sets. Refuses for want of memory alone.
fn combined(first: &Class, second: &Class, operation: Operation) -> Result<Class, NoMemory>
    ensures { IfOk result (λ set. IsSet set (class.combined (operation_of operation) (in_ranges first.now.ranges.items) (in_ranges second.now.ranges.items))) }
{
    match operation {
        Operation::Both => Ok(first.intersection(second)?),
        Operation::Minus => Ok(first.difference(second)?),
        Operation::Either => Ok(first.symmetric_difference(second)?),
    }
}
