//! Plans.

ghost use Rattle.std.specs.Prelude.{◌≡◌, ◌≢◌, ◌<◌, ◌+◌, ◌^◌, ◌++◌, ◌∷◌, [], false, length, slice_get, Some, IsTrue, ◌↔◌, OnOk, OnErr};
ghost use Rattle.sd_plan.specs.Plan.{IsPlan, changed_in, replaced_in};

use crate::PlanLine;
use sd_base::NoMemory;
use std::alloc::Global;
use std::marker::Model;

/// What is planned for some files, a line for each, in order. Contracts see the list of its lines.
#[derive(Drop)]
pub struct Plan {
    lines: Vec<PlanLine>,
    changed: u128,
    replaced: u128,
}

impl Model for Plan {
    ghost use Rattle.std.specs.Prelude.{List};
    ghost use Rattle.sd_plan.specs.declared.line.PlanLine.{PlanLine};
    ghost use Rattle.sd_plan.specs.Plan.{IsCounted};

    ghost Value = { List PlanLine };

    ghost view = { λ plan. plan.lines.items };

    ghost invariant = { λ plan. IsCounted plan.lines.items plan.changed plan.replaced };
}

impl Plan {
    /// No lines.
    pub fn new(alloc: Global) -> Plan
        ensures { result ≡ [] }
    {
        Plan {
            lines: Vec::new(alloc),
            changed: 0,
            replaced: 0,
        }
    }

    /// Adds a line at the end. Its path isn't empty, its digests are the same where its file doesn't change, and the spans that are
    /// replaced in all files together stay below 2^128. Refuses for want of memory alone, and then changes nothing.
    pub fn push(&mut self, line: PlanLine) -> Result<(), NoMemory>
        requires path { line.path ≢ [] }
        requires unchanged { line.changed ≡ false → line.before ≡ line.after }
        requires fits { replaced_in self.old + line.replaced < 2 ^ 128 }
        ensures pushed { OnOk result (self.new ≡ self.old ++ line ∷ []) }
        ensures refused { OnErr result (self.new ≡ self.old) }
    {
        let changed = self.changed + u128::from(line.changed);
        let replaced = self.replaced + line.replaced;
        let _before = line.before.as_bytes();
        let _after = line.after.as_bytes();
        let _path = line.path.as_str();
        self.lines.push(line)?;
        self.changed = changed;
        self.replaced = replaced;
        Ok(())
    }

    /// How many lines there are.
    pub fn len(&self) -> usize
        ensures { result ≡ length self.now }
    {
        self.lines.len()
    }

    /// Whether there is none.
    pub fn is_empty(&self) -> bool
        ensures { IsTrue result ↔ (self.now ≡ []) }
    {
        self.lines.is_empty()
    }

    /// The line at a place, counted from 0.
    pub fn get(&self, i: usize) -> &PlanLine
        requires { i < length self.now }
        ensures { slice_get self.now i ≡ Some result.now }
    {
        &self.lines[i]
    }

    /// How many files change.
    pub fn changed(&self) -> u128
        ensures { result ≡ changed_in self.now }
    {
        self.changed
    }

    /// How many spans are replaced in all files.
    pub fn replaced(&self) -> u128
        ensures is { result ≡ replaced_in self.now }
        ensures plan { IsPlan self.now }
    {
        self.replaced
    }

    /// All lines in order.
    pub fn lines(&self) -> &[PlanLine]
        ensures lines { result.now ≡ self.now }
        ensures plan { IsPlan self.now }
    {
        &self.lines
    }
}
