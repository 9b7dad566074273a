//! What a crash may leave at a place of a disk in memory.

ghost use Rattle.std.specs.Prelude.{◌≡◌, ◌↔◌, ◌++◌, ◌∷◌, [], map, true, option_map, IsTrue, IfOk, OnOk};
ghost use Rattle.sd_io.specs.Outcomes.{own, older, own_of, left_behind, settled};
ghost use Rattle.mem_io.specs.Log.{is_gone, has_other, crash_content, chosen, outcome_on};
ghost use Rattle.mem_io.specs.MemNode.{content_of};
ghost use Rattle.mem_io.specs.MemOutcome.{left_of};

use crate::node::{MemContent, MemNode};
use sd_io::NoMemory;
use std::alloc::Global;
use std::marker::Model;

/// What a crash leaves at a place.
#[derive(Drop)]
pub enum MemLeft {
    Gone,
    This(MemNode),
    /// A regular file with any bytes and any mode.
    AnyFile,
}

impl MemLeft {
    fn try_clone(&self, alloc: Global) -> Result<MemLeft, NoMemory>
        ensures { IfOk result (λ copy. left_of copy ≡ left_of self.now) }
    {
        match self {
            MemLeft::Gone => Ok(MemLeft::Gone),
            MemLeft::This(node) => Ok(MemLeft::This(node.try_clone(alloc)?)),
            MemLeft::AnyFile => Ok(MemLeft::AnyFile),
        }
    }

    fn is_gone(&self) -> bool
        ensures { result ≡ is_gone (left_of self.now) }
    {
        matches!(self, MemLeft::Gone)
    }

    /// What stands there in an image. Any file is the one byte 0 with mode 0.
    pub fn content(&self, alloc: Global) -> Result<Option<MemContent>, NoMemory>
        ensures { IfOk result (λ content. option_map content_of content ≡ crash_content (left_of self.now)) }
    {
        match self {
            MemLeft::Gone => Ok(None),
            MemLeft::This(node) => Ok(Some(node.content(alloc)?)),
            MemLeft::AnyFile => Ok(Some(MemContent::File([0].to_vec(alloc)?, 0))),
        }
    }
}

/// What a crash leaves, and whether it is the standing node's own.
#[derive(Drop)]
pub struct MemOutcome {
    is_own: bool,
    left: MemLeft,
}

impl Model for MemOutcome {
    ghost use Rattle.sd_io.specs.Outcomes.{Outcome};

    ghost Value = { Outcome };

    ghost use Rattle.mem_io.specs.MemOutcomeView.{outcome_of};

    ghost view = { outcome_of };
}

impl MemOutcome {
    pub fn own(left: MemLeft) -> MemOutcome
        ensures { result ≡ own (left_of left) }
    {
        MemOutcome { is_own: true, left }
    }

    pub fn older(left: MemLeft) -> MemOutcome
        ensures { result ≡ older (left_of left) }
    {
        MemOutcome {
            is_own: false,
            left,
        }
    }

    fn try_clone(&self, alloc: Global) -> Result<MemOutcome, NoMemory>
        ensures { IfOk result (λ copy. copy ≡ self.now) }
    {
        Ok(MemOutcome {
            is_own: self.is_own,
            left: self.left.try_clone(alloc)?,
        })
    }

    /// The node leaves the place, and the outcome stays behind.
    fn leave_behind(&mut self)
        ensures { self.new ≡ older self.old.left }
    {
        self.is_own = false;
    }

    /// The file as it is now takes the place of any file among its own.
    fn settle(&mut self, alloc: Global, node: &MemNode) -> Result<(), NoMemory>
        ensures { OnOk result (self.new ≡ settled node.now self.old) }
    {
        if self.is_own && matches!(self.left, MemLeft::AnyFile) {
            self.left = MemLeft::This(node.try_clone(alloc)?);
        }
        Ok(())
    }

    /// Gives a node this device.
    fn put_dev(&mut self, dev: u64)
        ensures { self.new ≡ outcome_on dev self.old }
    {
        if let MemLeft::This(node) = &mut self.left {
            node.put_dev(dev);
        }
    }
}

/// What a crash may leave at a place: the later ones stand last.
#[derive(Drop)]
pub struct OutcomeList {
    outcomes: Vec<MemOutcome>,
}

impl Model for OutcomeList {
    ghost use Rattle.std.specs.Prelude.{List};
    ghost use Rattle.sd_io.specs.Outcomes.{Outcome};

    ghost Value = { List Outcome };

    ghost view = { λ list. list.outcomes.items };
}

impl OutcomeList {
    /// One outcome alone.
    pub fn only(alloc: Global, outcome: MemOutcome) -> Result<OutcomeList, NoMemory>
        ensures { IfOk result (λ list. list ≡ outcome ∷ []) }
    {
        let mut outcomes = Vec::new(alloc);
        outcomes.push(outcome)?;
        Ok(OutcomeList { outcomes })
    }

    pub fn try_clone(&self) -> Result<OutcomeList, NoMemory>
        ensures { IfOk result (λ copy. copy ≡ self.now) }
    {
        let alloc = *self.outcomes.allocator();
        let mut outcomes = Vec::new(alloc);
        for outcome in self.outcomes.iter() {
            outcomes.push(outcome.try_clone(alloc)?)?;
        }
        Ok(OutcomeList { outcomes })
    }

    pub fn push(&mut self, outcome: MemOutcome) -> Result<(), NoMemory>
        ensures { OnOk result (self.new ≡ self.old ++ outcome ∷ []) }
    {
        self.outcomes.push(outcome)?;
        Ok(())
    }

    pub fn append(&mut self, mut more: OutcomeList) -> Result<(), NoMemory>
        ensures { OnOk result (self.new ≡ self.old ++ more) }
    {
        self.outcomes.append(&mut more.outcomes)?;
        Ok(())
    }

    /// Drops all but the standing node's own.
    pub fn keep_own(&mut self)
        ensures { self.new ≡ own_of self.old }
    {
        self.outcomes.retain(|outcome| outcome.is_own);
    }

    /// The node leaves the place, and its outcomes stay behind.
    pub fn leave_behind(&mut self)
        ensures { self.new ≡ left_behind self.old }
    {
        for outcome in self.outcomes.iter_mut() {
            outcome.leave_behind();
        }
    }

    /// The file as it is now takes the place of any file among its own outcomes.
    pub fn settle(&mut self, node: &MemNode) -> Result<(), NoMemory>
        ensures { OnOk result (self.new ≡ map (settled node.now) self.old) }
    {
        let alloc = *self.outcomes.allocator();
        for outcome in self.outcomes.iter_mut() {
            outcome.settle(alloc, node)?;
        }
        Ok(())
    }

    /// Gives each node this device.
    pub fn put_dev(&mut self, dev: u64)
        ensures { self.new ≡ map (outcome_on dev) self.old }
    {
        for outcome in self.outcomes.iter_mut() {
            outcome.put_dev(dev);
        }
    }

    pub fn is_empty(&self) -> bool
        ensures { IsTrue result ↔ (self.now ≡ []) }
    {
        self.outcomes.is_empty()
    }

    /// Whether there is an outcome other than absent.
    pub fn has_other(&self) -> bool
        ensures { result ≡ has_other self.now }
    {
        self.outcomes.iter().any(|outcome| !outcome.left.is_gone())
    }

    /// What the image of a choice takes, where i places before this one have an outcome other than absent.
    pub fn chosen(&self, choice: u64, i: usize) -> &MemLeft
        requires { has_other self.now ≡ true }
        ensures { left_of result.now ≡ chosen choice i self.now }
    {
        let rotated = choice.rotate_right((i % 64) as u32);
        let number = rotated % self.outcomes.len() as u64;
        &self.outcomes[number as usize].left
    }
}
