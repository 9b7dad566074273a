//! Counted calls, and which of them are to fail.

ghost use Rattle.std.specs.Prelude.{◌≡◌, ◌≤◌, ◌↔◌, ◌++◌, ◌∷◌, [], None, Some, IsTrue, OnOk, OnErr, IfErr, IsErr};
ghost use Rattle.sd_io.specs.Count.{HasRisen};
ghost use Rattle.sd_io.specs.Calls.{count_after, earliest, IsStopped, FailsAt};

use sd_io::{DiskFault, NoMemory};
use std::alloc::Global;

/// Counts the calls of a disk in memory from 1, and the faults among them.
#[derive(Drop)]
pub struct CallCounter {
    pub calls: u64,
    pub faults: u64,
    pub failing: Vec<u64>,
    /// The first call from which all fail.
    pub stop: Option<u64>,
}

impl CallCounter {
    pub fn new(alloc: Global) -> CallCounter
        ensures calls { result.calls ≡ 0 }
        ensures faults { result.faults ≡ 0 }
        ensures failing { result.failing.items ≡ [] }
        ensures stop { result.stop ≡ None }
    {
        CallCounter {
            calls: 0,
            faults: 0,
            failing: Vec::new(alloc),
            stop: None,
        }
    }

    /// That call is to fail.
    pub fn fail_at(&mut self, call: u64) -> Result<(), NoMemory>
        ensures added { OnOk result (self.new.failing.items ≡ self.old.failing.items ++ call ∷ []) }
        ensures refused { OnErr result (self.new.failing.items ≡ self.old.failing.items) }
        ensures stop { self.new.stop ≡ self.old.stop }
        ensures calls { self.new.calls ≡ self.old.calls }
        ensures faults { self.new.faults ≡ self.old.faults }
    {
        self.failing.push(call)?;
        Ok(())
    }

    /// That call and all later ones are to fail.
    pub fn stop_at(&mut self, call: u64)
        ensures stop { self.new.stop ≡ Some (earliest self.old.stop call) }
        ensures failing { self.new.failing.items ≡ self.old.failing.items }
        ensures calls { self.new.calls ≡ self.old.calls }
        ensures faults { self.new.faults ≡ self.old.faults }
    {
        let first = match self.stop {
            None => call,
            Some(stop) => stop.min(call),
        };
        self.stop = Some(first);
    }

    /// Whether all calls from this one on fail.
    fn is_stopped(&self) -> bool
        ensures { IsTrue result ↔ IsStopped self.now.stop self.now.calls }
    {
        match self.stop {
            None => false,
            Some(stop) => stop <= self.calls,
        }
    }

    /// Counts one more call, and answers whether it is to fail.
    pub fn count(&mut self) -> bool
        ensures to_fail { IsTrue result ↔ FailsAt self.old.failing.items self.old.stop (count_after self.old.calls) }
        ensures calls { self.new.calls ≡ count_after self.old.calls }
        ensures faults { self.new.faults ≡ self.old.faults }
        ensures failing { self.new.failing.items ≡ self.old.failing.items }
        ensures stop { self.new.stop ≡ self.old.stop }
    {
        self.calls = self.calls.saturating_add(1);
        self.failing.contains(&self.calls) || self.is_stopped()
    }

    /// Counts one more fault.
    pub fn fault(&mut self) -> DiskFault
        ensures failed { result ≡ DiskFault.Failed }
        ensures faults { self.new.faults ≡ count_after self.old.faults }
        ensures risen { HasRisen self.old.faults self.new.faults }
        ensures later { self.old.faults ≤ self.new.faults }
        ensures calls { self.new.calls ≡ self.old.calls }
        ensures failing { self.new.failing.items ≡ self.old.failing.items }
        ensures stop { self.new.stop ≡ self.old.stop }
    {
        self.faults = self.faults.saturating_add(1);
        DiskFault::Failed
    }

    /// Counts one more call, and fails where it is to fail.
    pub fn pass(&mut self) -> Result<(), DiskFault>
        ensures to_fail { IsErr result ↔ FailsAt self.old.failing.items self.old.stop (count_after self.old.calls) }
        ensures fault { IfErr result (λ fault. fault ≡ DiskFault.Failed) }
        ensures passed { OnOk result (self.new.faults ≡ self.old.faults) }
        ensures failed { OnErr result (self.new.faults ≡ count_after self.old.faults) }
        ensures risen { OnErr result (HasRisen self.old.faults self.new.faults) }
        ensures later { self.old.faults ≤ self.new.faults }
        ensures calls { self.new.calls ≡ count_after self.old.calls }
        ensures failing { self.new.failing.items ≡ self.old.failing.items }
        ensures stop { self.new.stop ≡ self.old.stop }
    {
        if self.count() {
            Err(self.fault())
        } else {
            Ok(())
        }
    }
}
