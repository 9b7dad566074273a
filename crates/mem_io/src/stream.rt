//! A source and a sink in memory.

ghost use Rattle.std.specs.Prelude.{◌≡◌, ◌<◌, ◌≤◌, ◌-◌, ◌↔◌, ◌⊎◌, ◌++◌, [], take, length, min, IfOk, OnOk, OnErr, IsErr, None, Some, vec_len};
ghost use Rattle.std.specs.Vec.{vec_capacity};
ghost use Rattle.sd_io.specs.Calls.{count_after, IsNextToFail};
ghost use Rattle.sd_io.specs.Count.{HasRisen};
ghost use Rattle.sd_io.specs.Streams.{GivesBytes, taken_after};

use sd_io::{Failed, NoMemory, Sink, Source};
use std::alloc::Global;

/// Which call is to fail, and how many failed.
#[derive(Clone, Copy)]
struct Failing {
    calls: u64,
    failing: Option<u64>,
    faults: u64,
}

impl Failing {
    fn new() -> Failing
        ensures { result ≡ record { calls = 0; failing = None; faults = 0 } }
    {
        Failing {
            calls: 0,
            failing: None,
            faults: 0,
        }
    }

    /// Counts a call, and fails where it is to fail.
    fn pass(&mut self) -> Result<(), Failed>
        ensures to_fail { IsErr result ↔ IsNextToFail self.old.failing self.old.calls }
        ensures passed { OnOk result (self.new.faults ≡ self.old.faults) }
        ensures failed { OnErr result (self.new.faults ≡ count_after self.old.faults) }
        ensures risen { OnErr result (HasRisen self.old.faults self.new.faults) }
        ensures later { self.old.faults ≤ self.new.faults }
        ensures calls { self.new.calls ≡ count_after self.old.calls }
        ensures failing { self.new.failing ≡ self.old.failing }
    {
        self.calls = self.calls.saturating_add(1);
        if self.failing == Some(self.calls) {
            return Err(self.fault());
        }
        Ok(())
    }

    /// Counts a fault.
    fn fault(&mut self) -> Failed
        ensures faults { self.new.faults ≡ count_after self.old.faults }
        ensures risen { HasRisen self.old.faults self.new.faults }
        ensures later { self.old.faults ≤ self.new.faults }
        ensures calls { self.new.calls ≡ self.old.calls }
        ensures failing { self.new.failing ≡ self.old.failing }
    {
        self.faults = self.faults.saturating_add(1);
        Failed
    }
}

/// A source of given bytes, which gives them in pieces.
#[derive(Drop)]
pub struct MemSource {
    bytes: Vec<u8>,
    given: usize,
    piece: usize,
    taken: u64,
    failing: Failing,
    ghost within: { given ≤ vec_len bytes },
    ghost gives_some: { 0 < piece },
}

impl MemSource {
    ghost use Rattle.mem_io.specs.MemStreams.{source_state, piece_of, read_count, failing_read};

    /// A source of a copy of these bytes, which gives at most `piece` of them in a read. Refuses for want of memory alone.
    pub fn new(alloc: Global, bytes: &[u8], piece: usize) -> Result<MemSource, NoMemory>
        requires { 0 < piece }
        ensures state { IfOk result (λ source. source_state source ≡ record { left = bytes.now; taken = 0; faults = 0 }) }
        ensures piece { IfOk result (λ source. piece_of source ≡ piece) }
        ensures reads { IfOk result (λ source. read_count source ≡ 0) }
        ensures failing { IfOk result (λ source. failing_read source ≡ None) }
    {
        Ok(MemSource {
            bytes: bytes.to_vec(alloc)?,
            given: 0,
            piece,
            taken: 0,
            failing: Failing::new(),
        })
    }

    /// The read of that number, counted from 1, fails. A later call replaces an earlier one.
    pub fn fail_at(&mut self, call: u64)
        ensures failing { failing_read self.new ≡ Some call }
        ensures state { source_state self.new ≡ source_state self.old }
        ensures piece { piece_of self.new ≡ piece_of self.old }
        ensures reads { read_count self.new ≡ read_count self.old }
    {
        self.failing.failing = Some(call);
    }

    /// How many reads failed.
    pub fn faults(&self) -> u64
        ensures { result ≡ (source_state self.now).faults }
    {
        self.failing.faults
    }
}

impl Source for MemSource {
    ghost use Rattle.std.specs.Prelude.{true};
    ghost use Rattle.mem_io.specs.MemStreams.{source_state, piece_of, read_count, failing_read};

    ghost tells = { true };

    ghost state = { source_state };

    /// Fails exactly where it is the read that is to fail.
    fn read(&mut self, buf: &mut [u8]) -> Result<usize, Failed>
        ensures within { IfOk result (λ n. n ≤ length buf.old) }
        ensures given { IfOk result (λ n. GivesBytes (source_state self.old) buf.old n (source_state self.new) buf.new) }
        ensures count { IfOk result (λ n. n ≡ min (min (length (source_state self.old).left) (piece_of self.old)) (length buf.old)) }
        ensures end { IfOk result (λ n. n ≡ 0 → 0 < length buf.old → (source_state self.old).left ≡ []) }
        ensures taken { IfOk result (λ n. (source_state self.new).taken ≡ taken_after (source_state self.old).taken n) }
        ensures fails { IsErr result ↔ IsNextToFail (failing_read self.old) (read_count self.old) }
        ensures refused_left { OnErr result ((source_state self.new).left ≡ (source_state self.old).left) }
        ensures refused_taken { OnErr result ((source_state self.new).taken ≡ (source_state self.old).taken) }
        ensures never_falls { (source_state self.old).faults ≤ (source_state self.new).faults }
        ensures cause { IsErr result → HasRisen (source_state self.old).faults (source_state self.new).faults }
        ensures no_fault { OnOk result ((source_state self.new).faults ≡ (source_state self.old).faults) }
        ensures one_fault { OnErr result ((source_state self.new).faults ≡ count_after (source_state self.old).faults) }
        ensures piece { piece_of self.new ≡ piece_of self.old }
        ensures reads { read_count self.new ≡ count_after (read_count self.old) }
        ensures failing { failing_read self.new ≡ failing_read self.old }
    {
        self.failing.pass()?;
        let left = &self.bytes[self.given..];
        let n = left.len().min(self.piece).min(buf.len());
        buf[..n].copy_from_slice(&left[..n]);
        self.given += n;
        self.taken = self.taken.saturating_add(n as u64);
        Ok(n)
    }
}

/// A sink that holds what it is given, up to a number of bytes.
#[derive(Drop)]
pub struct MemSink {
    bytes: Vec<u8>,
    room: usize,
    failing: Failing,
    ghost within: { vec_len bytes ≤ room },
    ghost reserved: { room ≤ vec_capacity bytes },
}

impl MemSink {
    ghost use Rattle.mem_io.specs.MemStreams.{sink_state, room_of, write_count, failing_write};

    /// A sink with room for so many bytes, past which it fails. Refuses for want of memory alone.
    pub fn new(alloc: Global, room: usize) -> Result<MemSink, NoMemory>
        ensures state { IfOk result (λ sink. sink_state sink ≡ record { held = []; faults = 0 }) }
        ensures room { IfOk result (λ sink. room_of sink ≡ room) }
        ensures writes { IfOk result (λ sink. write_count sink ≡ 0) }
        ensures failing { IfOk result (λ sink. failing_write sink ≡ None) }
    {
        Ok(MemSink {
            bytes: Vec::with_capacity(alloc, room)?,
            room,
            failing: Failing::new(),
        })
    }

    /// What it holds.
    pub fn bytes(&self) -> &[u8]
        ensures { result.now ≡ (sink_state self.now).held }
    {
        &self.bytes
    }

    /// The write of that number, counted from 1, fails. A later call replaces an earlier one.
    pub fn fail_at(&mut self, call: u64)
        ensures failing { failing_write self.new ≡ Some call }
        ensures state { sink_state self.new ≡ sink_state self.old }
        ensures room { room_of self.new ≡ room_of self.old }
        ensures writes { write_count self.new ≡ write_count self.old }
    {
        self.failing.failing = Some(call);
    }

    /// How many writes failed.
    pub fn faults(&self) -> u64
        ensures { result ≡ (sink_state self.now).faults }
    {
        self.failing.faults
    }
}

impl Sink for MemSink {
    ghost use Rattle.std.specs.Prelude.{true};
    ghost use Rattle.mem_io.specs.MemStreams.{sink_state, room_of, write_count, failing_write};

    ghost tells = { true };

    ghost state = { sink_state };

    /// Fails exactly where it is the write that is to fail, or where there are bytes to take and no room.
    fn write(&mut self, bytes: &[u8]) -> Result<usize, Failed>
        ensures within { IfOk result (λ n. n ≤ length bytes.now) }
        ensures progress { IfOk result (λ n. 0 < length bytes.now → 0 < n) }
        ensures appended { IfOk result (λ n. (sink_state self.new).held ≡ (sink_state self.old).held ++ take n bytes.now) }
        ensures count { IfOk result (λ n. n ≡ min (length bytes.now) (room_of self.old - length (sink_state self.old).held)) }
        ensures fails { IsErr result ↔ (IsNextToFail (failing_write self.old) (write_count self.old)
            ⊎ ((0 < length bytes.now) × (room_of self.old ≤ length (sink_state self.old).held))) }
        ensures refused { OnErr result ((sink_state self.new).held ≡ (sink_state self.old).held) }
        ensures never_falls { (sink_state self.old).faults ≤ (sink_state self.new).faults }
        ensures cause { IsErr result → HasRisen (sink_state self.old).faults (sink_state self.new).faults }
        ensures no_fault { OnOk result ((sink_state self.new).faults ≡ (sink_state self.old).faults) }
        ensures one_fault { OnErr result ((sink_state self.new).faults ≡ count_after (sink_state self.old).faults) }
        ensures room { room_of self.new ≡ room_of self.old }
        ensures writes { write_count self.new ≡ count_after (write_count self.old) }
        ensures failing { failing_write self.new ≡ failing_write self.old }
    {
        self.failing.pass()?;
        let n = bytes.len().min(self.room - self.bytes.len());
        if n == 0 && !bytes.is_empty() {
            return Err(self.failing.fault());
        }
        match self.bytes.extend_from_slice(&bytes[..n]) {
            Ok(()) => Ok(n),
            Err(_) => Err(self.failing.fault()),
        }
    }
}
