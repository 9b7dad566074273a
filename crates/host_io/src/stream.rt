//! The host's streams.

ghost use Rattle.std.specs.Prelude.{◌≡◌, ◌<◌, ◌≤◌, [], length, IfOk, OnOk, OnErr, IsErr};
ghost use Rattle.sd_io.specs.Count.{HasRisen};
ghost use Rattle.sd_io.specs.Calls.{count_after};
ghost use Rattle.sd_io.specs.Streams.{taken_after};
ghost use Rattle.host_io.specs.HostStreams.{host_source_state, host_sink_state};

use sd_io::{Failed, Sink, Source};
use std::io::{Read, Write};

/// A stream of the host that is read, as standard input.
#[derive(Drop)]
pub struct HostSource<R: Read + Drop> {
    input: R,
    taken: u64,
    faults: u64,
}

impl<R: Read + Drop> HostSource<R> {
    /// Nothing was read, and no read failed.
    pub fn new(input: R) -> HostSource<R>
        ensures { host_source_state result ≡ record { left = []; taken = 0; faults = 0 } }
    {
        HostSource {
            input,
            taken: 0,
            faults: 0,
        }
    }
}

impl<R: Read + Drop> Source for HostSource<R> {
    ghost use Rattle.std.specs.Prelude.{false};
    ghost use Rattle.host_io.specs.HostStreams.{host_source_state};

    ghost tells = { false };

    ghost state = { host_source_state };

    fn read(&mut self, buf: &mut [u8]) -> Result<usize, Failed>
        ensures within { IfOk result (λ n. n ≤ length buf.old) }
        ensures taken { IfOk result (λ n. (host_source_state self.new).taken ≡ taken_after (host_source_state self.old).taken n) }
        ensures refused_left { OnErr result ((host_source_state self.new).left ≡ (host_source_state self.old).left) }
        ensures refused_taken { OnErr result ((host_source_state self.new).taken ≡ (host_source_state self.old).taken) }
        ensures never_falls { (host_source_state self.old).faults ≤ (host_source_state self.new).faults }
        ensures cause { IsErr result → HasRisen (host_source_state self.old).faults (host_source_state self.new).faults }
        ensures no_fault { OnOk result ((host_source_state self.new).faults ≡ (host_source_state self.old).faults) }
        ensures one_fault { OnErr result ((host_source_state self.new).faults ≡ count_after (host_source_state self.old).faults) }
    {
        match self.input.read(buf) {
            Ok(n) => {
                self.taken = self.taken.saturating_add(n as u64);
                Ok(n)
            }
            Err(_) => {
                self.faults = self.faults.saturating_add(1);
                Err(Failed)
            }
        }
    }
}

/// A stream of the host that is written, as standard output.
#[derive(Drop)]
pub struct HostSink<W: Write + Drop> {
    output: W,
    faults: u64,
}

impl<W: Write + Drop> HostSink<W> {
    /// No write failed.
    pub fn new(output: W) -> HostSink<W>
        ensures { host_sink_state result ≡ record { held = []; faults = 0 } }
    {
        HostSink { output, faults: 0 }
    }
}

impl<W: Write + Drop> Sink for HostSink<W> {
    ghost use Rattle.std.specs.Prelude.{false};
    ghost use Rattle.host_io.specs.HostStreams.{host_sink_state};

    ghost tells = { false };

    ghost state = { host_sink_state };

    fn write(&mut self, bytes: &[u8]) -> Result<usize, Failed>
        ensures within { IfOk result (λ n. n ≤ length bytes.now) }
        ensures progress { IfOk result (λ n. 0 < length bytes.now → 0 < n) }
        ensures refused { OnErr result ((host_sink_state self.new).held ≡ (host_sink_state self.old).held) }
        ensures never_falls { (host_sink_state self.old).faults ≤ (host_sink_state self.new).faults }
        ensures cause { IsErr result → HasRisen (host_sink_state self.old).faults (host_sink_state self.new).faults }
        ensures no_fault { OnOk result ((host_sink_state self.new).faults ≡ (host_sink_state self.old).faults) }
        ensures one_fault { OnErr result ((host_sink_state self.new).faults ≡ count_after (host_sink_state self.old).faults) }
    {
        match self.output.write(bytes) {
            Ok(n) if n > 0 || bytes.is_empty() => Ok(n),
            _ => {
                self.faults = self.faults.saturating_add(1);
                Err(Failed)
            }
        }
    }
}
