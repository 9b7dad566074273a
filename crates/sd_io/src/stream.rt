//! Streams of bytes.

ghost use Rattle.std.specs.Prelude.{◌≡◌, ◌<◌, ◌≤◌, Bool, IsTrue, [], ◌++◌, take, drop, length, IfOk, OnOk, OnErr, IsErr};
ghost use Rattle.sd_io.specs.Count.{HasRisen};
ghost use Rattle.sd_io.specs.Streams.{SourceState, SinkState, GivesBytes, taken_after};

use crate::Failed;

/// A source of bytes. It tells its counts always, and the bytes that are left where it can.
pub trait Source {
    /// Whether it tells the bytes that are left.
    ghost tells: { Bool };

    /// What it tells.
    ghost state: { Self → SourceState };

    /// Fills a prefix of `buf` with the next bytes and answers how many. 0 for a buffer that isn't empty is the end of
    /// input. Refuses with a counted fault alone, and then gives nothing.
    fn read(&mut self, buf: &mut [u8]) -> Result<usize, Failed>
        ensures within { IfOk result (λ n. n ≤ length buf.old) }
        ensures given { IsTrue tells → IfOk result (λ n. GivesBytes (state self.old) buf.old n (state self.new) buf.new) }
        ensures end { IsTrue tells → IfOk result (λ n. n ≡ 0 → 0 < length buf.old → (state self.old).left ≡ []) }
        ensures taken { IfOk result (λ n. (state self.new).taken ≡ taken_after (state self.old).taken n) }
        ensures refused_left { OnErr result ((state self.new).left ≡ (state self.old).left) }
        ensures refused_taken { OnErr result ((state self.new).taken ≡ (state self.old).taken) }
        ensures never_falls { (state self.old).faults ≤ (state self.new).faults }
        ensures cause { IsErr result → HasRisen (state self.old).faults (state self.new).faults };
}

/// A sink of bytes. It tells its count of faults always, and the bytes that it holds where it can.
pub trait Sink {
    /// Whether it tells the bytes that it holds.
    ghost tells: { Bool };

    /// What it tells.
    ghost state: { Self → SinkState };

    /// Appends a prefix of `bytes` and answers how long it is: 0 only for no bytes. Refuses with a counted fault alone,
    /// and then takes nothing.
    fn write(&mut self, bytes: &[u8]) -> Result<usize, Failed>
        ensures within { IfOk result (λ n. n ≤ length bytes.now) }
        ensures progress { IfOk result (λ n. 0 < length bytes.now → 0 < n) }
        ensures appended { IsTrue tells → IfOk result (λ n. (state self.new).held ≡ (state self.old).held ++ take n bytes.now) }
        ensures refused { OnErr result ((state self.new).held ≡ (state self.old).held) }
        ensures never_falls { (state self.old).faults ≤ (state self.new).faults }
        ensures cause { IsErr result → HasRisen (state self.old).faults (state self.new).faults };
}
