//! The writing of bytes to a stream.

ghost use Rattle.std.specs.Prelude.{◌≡◌, ◌≤◌, ◌++◌, IsTrue, OnOk, OnErr, IsErr};
ghost use Rattle.sd_io.specs.Count.{HasRisen};
ghost use Rattle.sd_course.specs.Course.{AppendsPrefix};

use sd_io::{Failed, Sink};

/// Writes all of the bytes. Refuses with a counted fault of the sink alone, after a prefix of them.
pub fn write_all<O: Sink>(out: &mut O, bytes: &[u8]) -> Result<(), Failed>
    ensures written { IsTrue O.tells → OnOk result ((O.state out.new).held ≡ (O.state out.old).held ++ bytes.now) }
    ensures refused { IsTrue O.tells → OnErr result (AppendsPrefix (O.state out.old).held bytes.now (O.state out.new).held) }
    ensures never_falls { (O.state out.old).faults ≤ (O.state out.new).faults }
    ensures cause { IsErr result → HasRisen (O.state out.old).faults (O.state out.new).faults }
{
    let mut at = 0;
    while at < bytes.len() {
        at += out.write(&bytes[at..])?;
    }
    Ok(())
}
