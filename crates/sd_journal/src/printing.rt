//! What a recovery prints. No memory is taken for it.

ghost use Rattle.std.specs.Prelude.{◌≡◌, ◌≤◌, ◌++◌, IsTrue, OnOk, OnErr, IsErr};
ghost use Rattle.sd_io.specs.Count.{HasRisen};
ghost use Rattle.sd_course.specs.Course.{AppendsPrefix};
ghost use Rattle.sd_journal.specs.Printing.{recovered_text};

use itoa::Buffer;
use sd_io::{Failed, Sink};
use stream_rewrite::write_all;

/// Prints how many files were recovered. Refuses with a counted fault of the sink alone, after a prefix of the line.
pub fn print_recovered<O: Sink>(out: &mut O, files: u128) -> Result<(), Failed>
    ensures printed { IsTrue O.tells → OnOk result ((O.state out.new).held ≡ (O.state out.old).held ++ recovered_text files) }
    ensures refused { IsTrue O.tells → OnErr result (AppendsPrefix (O.state out.old).held (recovered_text files) (O.state out.new).held) }
    ensures never_falls { (O.state out.old).faults ≤ (O.state out.new).faults }
    ensures cause { IsErr result → HasRisen (O.state out.old).faults (O.state out.new).faults }
{
    let mut digits = Buffer::new();
    write_all(out, b"recovered ")?;
    write_all(out, digits.format(files).as_bytes())?;
    write_all(out, b"\n")
}
