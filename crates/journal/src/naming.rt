//! The journal's name.

ghost use Rattle.std.specs.Prelude.{◌≤◌, List, IsTrue, IfErr, OnOk};
ghost use Rattle.sd_io.specs.Disk.{SameLists};
ghost use Rattle.journal_text.specs.declared.line.Line.{Line};
ghost use Rattle.sd_course.specs.Course.{course};
ghost use Rattle.change_phases.specs.Between.{Work};
ghost use Rattle.change_phases.specs.Phases.{naming, placing, IsIn};
ghost use Rattle.journal.specs.Keeping.{KeepsPhase};
ghost use Rattle.journal.specs.Naming.{MayBeNamed, MovesTo, NamingFails};

use sd_io::{Disk, DiskFault};

/// Gives a journal that was written under a reserved name of the root its own, and puts the names in the root on the
/// medium.
///
/// On a disk that tells its tree, where all stages are there for good, each crash at any moment leaves the files old, and the
/// journal with its stages or none. After a refusal a crash may still show the journal, so nothing is removed. After
/// `Ok` it is there for good.
pub(crate) fn give_name<D: Disk>(
    disk: &mut D,
    temporary: &str,
    journal: &str,
    root: &str,
) -> Result<(), DiskFault>
    ensures kept { IsTrue D.tells → (work : Work) (lines : List Line) → MayBeNamed work lines temporary.now journal.now root.now (D.state disk.old)
        → KeepsPhase naming work lines (D.state disk.old) (D.state disk.new) }
    ensures named { IsTrue D.tells → (work : Work) (lines : List Line) → MayBeNamed work lines temporary.now journal.now root.now (D.state disk.old)
        → OnOk result (IsIn placing work lines (D.state disk.new)) }
    ensures fails { IfErr result (NamingFails (course D.tells (D.state disk.old) (D.state disk.new)) temporary.now journal.now root.now) }
    ensures tree { IsTrue D.tells → OnOk result (MovesTo temporary.now journal.now (D.state disk.old).tree (D.state disk.new).tree) }
    ensures lists { SameLists (D.state disk.old) (D.state disk.new) }
    ensures never_falls { (D.state disk.old).faults ≤ (D.state disk.new).faults }
{
    disk.rename(temporary, journal)?;
    disk.sync_dir(root)
}
