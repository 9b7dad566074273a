//! The files of a journal, put in place.

ghost use Rattle.std.specs.Prelude.{◌≤◌, [], ◌∷◌, List, IsTrue, IfErr, OnOk, Contains};
ghost use Rattle.sd_io.specs.Disk.{SameLists};
ghost use Rattle.journal_text.specs.declared.line.Line.{Line};
ghost use Rattle.change_phases.specs.Between.{Work};
ghost use Rattle.change_phases.specs.Phases.{placing};
ghost use Rattle.journal.specs.Keeping.{IsSettledIn, KeepsPhase};
ghost use Rattle.sd_course.specs.Course.{course};
ghost use Rattle.journal.specs.Placing.{AreNewForGood, PlacesOne, ChangesFiles, HasLineCause};

use crate::stages::stage_path;
use file_rewrite::{JobFault, put_file};
use journal_text::{Journal, Line};
use sd_io::Disk;
use std::alloc::Global;

/// Puts the staged bytes of each line's file in place, in order.
///
/// Refuses as the first of the files that is refused. On a disk that tells its tree, where a journal of these lines for some work is
/// there for good, with its stages, every crash at any moment leaves each file old or new, the journal and the stages;
/// and what was settled is so at every exit. After `Ok` every crash leaves each file new.
pub(crate) fn place_files<D: Disk>(
    alloc: Global,
    disk: &mut D,
    journal: &Journal,
) -> Result<(), JobFault>
    ensures kept { IsTrue D.tells → (work : Work) → IsSettledIn placing work journal.now (D.state disk.old)
        → KeepsPhase placing work journal.now (D.state disk.old) (D.state disk.new) }
    ensures placed { IsTrue D.tells → (work : Work) → IsSettledIn placing work journal.now (D.state disk.old)
        → OnOk result (AreNewForGood work (D.state disk.new)) }
    ensures tree { IsTrue D.tells → OnOk result (ChangesFiles journal.now (D.state disk.old).tree (D.state disk.new).tree) }
    ensures fails { IfErr result (HasLineCause (course D.tells (D.state disk.old) (D.state disk.new)) journal.now) }
    ensures lists { SameLists (D.state disk.old) (D.state disk.new) }
    ensures never_falls { (D.state disk.old).faults ≤ (D.state disk.new).faults }
{
    for line in journal.lines() {
        place_file(alloc, disk, line)?;
    }
    Ok(())
}

/// Puts the staged bytes of one line's file in its place.
fn place_file<D: Disk>(alloc: Global, disk: &mut D, line: &Line) -> Result<(), JobFault>
    ensures kept { IsTrue D.tells → (work : Work) (lines : List Line) → Contains lines line.now → IsSettledIn placing work lines (D.state disk.old)
        → KeepsPhase placing work lines (D.state disk.old) (D.state disk.new) }
    ensures placed { IsTrue D.tells → (work : Work) (lines : List Line) → Contains lines line.now → IsSettledIn placing work lines (D.state disk.old)
        → OnOk result (PlacesOne work line.now (D.state disk.old) (D.state disk.new)) }
    ensures tree { IsTrue D.tells → OnOk result (ChangesFiles (line.now ∷ []) (D.state disk.old).tree (D.state disk.new).tree) }
    ensures fails { IfErr result (HasLineCause (course D.tells (D.state disk.old) (D.state disk.new)) (line.now ∷ [])) }
    ensures lists { SameLists (D.state disk.old) (D.state disk.new) }
    ensures never_falls { (D.state disk.old).faults ≤ (D.state disk.new).faults }
{
    let stage = stage_path(alloc, line)?;
    let bytes = disk.read_file(alloc, stage.as_str())?;
    put_file(alloc, disk, line.path.as_str(), &bytes)
}
