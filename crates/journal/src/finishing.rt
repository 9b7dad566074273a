//! A change whose journal is there for good, carried out.

ghost use Rattle.std.specs.Prelude.{◌≡◌, ◌≤◌, ◌++◌, ◌∷◌, [], IsTrue, None, IfErr, OnOk};
ghost use Rattle.sd_io.specs.Tree.{NameList, node_at};
ghost use Rattle.sd_io.specs.Disk.{SameLists};
ghost use Rattle.sd_course.specs.Course.{course};
ghost use Rattle.change_phases.specs.Between.{Work, journal_name, journal_of};
ghost use Rattle.change_phases.specs.Phases.{placing, cleared, IsIn};
ghost use Rattle.journal.specs.Keeping.{AreRootPaths, IsSettledIn, KeepsBetween};
ghost use Rattle.journal.specs.Placing.{HasLineCause};
ghost use Rattle.journal.specs.Finishing.{StagesAreGone, HasJournalAt, CarriesOut};

use crate::clearing::{remove_journal, remove_stages, sync_folders};
use crate::placing::place_files;
use file_rewrite::JobFault;
use journal_text::Journal;
use sd_io::Disk;
use std::alloc::Global;

/// Carries a change out whose journal is there for good: puts each file in place, removes the journal, and then the
/// stages.
///
/// On a disk that tells its tree every image that a crash at any moment leaves is between old and new, and what was
/// settled is so at every exit. After `Ok` each crash leaves each file new, and no journal; no stage stands, and none is found after a crash.
pub(crate) fn finish<D: Disk>(
    alloc: Global,
    disk: &mut D,
    root: &str,
    path: &str,
    journal: &Journal,
) -> Result<(), JobFault>
    ensures kept { IsTrue D.tells → (work : Work) → AreRootPaths work root.now path.now → IsSettledIn placing work journal.now (D.state disk.old)
        → KeepsBetween work (D.state disk.old) (D.state disk.new) }
    ensures done { IsTrue D.tells → (work : Work) → AreRootPaths work root.now path.now → IsSettledIn placing work journal.now (D.state disk.old)
        → OnOk result (IsIn cleared work journal.now (D.state disk.new)) }
    ensures stages { IsTrue D.tells → (work : Work) → AreRootPaths work root.now path.now → IsSettledIn placing work journal.now (D.state disk.old)
        → OnOk result (StagesAreGone journal.now (D.state disk.new)) }
    ensures tree { IsTrue D.tells → (work : Work) → AreRootPaths work root.now path.now → IsSettledIn placing work journal.now (D.state disk.old)
        → OnOk result (CarriesOut journal.now (journal_of work) (D.state disk.old).tree (D.state disk.new).tree) }
    ensures gone { IsTrue D.tells → (folder : NameList) → HasJournalAt (D.state disk.old).tree root.now path.now folder
        → OnOk result (node_at (D.state disk.new).tree (folder ++ journal_name ∷ []) ≡ None) }
    ensures fails { (IsTrue D.tells → (folder : NameList) × HasJournalAt (D.state disk.old).tree root.now path.now folder)
        → IfErr result (HasLineCause (course D.tells (D.state disk.old) (D.state disk.new)) journal.now) }
    ensures lists { SameLists (D.state disk.old) (D.state disk.new) }
    ensures never_falls { (D.state disk.old).faults ≤ (D.state disk.new).faults }
{
    place_files(alloc, disk, journal)?;
    remove_journal(disk, root, path)?;
    remove_stages(alloc, disk, journal)?;
    sync_folders(disk, journal)?;
    Ok(())
}
