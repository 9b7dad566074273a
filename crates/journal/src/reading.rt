//! The journal that stands in a root, and its stages, read.

ghost use Rattle.std.specs.Prelude.{◌≡◌, ◌<◌, ◌≤◌, ◌↔◌, ◌++◌, ◌∷◌, [], false, true, IsTrue, IsSome, IfOk, IfErr, IfSome, OnOk, IsErrOf, Some};
ghost use Rattle.sd_io.specs.Tree.{NameList};
ghost use Rattle.sd_io.specs.Disk.{SameTree, SameLists, HasCause};
ghost use Rattle.sd_io.specs.Files.{path_text, file_named, LeadsNowhere};
ghost use Rattle.sd_io.specs.Lists.{directory_of};
ghost use Rattle.sd_course.specs.Course.{course};
ghost use Rattle.change_phases.specs.Between.{journal_name};
ghost use Rattle.journal.specs.Finding.{LeavesLists, LookFails};
ghost use Rattle.journal.specs.Reading.{ReadsJournal, JournalFails, IsStageThere, AreStagesThere, StageFails, FailsAtFirst, ReadsRoot};
ghost use Rattle.journal.specs.Recovering.{RecoverFails};

use crate::JournalFault;
use crate::finding::find_entry;
use crate::recovering::JOURNAL_NAME;
use crate::stages::stage_path;
use journal_text::{Journal, Line, read_journal};
use sd_base::{NoMemory, Text};
use sd_io::{Disk, DiskFault, Kind};
use sd_plan::digest;
use std::alloc::Global;

/// A journal that stands in a root, and its path.
#[derive(Drop)]
pub(crate) struct Standing {
    pub path: Text,
    pub journal: Journal,
}

/// Reads the journal that stands in the directory that a root leads to, and all its stages. `None` where nothing stands in its place. Nothing is
/// written.
pub(crate) fn read_in_root<D: Disk>(
    alloc: Global,
    disk: &mut D,
    root: &str,
) -> Result<Option<Standing>, JournalFault>
    requires { IsTrue D.tells → IsSome (directory_of (D.state disk.old).tree root.now) }
    ensures read { IsTrue D.tells → IfOk result (ReadsRoot (D.state disk.old).tree root.now) }
    ensures listed { IfOk result (λ found. IfSome found (λ _. (D.state disk.old).listed < (D.state disk.new).listed)) }
    ensures fails { IfErr result (RecoverFails (course D.tells (D.state disk.old) (D.state disk.new)) root.now) }
    ensures tree { IsTrue D.tells → SameTree (D.state disk.old) (D.state disk.new) }
    ensures lists { LeavesLists (D.state disk.old) (D.state disk.new) }
    ensures never_falls { (D.state disk.old).faults ≤ (D.state disk.new).faults }
{
    let Some(kind) = find_entry(alloc, disk, root, JOURNAL_NAME)? else {
        return Ok(None);
    };
    let path = journal_path(alloc, disk, root)?;
    let journal = read_standing(alloc, disk, path.as_str(), kind)?;
    check_stages(alloc, disk, &journal)?;
    Ok(Some(Standing { path, journal }))
}

/// The path of the journal in the directory that a root leads to.
pub(crate) fn journal_path<D: Disk>(
    alloc: Global,
    disk: &mut D,
    root: &str,
) -> Result<Text, DiskFault>
    ensures path { IsTrue D.tells → (folder : NameList) → directory_of (D.state disk.old).tree root.now ≡ Some folder
        → IfOk result (λ path. path ≡ path_text (folder ++ journal_name ∷ [])) }
    ensures fails { IfErr result (LookFails (course D.tells (D.state disk.old) (D.state disk.new)) (LeadsNowhere (D.state disk.old) root.now true)) }
    ensures tree { SameTree (D.state disk.old) (D.state disk.new) }
    ensures lists { SameLists (D.state disk.old) (D.state disk.new) }
    ensures never_falls { (D.state disk.old).faults ≤ (D.state disk.new).faults }
{
    let folder = disk.resolve(alloc, root)?;
    let folder = match folder.as_str() {
        "/" => "",
        folder => folder,
    };
    Ok(Text::from(format!(in alloc; "{folder}/.sd-journal")?))
}

/// The journal at a path where something of this kind stands. `BadJournal` where that is no regular file with a journal's text.
pub(crate) fn read_standing<D: Disk>(
    alloc: Global,
    disk: &mut D,
    path: &str,
    kind: Kind,
) -> Result<Journal, JournalFault>
    ensures is_file { OnOk result (kind ≡ Kind.File) }
    ensures read { IsTrue D.tells → IfOk result (λ journal. ReadsJournal (D.state disk.old).tree path.now journal) }
    ensures fails { IfErr result (JournalFails (course D.tells (D.state disk.old) (D.state disk.new)) path.now kind) }
    ensures tree { SameTree (D.state disk.old) (D.state disk.new) }
    ensures lists { SameLists (D.state disk.old) (D.state disk.new) }
    ensures never_falls { (D.state disk.old).faults ≤ (D.state disk.new).faults }
{
    if !kind.is_file() {
        return Err(JournalFault::BadJournal);
    }
    let bytes = disk.read_file(alloc, path)?;
    Ok(read_journal(alloc, &bytes)?)
}

/// Reads the stage of each line, in order, and compares its digest. Refuses at the first line at whose stage no regular file stands, or one with
/// another digest. Nothing is written.
pub(crate) fn check_stages<D: Disk>(
    alloc: Global,
    disk: &mut D,
    journal: &Journal,
) -> Result<(), JournalFault>
    ensures there { IsTrue D.tells → OnOk result (AreStagesThere (D.state disk.old).tree journal.now) }
    ensures fails { IfErr result (FailsAtFirst (course D.tells (D.state disk.old) (D.state disk.new)) journal.now) }
    ensures tree { IsTrue D.tells → SameTree (D.state disk.old) (D.state disk.new) }
    ensures lists { SameLists (D.state disk.old) (D.state disk.new) }
    ensures never_falls { (D.state disk.old).faults ≤ (D.state disk.new).faults }
{
    for line in journal.lines() {
        check_stage(alloc, disk, line)?;
    }
    Ok(())
}

/// Reads the stage of one line, and compares its digest.
fn check_stage<D: Disk>(alloc: Global, disk: &mut D, line: &Line) -> Result<(), JournalFault>
    ensures there { IsTrue D.tells → OnOk result (IsStageThere (D.state disk.old).tree line.now) }
    ensures fails { IfErr result (StageFails (course D.tells (D.state disk.old) (D.state disk.new)) line.now) }
    ensures tree { IsTrue D.tells → SameTree (D.state disk.old) (D.state disk.new) }
    ensures lists { SameLists (D.state disk.old) (D.state disk.new) }
    ensures never_falls { (D.state disk.old).faults ≤ (D.state disk.new).faults }
{
    let stage = stage_path(alloc, line)?;
    let path = Text::new(alloc, line.path.as_str())?;
    if !is_file_there(disk, stage.as_str())? {
        return Err(JournalFault::StageMissing(path));
    }
    let bytes = disk.read_file(alloc, stage.as_str())?;
    let planned = line.digest;
    let found = digest(&bytes);
    if planned == found {
        return Ok(());
    }
    Err(JournalFault::StageDiffers {
        path,
        planned,
        found,
    })
}

/// Whether a regular file stands at a path itself: one that is renamed to its own name stays as it is, and else that is refused, which a disk
/// counts that doesn't tell its tree.
fn is_file_there<D: Disk>(disk: &mut D, path: &str) -> Result<bool, DiskFault>
    ensures there { IsTrue D.tells → IfOk result (λ there. IsTrue there ↔ IsSome (file_named (D.state disk.old).tree path.now)) }
    ensures counted { D.tells ≡ false → IfOk result (λ there. there ≡ false → (D.state disk.old).faults < (D.state disk.new).faults) }
    ensures not_absent { IsErrOf result DiskFault.Absent → ⊥ }
    ensures not_taken { IsErrOf result DiskFault.Taken → ⊥ }
    ensures tree { IsTrue D.tells → SameTree (D.state disk.old) (D.state disk.new) }
    ensures lists { SameLists (D.state disk.old) (D.state disk.new) }
    ensures cause { HasCause D.tells (D.state disk.old) (D.state disk.new) result }
{
    match disk.rename(path, path) {
        Ok(()) => Ok(true),
        Err(DiskFault::Absent) => Ok(false),
        Err(fault) => Err(fault),
    }
}
