//! Stages of files that are to change, made in turn.

ghost use Rattle.std.specs.Prelude.{◌≡◌, ◌≤◌, IsTrue, IfOk, IfErr, IfSome, IfNone, Contains};
ghost use Rattle.sd_io.specs.Disk.{SameTree, SameLists};
ghost use Rattle.sd_course.specs.Course.{course};
ghost use Rattle.file_exchange.specs.Exchange.{IsFilePath};
ghost use Rattle.file_rewrite.specs.Reading.{FindsFile};
ghost use Rattle.change_phases.specs.Between.{Work};
ghost use Rattle.journal_text.specs.declared.line.Line as line;
ghost use Rattle.journal.specs.Keeping.{KeepsPreparing};
ghost use Rattle.journal.specs.Beside.{KeepsAllButFree};
ghost use Rattle.journal.specs.Planning.{IsPlanned, IsUnchanged, StagesFile, LeavesStage, AddsFiles, AddsStages, AreStagesMade, CountStages, LeadToFiles, IsNotFound, IsNotStaged, AreNotStaged};

use crate::JournalFault;
use crate::beside::make_beside;
use file_exchange::folder_path;
use file_rewrite::{FoundFile, JobFault, file_change, find_file};
use journal_text::{Journal, Line, ResolvedPath};
use sd_base::{NoMemory, Text};
use sd_change::{Replaces, Rewritten};
use sd_io::Disk;
use sd_plan::digest;
use std::alloc::Global;

/// Makes a stage of each file that the paths lead to and whose bytes change, in their order, and tells their lines. One file is in memory at a
/// time.
pub(crate) fn make_stages<D: Disk, R: Replaces>(
    alloc: Global,
    disk: &mut D,
    paths: &[Text],
    replacer: &R,
) -> Result<Journal, JournalFault>
    ensures kept { IsTrue D.tells → (work : Work) → IsPlanned (R.change replacer.now) work paths.now (D.state disk.old)
        → KeepsPreparing work (D.state disk.old) (D.state disk.new) }
    ensures made { IsTrue D.tells → (work : Work) → IsPlanned (R.change replacer.now) work paths.now (D.state disk.old)
        → IfOk result (λ journal. AreStagesMade work journal (D.state disk.new)) }
    ensures adds { IsTrue D.tells → IfOk result (λ journal. AddsFiles (D.state disk.old) (D.state disk.new)) }
    ensures stages { IsTrue D.tells → IfOk result (λ journal. AddsStages journal (D.state disk.old).tree (D.state disk.new).tree) }
    ensures counted { IsTrue D.tells → LeadToFiles (D.state disk.old).tree paths.now
        → IfOk result (CountStages (R.change replacer.now) (D.state disk.old).tree paths.now) }
    ensures free { IsTrue D.tells → KeepsAllButFree (D.state disk.old).tree (D.state disk.new).tree }
    ensures fails { IfErr result (AreNotStaged (R.change replacer.now) (course D.tells (D.state disk.old) (D.state disk.new)) paths.now) }
    ensures paths { IsTrue D.tells → IfOk result (λ journal. (line : line.Line) → Contains journal line → IsFilePath (D.state disk.new).tree line.path) }
    ensures lists { SameLists (D.state disk.old) (D.state disk.new) }
    ensures never_falls { (D.state disk.old).faults ≤ (D.state disk.new).faults }
{
    let mut journal = Journal::new(alloc);
    for path in paths {
        if let Some(line) = stage_file(alloc, disk, path.as_str(), replacer)? {
            journal.push(line)?;
        }
    }
    Ok(journal)
}

/// Makes the stage of the file that a path leads to, and tells its line. `None` where the file's bytes don't change.
fn stage_file<D: Disk, R: Replaces>(
    alloc: Global,
    disk: &mut D,
    path: &str,
    replacer: &R,
) -> Result<Option<Line>, JournalFault>
    ensures staged { IsTrue D.tells → IfOk result (λ made. IfSome made (λ line. StagesFile (R.change replacer.now) path.now line (D.state disk.old) (D.state disk.new))) }
    ensures unchanged { IsTrue D.tells → IfOk result (λ made. IfNone made (IsUnchanged (R.change replacer.now) path.now (D.state disk.old) (D.state disk.new))) }
    ensures left { IsTrue D.tells → LeavesStage path.now (D.state disk.old) (D.state disk.new) }
    ensures fails { IfErr result (IsNotStaged (R.change replacer.now) (course D.tells (D.state disk.old) (D.state disk.new)) path.now) }
    ensures lists { SameLists (D.state disk.old) (D.state disk.new) }
    ensures never_falls { (D.state disk.old).faults ≤ (D.state disk.new).faults }
{
    let found = find(alloc, disk, path)?;
    let own = found.path;
    let Rewritten::Other(changed) = file_change(replacer, found.bytes)? else {
        return Ok(None);
    };
    let bytes = changed.new_bytes;
    let Some(made) = make_beside(alloc, disk, own.as_str(), own.as_str(), &bytes)? else {
        return Err(JournalFault::TempName(Text::new(alloc, folder_path(own.as_str()))?));
    };
    // A disk that tells its tree answers no other path.
    let path = ResolvedPath::new(own).ok_or(NoMemory)?;
    Ok(Some(Line {
        digest: digest(&bytes),
        number: made.number,
        path,
    }))
}

/// The file that a path leads to. Refuses `File` where `find_file` does, whose only other answer is want of memory.
fn find<D: Disk>(alloc: Global, disk: &mut D, path: &str) -> Result<FoundFile, JournalFault>
    ensures found { IsTrue D.tells → IfOk result (λ found. FindsFile (D.state disk.old).tree path.now found.path found.bytes.items) }
    ensures fails { IfErr result (IsNotFound (course D.tells (D.state disk.old) (D.state disk.new)) path.now) }
    ensures tree { SameTree (D.state disk.old) (D.state disk.new) }
    ensures lists { SameLists (D.state disk.old) (D.state disk.new) }
    ensures never_falls { (D.state disk.old).faults ≤ (D.state disk.new).faults }
{
    match find_file(alloc, disk, path) {
        Ok(found) => Ok(found),
        Err(JobFault::File(refused)) => Err(JournalFault::File(refused)),
        Err(_) => Err(JournalFault::NoMemory),
    }
}
