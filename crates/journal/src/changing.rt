//! A change of many files, made with a journal.

ghost use Rattle.std.specs.Prelude.{◌≡◌, ◌<◌, ◌≤◌, ◌++◌, ◌∷◌, [], ℕ, true, IsTrue, IsSome, IfOk, IfErr, OnOk, IsErrAnd, Contains, List, length, Some, None};
ghost use Rattle.sd_io.specs.Tree.{NameList, node_at};
ghost use Rattle.sd_io.specs.Paths.{parts_of, parent_of, reached};
ghost use Rattle.sd_io.specs.Disk.{SameTree, SameLists};
ghost use Rattle.sd_io.specs.Lists.{directory_of};
ghost use Rattle.sd_course.specs.Course.{course, DiskFailed};
ghost use Rattle.file_exchange.specs.Exchange.{IsFilePath, IsPathIn};
ghost use Rattle.journal_text.specs.declared.line.Line as line;
ghost use Rattle.change_phases.specs.Between.{Work, journal_name, journal_of};
ghost use Rattle.change_phases.specs.Phases.{naming, cleared, IsIn};
ghost use Rattle.journal.specs.Faults.{WantsMemory};
ghost use Rattle.journal.specs.Keeping.{AreRootPaths, IsSettledIn, KeepsPhase, KeepsBetween};
ghost use Rattle.journal.specs.Finding.{LeavesLists};
ghost use Rattle.journal.specs.Finishing.{StagesAreGone};
ghost use Rattle.journal.specs.Clearing.{LeavesNoMore};
ghost use Rattle.journal.specs.Beside.{KeepsAllButFree, AddsBeside};
ghost use Rattle.journal.specs.Naming.{MayBeNamed};
ghost use Rattle.journal.specs.Changing.{IsChangeBelow, MayChange, IsChanged, ExchangesFiles, LeavesNothing, WritingFails, IsWritten, EndFails, MakingFails, ChangeFails, IsPending, ComesFirst, HasRoomFor};

use crate::JournalFault;
use crate::beside::make_beside;
use crate::clearing::sync_folders;
use crate::finding::find_entry;
use crate::finishing::finish;
use crate::naming::give_name;
use crate::planning::make_stages;
use crate::reading::journal_path;
use crate::recovering::{JOURNAL_NAME, is_directory};
use file_exchange::folder_path;
use file_rewrite::JobFault;
use journal_text::{Journal, write_journal};
use sd_base::Text;
use sd_change::Replaces;
use sd_io::Disk;
use std::alloc::Global;

/// Gives each file that the paths lead to its new bytes, so that whatever a crash at any moment leaves, `recover` of the same root makes all of
/// them old, or all of them new. Where the root leads to a node that is no directory, nothing is written.
///
/// Refuses `RootMissing` where the root leads to no node, and `Pending` where something stands in the journal's place; nothing was written then. A
/// counted fault and want of memory may come first.
/// Refuses `TempName` where a folder has fewer free reserved names than files that change, one more counted for the root; `File` with a counted
/// fault, or where a path leads to no regular file; and for want of memory. All but reserved names that were free is then as it was. `Unfinished`
/// comes from the step on that gives the journal its name: the change is to be recovered.
///
/// On a disk that tells its tree, where each crash leaves it as it stands and the paths lead to the files that change, each in a place of its own:
/// every image that a crash at any moment leaves is between old and new, and so it is after each refusal; after `Ok` each file has its mode and its
/// new bytes, every other place is as it was, and each crash leaves each file new, and no journal. With a free reserved name for each file that
/// changes, one more in each folder and in the root yet one more, nothing but a counted fault and want of memory refuses it; nor anything else where the
/// root leads to a node that is no directory.
pub fn change_files<D: Disk, R: Replaces>(
    alloc: Global,
    disk: &mut D,
    root: &str,
    paths: &[Text],
    replacer: &R,
) -> Result<(), JournalFault>
    ensures kept { IsTrue D.tells → (work : Work) → IsChangeBelow (R.change replacer.now) work root.now paths.now (D.state disk.old)
        → KeepsBetween work (D.state disk.old) (D.state disk.new) }
    ensures changed { IsTrue D.tells → (work : Work) → IsChangeBelow (R.change replacer.now) work root.now paths.now (D.state disk.old)
        → OnOk result (IsChanged work (D.state disk.new)) }
    ensures tree { IsTrue D.tells → (work : Work) → IsChangeBelow (R.change replacer.now) work root.now paths.now (D.state disk.old)
        → OnOk result (ExchangesFiles work.files (D.state disk.old).tree (D.state disk.new).tree) }
    ensures fails { IfErr result (ChangeFails (R.change replacer.now) root.now paths.now (course D.tells (D.state disk.old) (D.state disk.new))) }
    ensures pending { IsTrue D.tells → IsPending (D.state disk.old).tree root.now → IsErrAnd result ComesFirst }
    ensures unwritten { IsTrue D.tells → IsPending (D.state disk.old).tree root.now → LeavesNoMore (D.state disk.old) (D.state disk.new) }
    ensures complete { IsTrue D.tells → (work : Work) → IsChangeBelow (R.change replacer.now) work root.now paths.now (D.state disk.old)
        → HasRoomFor (R.change replacer.now) (D.state disk.old).tree root.now paths.now
        → (DiskFailed (course D.tells (D.state disk.old) (D.state disk.new)) → ⊥) → IfErr result WantsMemory }
    ensures no_directory { IsTrue D.tells → directory_of (D.state disk.old).tree root.now ≡ None → OnOk result (SameTree (D.state disk.old) (D.state disk.new)) }
    ensures elsewhere { IsTrue D.tells → IsSome (reached (D.state disk.old).tree root.now true) → directory_of (D.state disk.old).tree root.now ≡ None
        → (DiskFailed (course D.tells (D.state disk.old) (D.state disk.new)) → ⊥) → IfErr result WantsMemory }
    ensures lists { LeavesLists (D.state disk.old) (D.state disk.new) }
    ensures never_falls { (D.state disk.old).faults ≤ (D.state disk.new).faults }
{
    if !is_directory(disk, root)? {
        return Ok(());
    }
    disk.sync_dir(root)?;
    if find_entry(alloc, disk, root, JOURNAL_NAME)?.is_some() {
        return Err(JournalFault::Pending);
    }
    make_change(alloc, disk, root, paths, replacer)
}

/// Makes a change below a root that is a directory, in which no journal stands.
fn make_change<D: Disk, R: Replaces>(
    alloc: Global,
    disk: &mut D,
    root: &str,
    paths: &[Text],
    replacer: &R,
) -> Result<(), JournalFault>
    requires directory { IsTrue D.tells → IsSome (directory_of (D.state disk.old).tree root.now) }
    requires no_journal { IsTrue D.tells → (folder : NameList) → directory_of (D.state disk.old).tree root.now ≡ Some folder
        → node_at (D.state disk.old).tree (folder ++ journal_name ∷ []) ≡ None }
    ensures kept { IsTrue D.tells → (work : Work) → MayChange (R.change replacer.now) work root.now paths.now (D.state disk.old)
        → KeepsBetween work (D.state disk.old) (D.state disk.new) }
    ensures changed { IsTrue D.tells → (work : Work) → MayChange (R.change replacer.now) work root.now paths.now (D.state disk.old)
        → OnOk result (IsChanged work (D.state disk.new)) }
    ensures fails { IfErr result (MakingFails (R.change replacer.now) root.now paths.now (course D.tells (D.state disk.old) (D.state disk.new))) }
    ensures tree { IsTrue D.tells → (work : Work) → MayChange (R.change replacer.now) work root.now paths.now (D.state disk.old)
        → OnOk result (ExchangesFiles work.files (D.state disk.old).tree (D.state disk.new).tree) }
    ensures lists { SameLists (D.state disk.old) (D.state disk.new) }
    ensures never_falls { (D.state disk.old).faults ≤ (D.state disk.new).faults }
{
    let journal = make_stages(alloc, disk, paths, replacer)?;
    if journal.is_empty() {
        return Ok(());
    }
    let path = journal_path(alloc, disk, root)?;
    sync_folders(disk, &journal)?;
    let temporary = write_beside(alloc, disk, path.as_str(), &journal)?;
    name_and_finish(
        alloc,
        disk,
        root,
        path.as_str(),
        temporary.as_str(),
        &journal,
    )
    .map_err(JournalFault::Unfinished)
}

/// Writes the text of a journal under a reserved name of its root, with the mode of its first file, and puts it on the medium. Tells its path.
/// Refuses `TempName` where no such name is free.
///
/// On a disk that tells its tree, where all stages are there for good, a crash at any moment leaves no journal that wasn't there, and the files and
/// stages as before.
fn write_beside<D: Disk>(
    alloc: Global,
    disk: &mut D,
    path: &str,
    journal: &Journal,
) -> Result<Text, JournalFault>
    requires some { 0 < length journal.now }
    requires beside { IsTrue D.tells → IsPathIn (D.state disk.old).tree path.now }
    requires like { IsTrue D.tells → (line : line.Line) → Contains journal.now line → IsFilePath (D.state disk.old).tree line.path }
    ensures kept { IsTrue D.tells → (work : Work) (root : List ℕ) → AreRootPaths work root path.now → IsSettledIn naming work journal.now (D.state disk.old)
        → KeepsPhase naming work journal.now (D.state disk.old) (D.state disk.new) }
    ensures written { IsTrue D.tells → (work : Work) (root : List ℕ) → AreRootPaths work root path.now → IsSettledIn naming work journal.now (D.state disk.old)
        → node_at (D.state disk.old).tree (journal_of work) ≡ None
        → IfOk result (λ temporary. MayBeNamed work journal.now temporary path.now root (D.state disk.new)) }
    ensures fails { IfErr result (WritingFails (course D.tells (D.state disk.old) (D.state disk.new)) path.now) }
    ensures free { IsTrue D.tells → KeepsAllButFree (D.state disk.old).tree (D.state disk.new).tree }
    ensures tree { IsTrue D.tells → IfOk result (λ temporary. AddsBeside (parent_of (parts_of path.now)) temporary (D.state disk.old).tree (D.state disk.new).tree) }
    ensures lists { SameLists (D.state disk.old) (D.state disk.new) }
    ensures never_falls { (D.state disk.old).faults ≤ (D.state disk.new).faults }
{
    let text = write_journal(alloc, journal)?;
    let like = journal.get(0).path.as_str();
    match make_beside(alloc, disk, path, like, &text)? {
        Some(made) => Ok(made.path),
        None => Err(JournalFault::TempName(Text::new(alloc, folder_path(path))?)),
    }
}

/// Gives a journal that was written its name, and carries the change out.
fn name_and_finish<D: Disk>(
    alloc: Global,
    disk: &mut D,
    root: &str,
    path: &str,
    temporary: &str,
    journal: &Journal,
) -> Result<(), JobFault>
    ensures kept { IsTrue D.tells → (work : Work) → MayBeNamed work journal.now temporary.now path.now root.now (D.state disk.old)
        → KeepsBetween work (D.state disk.old) (D.state disk.new) }
    ensures done { IsTrue D.tells → (work : Work) → MayBeNamed work journal.now temporary.now path.now root.now (D.state disk.old)
        → OnOk result (IsIn cleared work journal.now (D.state disk.new)) }
    ensures stages { IsTrue D.tells → (work : Work) → MayBeNamed work journal.now temporary.now path.now root.now (D.state disk.old)
        → OnOk result (StagesAreGone journal.now (D.state disk.new)) }
    ensures tree { IsTrue D.tells → (work : Work) → MayBeNamed work journal.now temporary.now path.now root.now (D.state disk.old)
        → OnOk result (LeavesNothing journal.now temporary.now (journal_of work) (D.state disk.old).tree (D.state disk.new).tree) }
    ensures fails { (IsTrue D.tells → IsWritten journal.now temporary.now path.now root.now (D.state disk.old).tree)
        → IfErr result (EndFails (course D.tells (D.state disk.old) (D.state disk.new)) journal.now temporary.now) }
    ensures lists { SameLists (D.state disk.old) (D.state disk.new) }
    ensures never_falls { (D.state disk.old).faults ≤ (D.state disk.new).faults }
{
    give_name(disk, temporary, path, root)?;
    finish(alloc, disk, root, path, journal)
}
