//! Laws of recovery: a change that was cut off at any moment can be recovered from.

ghost use Rattle.std.specs.Prelude.{◌≡◌, ◌≢◌, ◌⊎◌, ℕ, List, Some, None};
ghost use Rattle.sd_io.specs.Tree.{NameList, Tree, node_at, file_at};
ghost use Rattle.sd_io.specs.Disk.{DiskState, HoldsPresent, MayLeave, MayLeaveSince};
ghost use Rattle.sd_io.specs.Lists.{directory_of, SyncsFolder};
ghost use Rattle.sd_io.specs.Crashes.{IsSettledAt};
ghost use Rattle.journal_text.specs.declared.line.Line.{Line};
ghost use Rattle.journal_text.specs.Journal.{text_of};
ghost use Rattle.change_phases.specs.Between.{Work, IsWork, journal_of, IsJournalFor, Between, LeavesBetween, AllOld, AllNew};
ghost use Rattle.change_phases.specs.Phases.{placing, IsIn};
ghost use Rattle.change_phases.specs.Recovery.{AreSettled, IsRecoverable, StandsAfter};

/// After a crash at any moment since a change began, and after each refusal that leaves its files and the journal settled,
/// the change can be recovered from.
pub fn a_crash_can_be_recovered_from()
    ensures crash { (work : Work) (old new after : DiskState) (image : Tree) → LeavesBetween work old new → MayLeaveSince new old.clock image
        → StandsAfter image after → IsRecoverable work after }
    ensures refusal { (work : Work) (old new : DiskState) → LeavesBetween work old new → AreSettled work new → IsRecoverable work new }
{}

/// A path that led to a directory before a change leads there whatever a crash left of the change.
pub fn paths_to_directories_lead_there_between()
    ensures { (work : Work) (image : Tree) (path : List ℕ) (q : NameList) → IsWork work → Between work image
        → directory_of work.tree path ≡ Some q → directory_of image path ≡ Some q }
{}

/// Where nothing is known but that each image is between, and that a journal that stands is settled, the sync of the root
/// leaves it so. Then, where no journal stands, the files are all old or all new; and where one stands, it is there for good, it
/// is one for the work, and the files are being put in place.
pub fn a_change_is_recovered_from_any_image()
    ensures between { (work : Work) (old new : DiskState) (path : List ℕ) → IsWork work → HoldsPresent old → SyncsFolder old path new
        → ((image : Tree) → MayLeave old image → Between work image) → LeavesBetween work old new }
    ensures whole { (work : Work) (old : DiskState) → IsWork work → HoldsPresent old → ((image : Tree) → MayLeave old image → Between work image)
        → node_at old.tree (journal_of work) ≡ None → AllOld work old.tree ⊎ AllNew work old.tree }
    ensures underway { (work : Work) (old new : DiskState) (path : List ℕ) → IsWork work → HoldsPresent old → (y : SyncsFolder old path new) → y.folder ≡ work.root
        → ((image : Tree) → MayLeave old image → Between work image) → node_at old.tree (journal_of work) ≢ None → IsSettledAt old (journal_of work)
        → (lines : List Line) × (mode : ℕ) × IsJournalFor work lines × (file_at old.tree (journal_of work) ≡ Some (text_of lines, mode)) × IsIn placing work lines new }
{}
