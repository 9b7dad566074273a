//! Laws of a journalled change: what each call leaves to a crash, phase by phase.

ghost use Rattle.std.specs.Prelude.{◌≡◌, ◌≢◌, ◌⊎◌, ◌++◌, ◌∷◌, [], ℕ, List, Option, Some, None, Contains};
ghost use Rattle.sd_io.specs.Tree.{Name, NameList, Content, file, Tree, node_at, file_at};
ghost use Rattle.sd_io.specs.Paths.{parent_of};
ghost use Rattle.sd_io.specs.Outcomes.{Leaves, own_of, content_at};
ghost use Rattle.sd_io.specs.Disk.{DiskState, SameTree, HoldsPresent, MayLeaveSince, outcomes_now};
ghost use Rattle.sd_io.specs.Files.{Creates, Writes, Syncs, Renames, RenamesNot, Removes};
ghost use Rattle.sd_io.specs.Lists.{SyncsFolder};
ghost use Rattle.sd_io.specs.Crashes.{LeavesSince, IsDurable, IsSettledAt};
ghost use Rattle.file_exchange.specs.Reserved.{Free};
ghost use Rattle.file_exchange.specs.Crash.{Exchange, IsNewFile, ExchangeLeaves, IsPutForGood};
ghost use Rattle.file_exchange.specs.Exchange.{HasBytes};
ghost use Rattle.journal_text.specs.declared.line.Line.{Line};
ghost use Rattle.journal_text.specs.Journal.{text_of};
ghost use Rattle.change_phases.specs.Between.{Work, IsWork, stage_of, journal_of, IsNew, IsAside, IsJournalFor, Between, LeavesBetween, IsListed};
ghost use Rattle.change_phases.specs.Phases.{Phase, preparing, naming, placing, removing, cleared, MayBe, MayBeAnything, IsIn, PassesIn, HasJournal, HasStagesOnly, IsOnly};
ghost use Rattle.change_phases.specs.Recovery.{AreSettled, IsOnMedium};

/// A line for each file in turn, with a stage of its own that was free: these lines are a journal for the work.
pub fn lines_of_files_are_a_journal()
    ensures { (work : Work) (lines : List Line) → IsListed work lines → IsJournalFor work lines }
{}

/// Where each place holds what it may hold in one of the phases, the image is between. So is each image that a crash
/// leaves while a phase lasts, and while one follows another.
pub fn images_of_a_phase_are_between()
    ensures image { (phase : Phase) (work : Work) (lines : List Line) (image : Tree) → HasJournal phase work lines
        → ((q : NameList) → MayBe phase work lines q (content_at image q)) → Between work image }
    ensures passing { (phase : Phase) (work : Work) (lines : List Line) (old new : DiskState) → HasJournal phase work lines
        → PassesIn phase work lines old new → LeavesBetween work old new × IsIn phase work lines new }
    ensures onward { (work : Work) (first old new : DiskState) → LeavesBetween work first old → LeavesBetween work old new → LeavesBetween work first new }
    ensures since { (work : Work) (old new : DiskState) → LeavesBetween work old new → (image : Tree) → MayLeaveSince new old.clock image → Between work image }
    ensures unchanged { (phase : Phase) (work : Work) (lines : List Line) (old new : DiskState) → IsIn phase work lines old → SameTree old new → PassesIn phase work lines old new }
{}

/// Where a crash leaves each place as it stands, a change begins: its stages may be made, and its files and the place of the
/// journal are settled.
pub fn a_change_begins()
    ensures preparing { (work : Work) (lines : List Line) (old : DiskState) → IsWork work → work.tree ≡ old.tree
        → IsOnMedium old → IsIn preparing work lines old }
    ensures settled { (work : Work) (old : DiskState) → IsWork work → work.tree ≡ old.tree
        → IsOnMedium old → AreSettled work old }
{}

/// Calls on a file under a reserved name that was free stay within the phase: while the stages are made, after the
/// journal is gone for good, and in each phase where the name is no stage's.
pub fn stages_are_made_and_removed()
    ensures preparing { (work : Work) (lines : List Line) (q : NameList) → IsWork work → IsAside work q → MayBeAnything preparing work lines q }
    ensures cleared { (work : Work) (lines : List Line) (q : NameList) → IsWork work → IsAside work q → MayBeAnything cleared work lines q }
    ensures beside { (phase : Phase) (work : Work) (lines : List Line) (q : NameList) → IsWork work → IsAside work q
        → ((line : Line) → Contains lines line → q ≢ stage_of line) → MayBeAnything phase work lines q }
    ensures were_free { (phase : Phase) (work : Work) (lines : List Line) (old : DiskState) (folder q : NameList) → IsWork work → HoldsPresent old
        → IsIn phase work lines old → (folder ≡ work.root) ⊎ ((f : Exchange) × Contains work.files f × (folder ≡ parent_of f.0)) → Free old.tree folder q → IsAside work q }
    ensures creates { (phase : Phase) (work : Work) (lines : List Line) (old new : DiskState) (path like : List ℕ) → IsIn phase work lines old
        → (c : Creates old path like new) → MayBeAnything phase work lines c.place → PassesIn phase work lines old new }
    ensures writes { (phase : Phase) (work : Work) (lines : List Line) (old new : DiskState) (path bytes : List ℕ) → IsIn phase work lines old
        → (w : Writes old path bytes new) → MayBeAnything phase work lines w.place → PassesIn phase work lines old new }
    ensures syncs { (phase : Phase) (work : Work) (lines : List Line) (old new : DiskState) (path : List ℕ) → IsIn phase work lines old
        → (y : Syncs old path new) → MayBeAnything phase work lines y.place → PassesIn phase work lines old new }
    ensures removes { (phase : Phase) (work : Work) (lines : List Line) (old new : DiskState) (path : List ℕ) → IsIn phase work lines old
        → (r : Removes old path new) → MayBeAnything phase work lines r.place → PassesIn phase work lines old new }
{}

/// The sync of a folder stays in every phase.
pub fn a_sync_stays_in_its_phase()
    ensures { (phase : Phase) (work : Work) (lines : List Line) (old new : DiskState) (path : List ℕ) → HoldsPresent old → IsIn phase work lines old
        → SyncsFolder old path new → PassesIn phase work lines old new }
{}

/// The journal is put under its name once all stages are there for good. Done or refused by `Failed`, each place holds
/// what it may hold while the journal gets its name. After the sync of the root the journal is there for good, or gone
/// for good where it doesn't stand.
pub fn the_journal_gets_its_name()
    ensures may_begin { (work : Work) (lines : List Line) (old : DiskState) → IsWork work → IsJournalFor work lines
        → IsIn preparing work lines old → HasStagesOnly work lines old → IsIn naming work lines old }
    ensures done { (work : Work) (lines : List Line) (old new : DiskState) (mode : ℕ) (from to : List ℕ) → IsWork work → IsJournalFor work lines
        → IsIn naming work lines old → (r : Renames old from to new) → r.target ≡ journal_of work → IsAside work r.source
        → ((line : Line) → Contains lines line → r.source ≢ stage_of line)
        → ((found : Option Content) → Leaves (own_of (outcomes_now old r.source)) found → found ≡ Some (file (text_of lines) mode))
        → PassesIn naming work lines old new }
    ensures failed { (work : Work) (lines : List Line) (old new : DiskState) (mode : ℕ) (from to : List ℕ) → IsWork work → IsJournalFor work lines
        → IsIn naming work lines old → (r : RenamesNot old from to new) → r.target ≡ journal_of work → IsAside work r.source
        → ((line : Line) → Contains lines line → r.source ≢ stage_of line)
        → ((found : Option Content) → Leaves (own_of (outcomes_now old r.source)) found → found ≡ Some (file (text_of lines) mode))
        → PassesIn naming work lines old new }
    ensures there_for_good { (work : Work) (lines : List Line) (old new : DiskState) (mode : ℕ) (path : List ℕ) → IsWork work → IsJournalFor work lines
        → HoldsPresent old → IsIn naming work lines old → (y : SyncsFolder old path new) → y.folder ≡ work.root
        → file_at old.tree (journal_of work) ≡ Some (text_of lines, mode) → IsSettledAt old (journal_of work) → IsIn placing work lines new }
    ensures gone_for_good { (work : Work) (lines : List Line) (old new : DiskState) (path : List ℕ) → IsWork work → IsJournalFor work lines
        → HoldsPresent old → IsIn naming work lines old → (y : SyncsFolder old path new) → y.folder ≡ work.root
        → node_at old.tree (journal_of work) ≡ None → IsIn preparing work lines new }
{}

/// While the journal is there for good a file's bytes are exchanged, done or refused. A file that was put in place, or
/// that holds its new bytes already and whose folder is synced, is new for good, and stays so.
pub fn a_file_is_put_in_place()
    ensures passes { (work : Work) (lines : List Line) (old new : DiskState) (f : Exchange) → IsWork work → IsJournalFor work lines → HoldsPresent old
        → IsIn placing work lines old → Contains work.files f → ExchangeLeaves f.0 f.1 old new → PassesIn placing work lines old new }
    ensures new { (work : Work) (lines : List Line) (old new : DiskState) (f : Exchange) → IsWork work → IsJournalFor work lines → HoldsPresent old
        → IsIn placing work lines old → Contains work.files f → IsDurable (IsNewFile old.tree f.0 f.1) old new → IsOnly new f.0 (IsNew work f) }
    ensures stays { (work : Work) (lines : List Line) (old new : DiskState) (f g : Exchange) → IsWork work → IsJournalFor work lines → HoldsPresent old
        → IsIn placing work lines old → Contains work.files f → Contains work.files g → IsDurable (IsNewFile old.tree f.0 f.1) old new
        → IsOnly old g.0 (IsNew work g) → IsOnly new g.0 (IsNew work g) }
    ensures passes_free { (work : Work) (lines : List Line) (old new : DiskState) (f : Exchange) → IsWork work → IsJournalFor work lines → HoldsPresent old
        → IsIn placing work lines old → Contains work.files f → LeavesSince (IsNewFile old.tree f.0 f.1) (Free old.tree (parent_of f.0)) old new
        → PassesIn placing work lines old new }
    ensures put_new { (work : Work) (lines : List Line) (old new : DiskState) (f : Exchange) → IsWork work → IsJournalFor work lines → HoldsPresent old
        → IsIn placing work lines old → Contains work.files f → IsPutForGood f.0 old new → IsSettledAt new f.0 → HasBytes old.tree f.0 f.1 new.tree
        → IsOnly new f.0 (IsNew work f) }
    ensures put_stays { (work : Work) (lines : List Line) (old new : DiskState) (f g : Exchange) → IsWork work → IsJournalFor work lines → HoldsPresent old
        → IsIn placing work lines old → Contains work.files f → Contains work.files g → IsPutForGood f.0 old new → IsOnly new f.0 (IsNew work f)
        → IsOnly old g.0 (IsNew work g) → IsOnly new g.0 (IsNew work g) }
    ensures already { (work : Work) (lines : List Line) (old new : DiskState) (path : List ℕ) (f : Exchange) (mode : ℕ) → IsWork work → IsJournalFor work lines
        → HoldsPresent old → IsIn placing work lines old → Contains work.files f → (y : SyncsFolder old path new) → (name : Name) → y.folder ++ name ∷ [] ≡ f.0
        → IsSettledAt old f.0 → file_at old.tree f.0 ≡ Some (f.1, mode) → IsOnly new f.0 (IsNew work f) }
{}

/// Once all files are new for good the journal may be removed. After the sync of the root it is gone for good.
pub fn the_journal_is_removed()
    ensures may_begin { (work : Work) (lines : List Line) (old : DiskState) → IsWork work → IsJournalFor work lines → IsIn placing work lines old
        → ((f : Exchange) → Contains work.files f → IsOnly old f.0 (IsNew work f)) → IsIn removing work lines old }
    ensures done { (work : Work) (lines : List Line) (old new : DiskState) (path : List ℕ) → IsWork work → IsJournalFor work lines
        → IsIn removing work lines old → (r : Removes old path new) → r.place ≡ journal_of work → PassesIn removing work lines old new }
    ensures gone_for_good { (work : Work) (lines : List Line) (old new : DiskState) (path : List ℕ) → IsWork work → IsJournalFor work lines
        → HoldsPresent old → IsIn removing work lines old → (y : SyncsFolder old path new) → y.folder ≡ work.root
        → node_at old.tree (journal_of work) ≡ None → IsIn cleared work lines new }
{}
