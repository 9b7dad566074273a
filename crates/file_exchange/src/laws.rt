//! Laws of exchanges, for those who read images and for those who exchange files in turn.

ghost use Rattle.std.specs.Prelude.{◌≡◌, ◌≢◌, ◌⊎◌, ◌∷◌, [], ℕ, List, Option, Some, Contains};
ghost use Rattle.sd_io.specs.Tree.{NameList, Content, file, Tree, file_at};
ghost use Rattle.sd_io.specs.Paths.{parent_of};
ghost use Rattle.sd_io.specs.Outcomes.{Leaves, content_at};
ghost use Rattle.sd_io.specs.Disk.{DiskState, SameTree, MayLeave, MayLeaveSince, outcomes_now};
ghost use Rattle.sd_io.specs.Crashes.{IsDurable};
ghost use Rattle.file_exchange.specs.Reserved.{FirstFree};
ghost use Rattle.file_exchange.specs.Crash.{Exchange, AreFiles, IsNewFile, ExchangeLeaves, KeepsFiles, ExchangesOne, ExchangesInTurn, ExchangesLeave, IsOneNewFile, IsOneFree};

/// Each image that may have been left while one file is exchanged: at the file's place it holds what one at first could have
/// held, or the new bytes with the file's mode; at every other place, but the first reserved name that was free, what one at first
/// could have held.
pub fn an_exchange_leaves_old_or_new()
    ensures file { (place : NameList) (bytes before : List ℕ) (mode : ℕ) (old new : DiskState) → file_at old.tree place ≡ Some (before, mode)
        → ExchangeLeaves place bytes old new → (image : Tree) → MayLeaveSince new old.clock image
        → Leaves (outcomes_now old place) (content_at image place) ⊎ (content_at image place ≡ Some (file bytes mode)) }
    ensures elsewhere { (place : NameList) (bytes : List ℕ) (old new : DiskState) → ExchangeLeaves place bytes old new
        → (temporary : Option NameList) × ((q : NameList) → temporary ≡ Some q → FirstFree old.tree (parent_of place) q)
        × ((image : Tree) → MayLeaveSince new old.clock image → (q : NameList) → q ≢ place → temporary ≢ Some q → Leaves (outcomes_now old q) (content_at image q)) }
{}

/// After `Ok` each image holds the new bytes with the file's mode, and at every other place what one at first could have held.
pub fn an_exchanged_file_is_on_the_medium()
    ensures file { (place : NameList) (bytes before : List ℕ) (mode : ℕ) (old new : DiskState) → file_at old.tree place ≡ Some (before, mode)
        → IsDurable (IsNewFile old.tree place bytes) old new → (image : Tree) → MayLeave new image → content_at image place ≡ Some (file bytes mode) }
    ensures elsewhere { (place : NameList) (bytes : List ℕ) (old new : DiskState) → IsDurable (IsNewFile old.tree place bytes) old new
        → (image : Tree) → MayLeave new image → (q : NameList) → q ≢ place → Leaves (outcomes_now old q) (content_at image q) }
{}

/// What a crash leaves while files are exchanged in turn, whether each was done or refused: each as it could have been left
/// at first, or with its new bytes and the mode that it had at first.
pub fn exchanges_compose()
    ensures { (exchanges : List Exchange) (old new : DiskState) → AreFiles old.tree exchanges → ExchangesInTurn exchanges old new → ExchangesLeave exchanges old new }
{}

/// The same of each image that may have been left since.
pub fn exchanges_in_turn_leave_old_or_new()
    ensures { (exchanges : List Exchange) (old new : DiskState) → ExchangesLeave exchanges old new
        → (image : Tree) → MayLeaveSince new old.clock image → (q : NameList)
        → Leaves (outcomes_now old q) (content_at image q)
        ⊎ ((content : Content) × (content_at image q ≡ Some content) × IsOneNewFile exchanges old.tree q content)
        ⊎ IsOneFree exchanges old.tree q }
{}

/// A loop over files, seen from its start: each exchange of one of them keeps what a crash may leave within what the list
/// allows; and what is on the medium stays there while another file is exchanged.
pub fn loops_over_files_keep_the_crash_clause()
    ensures start { (exchanges : List Exchange) (first new : DiskState) → SameTree first new → ExchangesLeave exchanges first new × KeepsFiles first.tree new.tree }
    ensures goes_on { (exchanges : List Exchange) (first old new : DiskState) (exchange : Exchange)
        → AreFiles first.tree exchanges → Contains exchanges exchange → KeepsFiles first.tree old.tree → ExchangesLeave exchanges first old
        → ExchangesOne exchange old new → ExchangesLeave exchanges first new × KeepsFiles first.tree new.tree }
    ensures durable { (done : List Exchange) (first old new : DiskState) (exchange : Exchange)
        → AreFiles first.tree (exchange ∷ []) → ((content : Content) → IsOneNewFile done first.tree exchange.0 content → ⊥) → KeepsFiles first.tree old.tree
        → IsDurable (IsOneNewFile done first.tree) first old → IsDurable (IsNewFile old.tree exchange.0 exchange.1) old new
        → IsDurable (IsOneNewFile (exchange ∷ done) first.tree) first new }
{}
