//! Laws of runs.

ghost use Rattle.std.specs.Prelude.{◌≡◌, ◌≤◌, ◌+◌, ℕ, List, Some, IfSome, length};
ghost use Rattle.hir_tree.specs.Core.{Core};
ghost use Rattle.hir_tree.specs.Groups.{EachLiesWithin, start_of};
ghost use Rattle.hir_tree.specs.Runs.{preferred};
ghost use Rattle.hir_tree.specs.RunsLaws.{RunsGoForward, RoundsAreNotCutOff, NumbersDoNotMatter, ChoicesJoinRuns, PreferredIsTheFirstRun};

/// Each run of a pattern's core ends at its place or after it, within the text.
pub fn runs_go_forward()
    ensures { RunsGoForward }
{}

/// What follows a round of a repetition is one more round and what follows that, or an end of the rounds. The count of
/// rounds in the definition of runs cuts nothing off.
pub fn rounds_are_not_cut_off()
    ensures { RoundsAreNotCutOff }
{}

/// The runs of a core are the same whichever numbers its nodes have.
pub fn numbers_do_not_matter()
    ensures { NumbersDoNotMatter }
{}

/// A choice has the runs of its first part, and then those of its second. So the parts of a choice of many come in order,
/// and the numbers of what is left of it change no run.
pub fn choices_join_runs()
    ensures { ChoicesJoinRuns }
{}

/// The preferred match from a place is the first run of the core, with group 0 as the whole.
pub fn preferred_is_the_first_run()
    ensures { PreferredIsTheFirstRun }
{}

/// A preferred match begins at its place, each of its groups that is set ends where it begins or later, within the text, and
/// there is a group for each index.
pub fn preferred_matches_are_whole()
    ensures begins { (core : Core) (groups : ℕ) (text : List ℕ) (at : ℕ) → at ≤ length text → IfSome (preferred core groups text at) (λ found. start_of found ≡ Some at) }
    ensures lies { (core : Core) (groups : ℕ) (text : List ℕ) (at : ℕ) → at ≤ length text → IfSome (preferred core groups text at) (EachLiesWithin (length text)) }
    ensures slots { (core : Core) (groups : ℕ) (text : List ℕ) (at : ℕ) → at ≤ length text → IfSome (preferred core groups text at) (λ found. length found ≡ groups + 1) }
{}
