//! Laws of what a crash leaves of a command on a tree, and of plans.

ghost use Rattle.std.specs.Prelude.{◌≡◌, ◌⊎◌, ℕ, List, map, Some};
ghost use Rattle.sd_io.specs.Tree.{NameList, Content, Tree, IsTree};
ghost use Rattle.sd_io.specs.Outcomes.{Leaves, content_at};
ghost use Rattle.sd_io.specs.Disk.{DiskState, MayLeave, outcomes_now};
ghost use Rattle.sd_io.specs.Crashes.{IsDurable};
ghost use Rattle.sd_replace.specs.Replacement.{Replacement, Changes};
ghost use Rattle.many_files.specs.Files.{IsFreeBeside};
ghost use Rattle.many_files.specs.Rewritten.{IsNewOne, IsChangedOne};
ghost use Rattle.sd_core.specs.Selection.{IsChosenBelow, by_globs};
ghost use Rattle.many_files.specs.declared.report.Report.{Report};
ghost use Rattle.sd_plan.specs.Plan.{report_of};
ghost use Rattle.sd_plan.specs.declared.line.PlanLine.{PlanLine};
ghost use Rattle.planned_files.specs.Planned.{path_of};
ghost use Rattle.planned_files.specs.Applied.{LeadApart};
ghost use Rattle.sd_core.specs.Plan.{IsPlanOf};
ghost use Rattle.sd_core.specs.Report.{line_of};
ghost use Rattle.sd_core.specs.Sweep.{RewritesTree};
ghost use Rattle.sd_core.specs.TreeCommand.{IsOldOrNewImage};
ghost use Rattle.sd_core.specs.Crash.{IsOnMedium};

use sd_change::Replaces;

/// Where at the start a crash leaves at each place what stands there, one at any moment leaves each chosen file wholly old or
/// wholly new. At every other place it leaves what stood there at the start, but at the reserved names that were free in the
/// folders of chosen files.
pub fn a_crash_leaves_chosen_files_old_or_new()
    ensures chosen { (replacement : Replacement) (root : List ℕ) (globs : List (List ℕ)) (old : DiskState) (image : Tree) → IsOnMedium old
        → IsOldOrNewImage (Changes replacement) (by_globs root globs) old image → (place : NameList) → IsChosenBelow old.tree root globs place
        → (content_at image place ≡ content_at old.tree place)
        ⊎ ((content : Content) × (content_at image place ≡ Some content)
        × IsNewOne (IsChosenBelow old.tree root globs) (Changes replacement) old.tree place content) }
    ensures others { (replacement : Replacement) (root : List ℕ) (globs : List (List ℕ)) (old : DiskState) (image : Tree) → IsOnMedium old
        → IsOldOrNewImage (Changes replacement) (by_globs root globs) old image → (place : NameList) → (IsChosenBelow old.tree root globs place → ⊥)
        → (IsFreeBeside (IsChosenBelow old.tree root globs) old.tree place → ⊥) → content_at image place ≡ content_at old.tree place }
{}

/// Where at the start a crash leaves at each place what stands there, one after all was done leaves each chosen file wholly new,
/// and at every other place what stood there at the start.
pub fn a_crash_leaves_rewritten_files_new()
    ensures chosen { (replacement : Replacement) (root : List ℕ) (globs : List (List ℕ)) (old new : DiskState) (image : Tree) → IsOnMedium old
        → IsDurable (IsChangedOne (IsChosenBelow old.tree root globs) (Changes replacement) old.tree) old new → MayLeave new image
        → (place : NameList) (content : Content) → IsNewOne (IsChosenBelow old.tree root globs) (Changes replacement) old.tree place content
        → content_at image place ≡ Some content }
    ensures others { (replacement : Replacement) (root : List ℕ) (globs : List (List ℕ)) (old new : DiskState) (image : Tree) → IsOnMedium old
        → IsDurable (IsChangedOne (IsChosenBelow old.tree root globs) (Changes replacement) old.tree) old new → MayLeave new image
        → (place : NameList) → (IsChosenBelow old.tree root globs place → ⊥) → content_at image place ≡ content_at old.tree place }
{
    sd_replace::one_change();
}

/// The plan of a tree ends with the line that a sweep of the same tree prints, where all of it is done.
pub fn a_plan_ends_with_the_report<R: Replaces>()
    ensures { (replacer : R) (root : List ℕ) (globs : List (List ℕ)) (old new : DiskState) (lines : List PlanLine) (report : Report) → IsTree old.tree
        → IsPlanOf (R.change replacer) (by_globs root globs) old.tree lines → RewritesTree (R.change replacer) (by_globs root globs) report old new
        → report_of lines ≡ line_of report }
{}

/// No two lines of the plan of a tree lead to one file.
pub fn a_plan_of_a_tree_leads_apart<R: Replaces>()
    ensures { (replacer : R) (root : List ℕ) (globs : List (List ℕ)) (tree : Tree) (lines : List PlanLine) → IsTree tree
        → IsPlanOf (R.change replacer) (by_globs root globs) tree lines → (places : List NameList) × LeadApart tree (map path_of lines) places }
{}
