//! Laws of plans that are made, and of their carrying out.

ghost use Rattle.std.specs.Prelude.{◌≡◌, ℕ, List, All};
ghost use Rattle.sd_io.specs.Tree.{NameList, Tree};
ghost use Rattle.many_files.specs.Files.{ListsFiles};
ghost use Rattle.many_files.specs.Counts.{Counts};
ghost use Rattle.many_files.specs.declared.report.Report.{Report};
ghost use Rattle.sd_plan.specs.Report.{report_text};
ghost use Rattle.sd_plan.specs.Plan.{report_of};
ghost use Rattle.sd_plan.specs.declared.line.PlanLine.{PlanLine};
ghost use Rattle.planned_files.specs.Planned.{PlansFiles};
ghost use Rattle.planned_files.specs.Checked.{IsRight};
ghost use Rattle.planned_files.specs.Applied.{AppliesPlan, LeadApart};

use sd_change::Replaces;

/// The plan of some files is right as long as they stay as they are, and its carrying out then has the report with which it ends.
pub fn a_plan_is_right_where_it_was_made<R: Replaces>()
    ensures right { (replacer : R) (tree : Tree) (paths : List (List ℕ)) (lines : List PlanLine) → PlansFiles (R.change replacer) tree paths lines
        → All (IsRight (R.change replacer) tree) lines }
    ensures report { (replacer : R) (old new : Tree) (paths : List (List ℕ)) (lines : List PlanLine) (places : List NameList) (report : Report)
        → PlansFiles (R.change replacer) old paths lines → AppliesPlan (R.change replacer) lines places report old new
        → report_of lines ≡ report_text report.chosen report.changed report.replaced }
{}

/// The plan of nonempty files at places in order ends with the report of their rewriting.
pub fn a_plan_ends_with_the_report<R: Replaces>()
    ensures { (replacer : R) (tree : Tree) (paths : List (List ℕ)) (places : List NameList) (lines : List PlanLine) (report : Report)
        → ListsFiles tree paths places → PlansFiles (R.change replacer) tree paths lines → Counts (R.change replacer) tree places report
        → report_of lines ≡ report_text report.chosen report.changed report.replaced }
{}

/// Paths that lead to places in order lead apart.
pub fn listed_files_lead_apart()
    ensures { (tree : Tree) (paths : List (List ℕ)) (places : List NameList) → ListsFiles tree paths places → LeadApart tree paths places }
{}
