//! Worked examples of what a sweep makes of a tree, and how refused sweeps end.

ghost use Rattle.std.specs.Prelude.{◌≡◌, ◌≢◌, ◌<◌, ℕ, List, true, [], ◌∷◌, codes, Some};
ghost use Rattle.sd_io.specs.Disk.{DiskState, SameTree};
ghost use Rattle.sd_io.specs.Paths.{reached};
ghost use Rattle.sd_io.specs.Tree.{NameList, file_at, node_at};
ghost use Rattle.sd_course.specs.Course.{Course, course};
ghost use Rattle.walk_rest.specs.Examples.{tree_with};
ghost use Rattle.file_rewrite.specs.Examples.{OneToDigit, a_place};
ghost use Rattle.sd_core.specs.Examples.{t_nodes, txt, failed_at};
ghost use Rattle.sd_core.specs.Selection.{by_globs};
ghost use Rattle.sd_core.specs.Sweep.{RewritesTree, SweepFails};
ghost use Rattle.sd_core.specs.declared.error.Error.TheVariants as error;

/// What a sweep makes of a tree: one file of two in it, and none where there are no globs.
pub fn trees_are_rewritten_as_in_the_examples()
    ensures one_file { (old new : DiskState) → old.tree ≡ tree_with t_nodes → file_at new.tree a_place ≡ Some (codes "1 two 1", 416)
        → ((place : NameList) → place ≢ a_place → node_at new.tree place ≡ node_at old.tree place)
        → RewritesTree OneToDigit (by_globs (codes "/t") txt) (record { chosen = 1; changed = 1; replaced = 2 }) old new }
    ensures left_old { (disk : DiskState) → disk.tree ≡ tree_with t_nodes
        → ¬ RewritesTree OneToDigit (by_globs (codes "/t") txt) (record { chosen = 1; changed = 1; replaced = 2 }) disk disk }
    ensures no_globs { (disk : DiskState) (root : List ℕ) (top : NameList) → reached disk.tree root true ≡ Some top
        → RewritesTree OneToDigit (by_globs root []) (record { chosen = 0; changed = 0; replaced = 0 }) disk disk }
{}

/// How refused sweeps end. A file that failed is told by the path of the root as it was given.
pub fn sweeps_fail_as_in_the_examples()
    ensures bad_glob { (d : Course DiskState) → d.new ≡ d.old → SweepFails OneToDigit (by_globs (codes "/t") (codes "*" ∷ codes "{a" ∷ [])) 9 d (error.BadGlob 1) }
    ensures valid_glob { (d : Course DiskState) → ¬ SweepFails OneToDigit (by_globs (codes "/t") (codes "*" ∷ codes "{a" ∷ [])) 9 d (error.BadGlob 0) }
    ensures no_root { (old new : DiskState) → old.tree ≡ tree_with t_nodes → SameTree old new
        → SweepFails OneToDigit (by_globs (codes "/n") txt) 9 (course true old new) error.RootMissing }
    ensures one_failed { (old new : DiskState) → old.tree ≡ tree_with t_nodes → new.tree ≡ old.tree → old.faults < new.faults
        → SweepFails OneToDigit (by_globs (codes "./t/") txt) 9 (course true old new) (error.FailedProcessing (failed_at (codes "./t/a.txt"))) }
    ensures other_path { (old new : DiskState) → old.tree ≡ tree_with t_nodes
        → ¬ SweepFails OneToDigit (by_globs (codes "./t/") txt) 9 (course true old new) (error.FailedProcessing (failed_at (codes "/t/a.txt"))) }
    ensures none_failed { (d : Course DiskState) → ¬ SweepFails OneToDigit (by_globs (codes "/t") txt) 9 d (error.FailedProcessing []) }
{}
