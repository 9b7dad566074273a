//! Worked examples of the definitions.

ghost use Rattle.std.specs.Prelude.{◌≡◌, true, false, [], ◌∷◌, ◌++◌, codes, Some, None, Ok, Err};
ghost use Rattle.sd_io.specs.Tree.{Tree, file_at};
ghost use Rattle.sd_io.specs.Files.{file_of};
ghost use Rattle.sd_io.specs.Disk.{DiskState};
ghost use Rattle.sd_io.specs.declared.fault.DiskFault.TheVariants as disk;
ghost use Rattle.file_rewrite.specs.declared.fault.JobFault.TheVariants as job;
ghost use Rattle.file_rewrite.specs.Examples.{OneToDigit, a_place};
ghost use Rattle.many_files.specs.Counts.{CountsFiles, change_count};
ghost use Rattle.file_rewrite.specs.declared.rewrite.Rewrite.{Rewrite};
ghost use Rattle.many_files.specs.Jobs.{failed_of, faults_needed};
ghost use Rattle.many_files.specs.InTurn.{ReplacesInTurn, TellsNoPath};
ghost use Rattle.many_files.specs.Turns.{failed_turns, faults_of_turn};
ghost use Rattle.many_files.specs.Examples.{b_place, x_path, no_name_for_x, y_is_done};

/// What the files of a small tree count.
pub fn files_are_counted()
    ensures one { (tree : Tree) → file_at tree a_place ≡ Some (codes "one two one", 416) → CountsFiles OneToDigit tree (a_place ∷ []) 1 2 }
    ensures both { (tree : Tree) → file_at tree a_place ≡ Some (codes "one two one", 416) → file_at tree b_place ≡ Some (codes "two", 416)
        → CountsFiles OneToDigit tree (a_place ∷ b_place ∷ []) 1 2 }
    ensures unchanged { change_count (codes "two") (codes "two") ≡ 0 }
{}

/// Which files failed, and how many counted faults they need.
pub fn jobs_are_the_failed_files()
    ensures only_the_failed { failed_turns (no_name_for_x ∷ y_is_done ∷ []) ≡ (x_path, job.TempName) ∷ [] }
    ensures in_order { failed_of (codes "/t/b.md" ∷ codes "/t/none" ∷ [] ++ [] ∷ []) (None ∷ Some (job.File disk.Absent) ∷ Some job.InvalidPath ∷ [])
        ≡ (codes "/t/none", job.File disk.Absent) ∷ ([], job.InvalidPath) ∷ [] }
    ensures absent_needs_none { (tree : Tree) → file_of tree (codes "/t/none") ≡ None → faults_needed true tree (codes "/t/none", job.File disk.Absent) ≡ 0 }
    ensures untold_needs_one { (tree : Tree) → faults_needed false tree (codes "/t/none", job.File disk.Absent) ≡ 1 }
    ensures untold_names { (tree : Tree) → faults_needed false tree (codes "/t/a.txt", job.TempName) ≡ 65536 }
    ensures no_fault_of_a_name { faults_of_turn no_name_for_x ≡ 0 }
{}

/// Which files were rewritten in turn, and what is told of a path that names none.
pub fn files_have_an_end_each()
    ensures no_files { (d : DiskState) → ReplacesInTurn OneToDigit [] [] d d }
    ensures one_end_each { (old new : DiskState) → ReplacesInTurn OneToDigit (x_path ∷ []) [] old new → ⊥ }
    ensures told { TellsNoPath [] (Err job.InvalidPath) }
    ensures not_done { (rewrite : Rewrite) → TellsNoPath [] (Ok rewrite) → ⊥ }
{}
