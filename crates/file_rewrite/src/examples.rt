//! Worked examples of the definitions.

ghost use Rattle.std.specs.Prelude.{◌≡◌, ℕ, List, [], codes, Some};
ghost use Rattle.sd_io.specs.Tree.{Tree, file, file_at, node_at};
ghost use Rattle.sd_io.specs.declared.fault.DiskFault.TheVariants as disk;
ghost use Rattle.sd_change.specs.Change.{FileChange};
ghost use Rattle.file_exchange.specs.declared.fault.ExchangeFault.TheVariants as exchange;
ghost use Rattle.file_rewrite.specs.declared.fault.JobFault.TheVariants as job;
ghost use Rattle.file_rewrite.specs.Paths.{IsNoPath};
ghost use Rattle.file_rewrite.specs.Faults.{as_job, as_exchange_job};
ghost use Rattle.file_rewrite.specs.Rewritten.{IsNew, IsLeft, IsNewFile};
ghost use Rattle.file_rewrite.specs.Examples.{OneToDigit, EmptyToX, a_place};

/// Paths that name no file, faults of steps as those of files, what a file becomes, and how it is left.
pub fn files_are_rewritten_as_in_the_examples()
    ensures empty_path { IsNoPath [] }
    ensures top { IsNoPath (codes "//") }
    ensures a_path { IsNoPath (codes "/t") → ⊥ }
    ensures want_of_memory { as_exchange_job (exchange.Disk disk.NoMemory) ≡ job.NoMemory }
    ensures before_the_move { as_exchange_job (exchange.Disk disk.Failed) ≡ job.File disk.Failed }
    ensures the_move { as_exchange_job (exchange.Move disk.Failed) ≡ job.TempfilePersist disk.Failed }
    ensures no_name { as_exchange_job exchange.NoName ≡ job.TempName }
    ensures absent { as_job disk.Absent ≡ job.File disk.Absent }
    ensures becomes { FileChange OneToDigit (codes "one two one") (codes "1 two 1") 2 }
    ensures empty_is_left { FileChange EmptyToX [] [] 0 }
    ensures empty_is_not_changed { FileChange EmptyToX [] (codes "x") 1 → ⊥ }
    ensures new { (old now : Tree) → file_at old a_place ≡ Some (codes "one two one", 416)
        → file_at now a_place ≡ Some (codes "1 two 1", 416) → IsNew OneToDigit old now a_place }
    ensures old_after_a_fault { (old now : Tree) → IsLeft OneToDigit old now a_place (job.File disk.Failed) → node_at now a_place ≡ node_at old a_place }
    ensures another_mode { (tree : Tree) → file_at tree a_place ≡ Some (codes "one", 416) → IsNewFile OneToDigit tree a_place (file (codes "1") 420) → ⊥ }
{}
