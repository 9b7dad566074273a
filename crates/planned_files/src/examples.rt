//! Worked examples of the definitions.

ghost use Rattle.std.specs.Prelude.{◌≡◌, ◌≢◌, true, [], ◌∷◌, codes, Some, None};
ghost use Rattle.sd_io.specs.Tree.{Tree};
ghost use Rattle.sd_io.specs.Paths.{reached};
ghost use Rattle.sd_io.specs.Files.{file_of};
ghost use Rattle.sd_io.specs.declared.fault.DiskFault.TheVariants as disk;
ghost use Rattle.file_rewrite.specs.Examples.{OneToDigit, EmptyToX, a_place};
ghost use Rattle.many_files.specs.Examples.{b_place};
ghost use Rattle.sd_plan.specs.Sha256.{sha256};
ghost use Rattle.planned_files.specs.Planned.{IsLineOf};
ghost use Rattle.planned_files.specs.Checked.{IsRight, IsStale, IsDifferent, IsNextAfterRight};
ghost use Rattle.planned_files.specs.Applied.{AreApart, CountsLines, LeadApart};
ghost use Rattle.planned_files.specs.Examples.{a_line, a_path, empty_line};

/// The lines of small files, and what they count.
pub fn files_are_planned_as_in_the_examples()
    ensures changes { (tree : Tree) → file_of tree a_path ≡ Some (codes "one two one", 416) → IsLineOf OneToDigit tree a_path a_line }
    ensures empty { (tree : Tree) → file_of tree a_path ≡ Some ([], 416) → IsLineOf EmptyToX tree a_path empty_line }
    ensures no_file { (tree : Tree) → file_of tree a_path ≡ None → IsLineOf OneToDigit tree a_path a_line → ⊥ }
    ensures counts { (tree : Tree) → file_of tree a_path ≡ Some (codes "one two one", 416) → CountsLines OneToDigit tree (a_line ∷ []) 1 2 }
{}

/// When a line is right, stale or different, and which lines lead apart.
pub fn lines_are_checked_as_in_the_examples()
    ensures right { (tree : Tree) → file_of tree a_path ≡ Some (codes "one two one", 416) → IsRight OneToDigit tree a_line }
    ensures stale { (tree : Tree) → file_of tree a_path ≡ Some (codes "one", 416) → sha256 (codes "one two one") ≢ sha256 (codes "one")
        → IsStale tree a_line (sha256 (codes "one")) }
    ensures different { (tree : Tree) → file_of tree a_path ≡ Some ([], 416) → sha256 (codes "x") ≢ sha256 []
        → IsDifferent EmptyToX tree (record empty_line { after = sha256 (codes "x") }) (sha256 []) }
    ensures first { (tree : Tree) → IsNextAfterRight OneToDigit tree (a_line ∷ empty_line ∷ []) a_line }
    ensures not_the_second { (tree : Tree) → file_of tree a_path ≡ None
        → IsNextAfterRight OneToDigit tree (a_line ∷ empty_line ∷ []) empty_line → ⊥ }
    ensures apart { AreApart (a_place ∷ b_place ∷ []) }
    ensures twice { AreApart (a_place ∷ a_place ∷ []) → ⊥ }
    ensures lead { (tree : Tree) → reached tree a_path true ≡ Some a_place → LeadApart tree (a_path ∷ []) (a_place ∷ []) }
{}
