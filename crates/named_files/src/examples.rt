//! Worked examples of the definitions.

ghost use Rattle.std.specs.Prelude.{◌≡◌, ◌∷◌, [], codes, true, false, Some};
ghost use Rattle.sd_io.specs.Tree.{Tree};
ghost use Rattle.sd_io.specs.Files.{file_of};
ghost use Rattle.sd_io.specs.Disk.{DiskState};
ghost use Rattle.sd_io.specs.Streams.{SinkState};
ghost use Rattle.sd_io.specs.declared.fault.DiskFault.TheVariants as disk;
ghost use Rattle.sd_course.specs.Course.{Course};
ghost use Rattle.file_rewrite.specs.Examples.{OneToDigit};
ghost use Rattle.many_files.specs.Clear.{LeadsToFile};
ghost use Rattle.named_files.specs.Clear.{IsFirstUnshown};
ghost use Rattle.named_files.specs.Preview.{header_of, text_with, HasText, are_many, AnswersNoPath};
ghost use Rattle.named_files.specs.declared.fault.PreviewFault.TheVariants as preview;
ghost use Rattle.named_files.specs.Examples.{a_path, b_path};

/// What is shown of files, and what is told of a path that names no file.
pub fn named_files_are_shown_as_in_the_examples()
    ensures header { header_of (codes "a") ≡ codes "----- FILE a -----\n" }
    ensures of_many { text_with true a_path (codes "1") 1 ≡ codes "----- FILE /t/a.txt -----\n1\n" }
    ensures alone { text_with false a_path (codes "1") 1 ≡ codes "1\n" }
    ensures nothing_replaced { text_with true a_path (codes "two") 0 ≡ [] }
    ensures one_word { are_many (a_path ∷ []) ≡ false }
    ensures two_words { are_many (a_path ∷ b_path ∷ []) ≡ true }
    ensures text { (tree : Tree) → file_of tree a_path ≡ Some (codes "one", 416) → HasText OneToDigit true tree a_path (codes "----- FILE /t/a.txt -----\n1\n") }
    ensures none_of_two { (tree : Tree) → file_of tree a_path ≡ Some (codes "two", 416) → HasText OneToDigit false tree a_path [] }
    ensures first_unshown { (tree : Tree) → LeadsToFile tree a_path → IsFirstUnshown (a_path ∷ [] ∷ b_path ∷ []) tree [] }
    ensures told_in_a_preview { (d : Course DiskState) (out : Course SinkState) → AnswersNoPath d out [] (preview.InvalidPath []) }
    ensures not_told_as_missing { (d : Course DiskState) (out : Course SinkState) → AnswersNoPath d out [] (preview.File disk.Absent) → ⊥ }
{}
