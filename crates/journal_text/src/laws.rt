//! Laws of journals.

ghost use Rattle.std.specs.Prelude.{◌≡◌, ◌<◌, ◌++◌, ℕ, List, codes};
ghost use Rattle.std.specs.Str.{IsUtf8};
ghost use Rattle.sd_io.specs.Tree.{NameList};
ghost use Rattle.sd_io.specs.Paths.{parts_of};
ghost use Rattle.sd_io.specs.Files.{path_text};
ghost use Rattle.file_exchange.specs.Reserved.{reserved_name, reserved_names};
ghost use Rattle.journal_text.specs.Paths.{AreNames, IsResolvedPath};
ghost use Rattle.journal_text.specs.Journal.{IsTextOf, number_digits};
ghost use Rattle.journal_text.specs.declared.line.Line.{Line};

/// A text is the text of at most one journal.
pub fn a_text_has_one_journal()
    ensures { (text : List ℕ) (one other : List Line) → IsTextOf text one → IsTextOf text other → one ≡ other }
{}

/// The text of a journal is UTF-8.
pub fn a_journal_is_text()
    ensures { (text : List ℕ) (lines : List Line) → IsTextOf text lines → IsUtf8 text }
{}

/// The four digits of a number are those of the reserved name of that number.
pub fn a_number_is_in_its_stages_name()
    ensures { (number : ℕ) → number < reserved_names
        → reserved_name number ≡ codes ".sd-" ++ (number_digits number ++ codes ".tmp") }
{}

/// A resolved path is the path of one place, whose names are its parts.
pub fn a_path_has_one_place()
    ensures one { (one other : NameList) → AreNames one → AreNames other → path_text one ≡ path_text other → one ≡ other }
    ensures parts { (place : NameList) → AreNames place → parts_of (path_text place) ≡ place }
    ensures path { (path : List ℕ) → IsResolvedPath path → AreNames (parts_of path) × (path ≡ path_text (parts_of path)) }
{}
