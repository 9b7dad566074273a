//! Laws of what a crash may leave, for those who work through any disk.

ghost use Rattle.std.specs.Prelude.{◌≡◌, ◌≢◌, ◌++◌, ◌∷◌, [], ℕ, List, Option, None, IsSome};
ghost use Rattle.sd_io.specs.Tree.{Name, NameList, Content, node_at, file_at};
ghost use Rattle.sd_io.specs.Outcomes.{Leaves, own_of, content_at};
ghost use Rattle.sd_io.specs.Disk.{DiskState, HoldsPresent, outcomes_now};
ghost use Rattle.sd_io.specs.Files.{Creates, Writes, Syncs, Renames, RenamesNot, Removes};
ghost use Rattle.sd_io.specs.Lists.{SyncsFolder};
ghost use Rattle.sd_io.specs.Crashes.{IsSettledAt};
ghost use Rattle.change_phases.specs.Phases.{IsOnly, AreAny};

/// A file that was created, written and synced is settled: each of its own outcomes leaves it as it stands.
pub fn a_file_is_settled_by_a_sync()
    ensures created { (old new : DiskState) (path like : List ℕ) (c : Creates old path like new) → AreAny (own_of (outcomes_now new c.place)) }
    ensures written { (old new : DiskState) (path bytes : List ℕ) (w : Writes old path bytes new)
        → AreAny (own_of (outcomes_now old w.place)) → AreAny (own_of (outcomes_now new w.place)) }
    ensures synced { (old new : DiskState) (path : List ℕ) (y : Syncs old path new)
        → AreAny (own_of (outcomes_now old y.place)) → IsSettledAt new y.place }
{}

/// What is settled stays so while another file is renamed; a settled file that is renamed is settled at its new place; and
/// where a file was removed there is nothing to settle.
pub fn settled_files_stay_settled()
    ensures renamed { (old new : DiskState) (from to : List ℕ) (r : Renames old from to new) → r.source ≢ r.target → (q : NameList) → q ≢ r.source → q ≢ r.target
        → IsSettledAt old q → IsSettledAt new q }
    ensures renamed_there { (old new : DiskState) (from to : List ℕ) (r : Renames old from to new) → r.source ≢ r.target → IsSettledAt old r.source → IsSettledAt new r.target }
    ensures not_renamed { (old new : DiskState) (from to : List ℕ) (r : RenamesNot old from to new) → r.source ≢ r.target → (q : NameList) → q ≢ r.source → q ≢ r.target
        → IsSettledAt old q → IsSettledAt new q }
    ensures not_renamed_there { (old new : DiskState) (from to : List ℕ) (r : RenamesNot old from to new) → r.source ≢ r.target → IsSettledAt old r.target → IsSettledAt new r.target }
    ensures removed { (old new : DiskState) (path : List ℕ) (r : Removes old path new) → IsSettledAt new r.place }
{}

/// After the sync of a folder a settled file in it is found as it stands, and nothing where nothing stands; at no place
/// a crash leaves more than before.
pub fn a_folder_is_put_on_the_medium()
    ensures settled { (old new : DiskState) (path : List ℕ) (y : SyncsFolder old path new) (name : Name) → IsSome (file_at old.tree (y.folder ++ name ∷ []))
        → IsSettledAt old (y.folder ++ name ∷ []) → IsOnly new (y.folder ++ name ∷ []) (λ found. found ≡ content_at old.tree (y.folder ++ name ∷ [])) }
    ensures gone { (old new : DiskState) (path : List ℕ) (y : SyncsFolder old path new) (name : Name) → node_at old.tree (y.folder ++ name ∷ []) ≡ None
        → IsOnly new (y.folder ++ name ∷ []) (λ found. found ≡ None) }
    ensures no_more { (old new : DiskState) (path : List ℕ) (q : NameList) (found : Option Content) → HoldsPresent old → SyncsFolder old path new
        → Leaves (outcomes_now new q) found → Leaves (outcomes_now old q) found }
{}
