//! Worked examples of what answers tell, and of what levels hold.

ghost use Rattle.std.specs.Prelude.{◌≡◌, Bool, true, false, [], ◌∷◌, Some, None, Ok, Err, codes};
ghost use Rattle.sd_io.specs.Tree.{Tree};
ghost use Rattle.sd_io.specs.declared.meta.Ident.{Ident};
ghost use Rattle.sd_io.specs.declared.meta.RawEntry.{RawEntry};
ghost use Rattle.walk_rest.specs.declared.entry.DirEntry.{DirEntry};
ghost use Rattle.walk_rest.specs.declared.error.Error.TheVariants as error;
ghost use Rattle.walk_rest.specs.declared.level.Due.{Due};
ghost use Rattle.walk_rest.specs.declared.level.Entries.TheVariants.{Kept, Unread};
ghost use Rattle.walk_rest.specs.declared.level.Folder.{Folder};
ghost use Rattle.walk_rest.specs.declared.level.Level.{Level};
ghost use Rattle.walk_rest.specs.Plan.{ListsNames};
ghost use Rattle.walk_steps.specs.Causes.{faults_due, faults_told};
ghost use Rattle.walk_steps.specs.Listed.{IsToList, entered_in, gives_below, waits_in};

/// How many counted faults an answer tells.
pub fn faults_are_told_as_in_the_examples()
    ensures failed { (tells : Bool) → faults_told tells (Some (Err (error.Disk None 1))) ≡ 1 }
    ensures nowhere { faults_told true (Some (Err (error.Absent (codes "a") 1))) ≡ 0 }
    ensures nowhere_untold { faults_told false (Some (Err (error.Absent (codes "a") 1))) ≡ 1 }
    ensures looping { (ident : Ident) → faults_told false (Some (Err (error.Loop (codes "a/b") 2 (codes "a") ident))) ≡ 0 }
    ensures entry { (tells : Bool) (entry : DirEntry) → faults_told tells (Some (Ok entry)) ≡ 0 }
    ensures ended { (tells : Bool) → faults_told tells None ≡ 0 }
{}

/// How many faults are due of levels, how many directories they are, how many entries are listed as one is read, and how many wait to be given.
pub fn levels_are_counted_as_in_the_examples()
    ensures due { (a b : Level) (x y z : Due) → a.faults.items ≡ x ∷ y ∷ [] → b.faults.items ≡ z ∷ [] → faults_due (a ∷ b ∷ []) ≡ 3 }
    ensures entered { (root a b : Level) (in_a in_b : Folder) → root.folder ≡ None → a.folder ≡ Some in_a → b.folder ≡ Some in_b
        → entered_in (root ∷ a ∷ b ∷ []) ≡ 2 }
    ensures to_list { (tree : Tree) (folder : Folder) (a b : RawEntry) → folder.depth ≡ 1 → ListsNames tree folder.path (a ∷ b ∷ [])
        → IsToList tree 2 (Some folder) Unread 2 }
    ensures at_max_depth { (tree : Tree) (folder : Folder) → folder.depth ≡ 2 → IsToList tree 2 (Some folder) Unread 0 }
    ensures at_root { (root : DirEntry) → root.depth ≡ 0 → gives_below (Some (Ok root)) ≡ 0 }
    ensures below_root { (inner : DirEntry) → inner.depth ≡ 2 → gives_below (Some (Ok inner)) ≡ 1 }
    ensures first_waits { (level : Level) (folder : Folder) (left : DirEntry) → level.folder ≡ Some folder → level.entries ≡ Unread → level.first ≡ Some left
        → left.depth ≡ 1 → waits_in (level ∷ []) ≡ 1 }
    ensures kept_wait { (level : Level) (folder : Folder) (x y : DirEntry) (kept : _) → level.folder ≡ Some folder → level.entries ≡ Kept kept
        → kept.items ≡ x ∷ y ∷ [] → level.first ≡ None → waits_in (level ∷ []) ≡ 2 }
    ensures root_waits { (level : Level) → level.folder ≡ None → level.first ≡ None → waits_in (level ∷ []) ≡ 0 }
{}
