//! Laws of paths, for those who work through any disk.

ghost use Rattle.std.specs.Prelude.{◌≡◌, ◌≢◌, ◌<◌, ◌+◌, ◌-◌, ◌^◌, List, ℕ, Bool, false, Some, None, IsSome, min};
ghost use Rattle.sd_io.specs.Tree.{Tree, Node, NameList, link, node_at, file_at};
ghost use Rattle.sd_io.specs.Paths.{reached, named, plain_file, SameWays};
ghost use Rattle.sd_io.specs.Disk.{DiskState};
ghost use Rattle.sd_io.specs.Files.{file_of, file_named, Creates, Writes, MayHaveWritten, Renames, MayHaveRenamed, Removes};
ghost use Rattle.sd_io.specs.Lists.{directory_of};

/// What a path names, and the directory that it leads to, rest on directories and links alone. And while those are the
/// same, a path still leads where it led, as long as something stands there.
pub fn paths_rest_on_directories_and_links()
    ensures named { (old new : Tree) (path : List ℕ) → SameWays old new → named new path ≡ named old path }
    ensures directory { (old new : Tree) (path : List ℕ) → SameWays old new → directory_of new path ≡ directory_of old path }
    ensures reached { (old new : Tree) (path : List ℕ) (follow : Bool) (place : NameList) →
        SameWays old new → reached old path follow ≡ Some place → IsSome (node_at new place) → reached new path follow ≡ Some place }
{}

/// A path leads to the place that it names, where something stands there and no link is followed, and nowhere where
/// nothing does.
pub fn paths_lead_where_they_name()
    ensures no_link { (tree : Tree) (path : List ℕ) (follow : Bool) (place : NameList) (node : Node) →
        named tree path ≡ Some place → node_at tree place ≡ Some node → ((target : List ℕ) → node.content ≢ link target)
        → reached tree path follow ≡ Some place }
    ensures not_followed { (tree : Tree) (path : List ℕ) (place : NameList) (node : Node) →
        named tree path ≡ Some place → node_at tree place ≡ Some node → reached tree path false ≡ Some place }
    ensures free { (tree : Tree) (path : List ℕ) (follow : Bool) (place : NameList) →
        named tree path ≡ Some place → node_at tree place ≡ None → reached tree path follow ≡ None }
    ensures file { (tree : Tree) (path : List ℕ) (follow : Bool) (place : NameList) →
        named tree path ≡ Some place → IsSome (file_at tree place) → reached tree path follow ≡ Some place }
    ensures file_of { (tree : Tree) (path : List ℕ) (f : List ℕ × ℕ) → file_named tree path ≡ Some f → file_of tree path ≡ Some f }
{}

/// The regular file that a path leads to with no link followed is the one that it leads to.
pub fn plain_paths_lead_as_others()
    ensures { (tree : Tree) (path : List ℕ) (f : List ℕ × ℕ) → plain_file tree path ≡ Some f → file_of tree path ≡ Some f }
{}

/// Calls on files keep every directory and every link, also where they fail.
pub fn calls_on_files_keep_directories_and_links()
    ensures creates { (old : DiskState) (path like : List ℕ) (new : DiskState) → Creates old path like new → SameWays old.tree new.tree }
    ensures writes { (old : DiskState) (path bytes : List ℕ) (new : DiskState) → Writes old path bytes new → SameWays old.tree new.tree }
    ensures may_have_written { (old : DiskState) (path : List ℕ) (new : DiskState) → MayHaveWritten old path new → SameWays old.tree new.tree }
    ensures renames { (old : DiskState) (from to : List ℕ) (new : DiskState) → Renames old from to new → SameWays old.tree new.tree }
    ensures may_have_renamed { (old : DiskState) (from to : List ℕ) (new : DiskState) → MayHaveRenamed old from to new → SameWays old.tree new.tree }
    ensures removes { (old : DiskState) (path : List ℕ) (new : DiskState) → Removes old path new → SameWays old.tree new.tree }
{}
