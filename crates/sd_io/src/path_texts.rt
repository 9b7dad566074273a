//! Laws of the texts of places, for those who work through any disk.

ghost use Rattle.std.specs.Prelude.{◌≡◌, ◌≢◌, ◌∷◌, ◌++◌, [], List, ℕ, Bool, IsTrue, false, Some, IsSome};
ghost use Rattle.std.specs.List.{join_with_byte};
ghost use Rattle.sd_io.specs.Tree.{Tree, Node, Name, NameList, IsTree, IsName, link, node_at, is_directory_at};
ghost use Rattle.sd_io.specs.Paths.{reached, named, parts_of};
ghost use Rattle.sd_io.specs.Files.{path_text};
ghost use Rattle.sd_io.specs.Lists.{directory_of};

/// The text of a place leads to what stands there, where no link is followed, and to a directory.
pub fn texts_of_places_lead_there()
    ensures not_followed { (tree : Tree) (place : NameList) (node : Node) →
        IsTree tree → node_at tree place ≡ Some node → reached tree (path_text place) false ≡ Some place }
    ensures no_link { (tree : Tree) (place : NameList) (follow : Bool) (node : Node) →
        IsTree tree → node_at tree place ≡ Some node → ((target : List ℕ) → node.content ≢ link target)
        → reached tree (path_text place) follow ≡ Some place }
    ensures directory { (tree : Tree) (place : NameList) →
        IsTree tree → IsTrue (is_directory_at tree place) → directory_of tree (path_text place) ≡ Some place }
{}

/// The text of a name in a directory names it, whether something stands there or not.
pub fn texts_of_places_name_them()
    ensures { (tree : Tree) (folder : NameList) (name : Name) →
        IsTree tree → IsTrue (is_directory_at tree folder) → IsName name
        → named tree (path_text (folder ++ name ∷ [])) ≡ Some (folder ++ name ∷ []) }
{}

/// The text of a place below a folder is the folder's text, `/` and the names from there; the top's text is `/` alone.
pub fn texts_of_places_below_a_folder()
    ensures below { (folder names : NameList) → folder ≢ [] → names ≢ []
        → path_text (folder ++ names) ≡ path_text folder ++ 47 ∷ join_with_byte 47 names }
    ensures top { (tree : Tree) (place : NameList) →
        IsTree tree → IsSome (node_at tree place) → path_text place ≡ path_text [] → place ≡ [] }
{}

/// The parts of the text of a place are its names.
pub fn texts_of_places_hold_their_names()
    ensures { (tree : Tree) (place : NameList) → IsTree tree → IsSome (node_at tree place) → parts_of (path_text place) ≡ place }
{}
