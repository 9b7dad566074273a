//! Worked examples of the definitions.

ghost use Rattle.std.specs.Prelude.{◌≡◌, [], ◌∷◌, ◌++◌, codes, Some, None};
ghost use Rattle.sd_io.specs.Tree.{file, directory};
ghost use Rattle.demo_tree.specs.Demo.{demo_content, demo_place, demo_folder, demo_name};
ghost use Rattle.demo_tree.specs.Examples.{places_of_demo, texts_of_demo};

/// The tree of a demo of three files.
pub fn a_demo_has_its_files()
    ensures places { places_of_demo 3 ≡ (demo_place ++ codes "d00" ∷ codes "f00000000.txt" ∷ []) ∷ (demo_place ++ codes "d01" ∷ codes "f00000001.txt" ∷ [])
        ∷ (demo_place ++ codes "d02" ∷ codes "f00000002.md" ∷ []) ∷ [] }
    ensures texts { texts_of_demo 3 ≡ [] ∷ codes "one two 1 one\n" ∷ codes "one two 2 one\none two 2 one\n" ∷ [] }
    ensures second { demo_content 3 (demo_place ++ codes "d01" ∷ codes "f00000001.txt" ∷ []) ≡ Some (file (codes "one two 1 one\n") 420) }
    ensures top { demo_content 3 [] ≡ Some directory }
    ensures folder { demo_content 3 (demo_place ++ codes "d02" ∷ []) ≡ Some directory }
    ensures no_folder { demo_content 3 (demo_place ++ codes "d03" ∷ []) ≡ None }
    ensures no_file { demo_content 3 (demo_place ++ codes "d00" ∷ codes "f00000003.txt" ∷ []) ≡ None }
    ensures none { demo_content 0 demo_place ≡ Some directory }
    ensures far { demo_name 99998 ≡ codes "f00099998.md" }
    ensures far_folder { demo_folder 99998 ≡ demo_place ++ codes "d14" ∷ [] }
{}
