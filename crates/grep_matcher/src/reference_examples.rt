//! Worked examples of references in replacement texts.

ghost use Rattle.std.specs.Prelude.{◌≡◌, Some, None, codes, ◌∷◌, []};
ghost use Rattle.grep_matcher.specs.References.{reference_at, number, named, pieces, byte, two_dollars, group, expand};
ghost use Rattle.grep_matcher.specs.ReferenceExamples.{texts, numbers};

/// The references at the front of some texts.
pub fn references_read_as_in_the_examples()
    ensures name { reference_at (codes "$foo bar") ≡ Some (record { target = named (codes "foo"); width = 4 }) }
    ensures braced_name { reference_at (codes "${foo}bar") ≡ Some (record { target = named (codes "foo"); width = 6 }) }
    ensures number { reference_at (codes "$42") ≡ Some (record { target = number 42; width = 3 }) }
    ensures braced_number { reference_at (codes "${42}a") ≡ Some (record { target = number 42; width = 5 }) }
    ensures longest_name { reference_at (codes "$42a") ≡ Some (record { target = named (codes "42a"); width = 4 }) }
    ensures greatest_number { reference_at (codes "$4294967295") ≡ Some (record { target = number 4294967295; width = 11 }) }
    ensures past_the_greatest { reference_at (codes "$4294967296") ≡ Some (record { target = named (codes "4294967296"); width = 11 }) }
    ensures next_to_another { reference_at (codes "$a$b") ≡ Some (record { target = named (codes "a"); width = 2 }) }
    ensures not_closed { reference_at (codes "${42") ≡ None }
    ensures not_a_name { reference_at (codes "${a b}") ≡ None }
    ensures no_name { reference_at (codes "${}") ≡ None }
    ensures dollar_alone { reference_at (codes "$") ≡ None }
    ensures two_dollars { reference_at (codes "$$a") ≡ None }
    ensures further_on { reference_at (codes "a$1") ≡ None }
{}

/// The pieces of some texts.
pub fn pieces_are_as_in_the_examples()
    ensures dollar_alone { pieces (codes "$") ≡ byte 36 ∷ [] }
    ensures four_dollars { pieces (codes "$$$$") ≡ two_dollars ∷ two_dollars ∷ [] }
    ensures dollar_before_a_name { pieces (codes "$$a") ≡ two_dollars ∷ byte 97 ∷ [] }
    ensures names { pieces (codes "$a$b") ≡ group (named (codes "a")) ∷ group (named (codes "b")) ∷ [] }
    ensures number_and_byte { pieces (codes "${42}a") ≡ group (number 42) ∷ byte 97 ∷ [] }
{}

/// Some texts with the groups 0 and 1 empty, the group 2 `xxx` and named `foo`.
pub fn texts_expand_as_in_the_examples()
    ensures number { expand texts numbers (codes "test${2}test") ≡ codes "testxxxtest" }
    ensures name { expand texts numbers (codes "test${foo}test") ≡ codes "testxxxtest" }
    ensures dollar { expand texts numbers (codes "test $$foo test") ≡ codes "test $foo test" }
    ensures no_reference { expand texts numbers (codes "test ${a b} test") ≡ codes "test ${a b} test" }
    ensures unknown_name { expand texts numbers (codes "test $foobar test") ≡ codes "test  test" }
    ensures no_group { expand texts numbers (codes "test$7") ≡ codes "test" }
{}
