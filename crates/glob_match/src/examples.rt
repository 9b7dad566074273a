//! Worked examples of globs.

ghost use Rattle.std.specs.Prelude.{codes, [], ◌∷◌, ◌+◌, ◌≡◌, ◌↔◌, ℕ, true, false, IsSome, Some};
ghost use Rattle.glob_match.specs.Examples.{IsInvalid, IsReadAs, HasCaptures, bytes, character};
ghost use Rattle.glob_match.specs.Pieces.Pieces.{no_pieces, piece, brace};
ghost use Rattle.glob_match.specs.Pieces.Options.{no_options, option};
ghost use Rattle.glob_match.specs.Reading.{pieces_of};
ghost use Rattle.glob_match.specs.Takes.{Fits};
ghost use Rattle.glob_match.specs.declared.piece.Single.TheVariants.{AnyCharacter, Class};
ghost use Rattle.glob_match.specs.declared.piece.Piece.TheVariants.{One, AnyRun, AnyDepth, AnyRest};

/// How globs are read, and which are invalid.
pub fn globs_are_read_as_in_the_examples()
    ensures open_brace { IsInvalid (codes "{a") }
    ensures open_class { IsInvalid (codes "[!]") }
    ensures open_class_of_two { IsInvalid (codes "[^]a") }
    ensures last_backslash { IsInvalid (codes "a\\") }
    ensures eleven_braces { IsInvalid (codes "{{{{{{{{{{{}}}}}}}}}}}") }
    ensures ten_braces { IsSome (pieces_of (codes "{{{{{{{{{{}}}}}}}}}}")) }
    ensures any_rest { IsReadAs (codes "a**") (character 97 (piece AnyRest no_pieces)) }
    ensures any_depth { IsReadAs (codes "a/**/b") (character 97 (character 47 (piece AnyDepth (character 98 no_pieces)))) }
    ensures any_depth_in_a_word { IsReadAs (codes "a**/**/b") (character 97 (piece AnyDepth (character 98 no_pieces))) }
    ensures stars_in_a_word { IsReadAs (codes "a**/b") (character 97 (piece AnyRun (character 47 (character 98 no_pieces)))) }
    ensures empty_option { IsReadAs (codes "x{a,}") (character 120 (brace (option (character 97 no_pieces) (option no_pieces no_options)) no_pieces)) }
    ensures signs_outside { IsReadAs (codes "!!},]") (character 125 (character 44 (character 93 no_pieces))) }
    ensures class { IsReadAs (codes "[^a-c\\n-]") (piece (One (Class true (record { first = 97; last = 99 } ∷ record { first = 10; last = 10 } ∷ record { first = 45; last = 45 } ∷ []))) no_pieces) }
    ensures closing_member { IsReadAs (codes "[]a]") (piece (One (Class false (record { first = 93; last = 93 } ∷ record { first = 97; last = 97 } ∷ []))) no_pieces) }
    ensures escapes { IsReadAs (codes "\\a\\*\\b") (character 97 (character 42 (character 8 no_pieces))) }
    ensures one_character { IsReadAs (codes "?") (piece (One AnyCharacter) no_pieces) }
{}

/// How star tokens, braces and classes are read where that isn't plain.
pub fn hard_globs_are_read_as_in_the_examples()
    ensures most_tails { IsReadAs (codes "**/***") (piece AnyRun (piece AnyRun no_pieces)) }
    ensures stars_at_a_braces_end { IsReadAs (codes "{d/**}") (brace (option (character 100 (character 47 (piece AnyRun no_pieces))) no_options) no_pieces) }
    ensures stars_after_a_brace_opens { IsReadAs (codes "{**/x,y}") (brace (option (piece AnyRun (character 47 (character 120 no_pieces))) (option (character 121 no_pieces) no_options)) no_pieces) }
    ensures stars_after_an_escaped_slash { IsReadAs (codes "\\/**/x") (character 47 (piece AnyDepth (character 120 no_pieces))) }
    ensures stars_before_an_escaped_slash { IsReadAs (codes "**\\/x") (piece AnyRun (character 47 (character 120 no_pieces))) }
    ensures escaped_end_of_a_class { IsReadAs (codes "[a\\]]") (piece (One (Class false (record { first = 97; last = 97 } ∷ record { first = 93; last = 93 } ∷ []))) no_pieces) }
    ensures range_from_a_dash { IsReadAs (codes "[--a]") (piece (One (Class false (record { first = 45; last = 97 } ∷ []))) no_pieces) }
    ensures reversed_range { IsReadAs (codes "[z-a]") (piece (One (Class false (record { first = 122; last = 97 } ∷ []))) no_pieces) }
    ensures negated_sign { IsReadAs (codes "[!!]") (piece (One (Class true (record { first = 33; last = 33 } ∷ []))) no_pieces) }
    ensures brace_in_a_brace { IsReadAs (codes "{{a,b},c}") (brace (option (brace (option (character 97 no_pieces) (option (character 98 no_pieces) no_options)) no_pieces) (option (character 99 no_pieces) no_options)) no_pieces) }
    ensures two_empty_options { IsReadAs (codes "{,}") (brace (option no_pieces (option no_pieces no_options)) no_pieces) }
{}

/// Which paths globs fit.
pub fn globs_fit_as_in_the_examples()
    ensures closing_member { Fits (codes "[]a]") (codes "]") }
    ensures any_rest { Fits (codes "a**") (codes "a/b/c") }
    ensures any_depth { Fits (codes "a/**/b") (codes "a/b") }
    ensures any_depth_first { Fits (codes "**/b*c") (codes "b/bc") }
    ensures empty_option { Fits (codes "x{a,}") (codes "x") }
    ensures class_in_a_brace { Fits (codes "a/{b,c[}]*}") (codes "a/c}xx") }
    ensures negated { Fits (codes "!*.md") (codes "x.txt") }
    ensures negated_twice { Fits (codes "!!*.md") (codes "x.md") }
    ensures invalid { ¬ Fits (codes "{a") (codes "a") }
    ensures invalid_negated { ¬ Fits (codes "!x[") (codes "y") }
{}

/// What globs capture of paths, as ranges of bytes.
pub fn captures_are_as_in_the_examples()
    ensures one_character { HasCaptures (codes "?") (233 ∷ []) (bytes 0 2 ∷ []) }
    ensures second_option { HasCaptures (codes "{a*,b?}") (codes "bc") (bytes 0 2 ∷ bytes 0 0 ∷ bytes 1 2 ∷ []) }
    ensures brace_not_taken { HasCaptures (codes "{a{b,c},d?}") (codes "dx") (bytes 0 2 ∷ bytes 0 0 ∷ bytes 1 2 ∷ []) }
    ensures no_folder { HasCaptures (codes "a/**/b") (codes "a/b") (bytes 2 2 ∷ []) }
    ensures folders { HasCaptures (codes "some/**/{a,b,c}/**/needle.txt") (codes "some/path/a/to/the/needle.txt") (bytes 5 9 ∷ bytes 10 11 ∷ bytes 12 18 ∷ []) }
    ensures negated { HasCaptures (codes "!*.md") (codes "x.txt") [] }
{}
