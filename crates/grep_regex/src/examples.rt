//! Worked examples of options.

ghost use Rattle.std.specs.Prelude.{◌≡◌, [], ◌∷◌, codes, Some, None, true, false, List, ℕ};
ghost use Rattle.hir_tree.specs.Tree.{Tree, alternation, capture, class_bytes, class_chars, concat, literal, look, none, trees};
ghost use Rattle.hir_tree.specs.declared.look.Look.TheVariants as look;
ghost use Rattle.grep_regex.specs.NonMatching.{IsNonMatching};
ghost use Rattle.grep_regex.specs.Options.{edged, names_in, number_of, terminator_told, together};
ghost use Rattle.grep_regex.specs.Stripping.{asks_for, not_allowed, stripped, without};
ghost use Rattle.grep_regex.specs.declared.options.Options.{Options};

/// `(?-u)\s` without `\n`, the ASCII characters without the first, `\s` at lines that end with `\r\n`, and an empty class.
pub fn classes_are_stripped_as_in_the_examples()
    ensures spaces { without 10 ((9, 13) ∷ (32, 32) ∷ []) ≡ (9, 9) ∷ (11, 13) ∷ (32, 32) ∷ [] }
    ensures first { without 0 ((0, 127) ∷ []) ≡ (1, 127) ∷ [] }
    ensures both { stripped (13 ∷ 10 ∷ []) (class_bytes ((9, 13) ∷ [])) ≡ class_bytes ((9, 9) ∷ (11, 12) ∷ []) }
    ensures nothing_there { stripped (10 ∷ []) (class_chars []) ≡ class_chars [] }
{}

/// For which byte a pattern can't be stripped: in a literal, for `[\r\n]`, and for `\n` before `[\r]`; an empty class and a class
/// with other members are no reason.
pub fn patterns_are_refused_as_in_the_examples()
    ensures in_a_literal { not_allowed (10 ∷ []) (literal (codes "a\nz")) ≡ Some 10 }
    ensures both_bytes { not_allowed (13 ∷ 10 ∷ []) (class_bytes ((10, 10) ∷ (13, 13) ∷ [])) ≡ Some 10 }
    ensures return_first { not_allowed (13 ∷ 10 ∷ [])
        (concat (trees (literal (codes "\n") ∷ class_bytes ((13, 13) ∷ []) ∷ []))) ≡ Some 13 }
    ensures empty_class { not_allowed (13 ∷ 10 ∷ []) (class_chars []) ≡ None }
    ensures space { not_allowed (10 ∷ []) (class_bytes ((9, 13) ∷ [])) ≡ None }
    ensures banned { asks_for 0 (class_chars ((0, 0) ∷ [])) ≡ true }
    ensures not_banned { asks_for 0 (class_chars ((0, 0) ∷ (97, 97) ∷ [])) ≡ false }
{}

/// `(a)` and `(?P<n>b)` together, one pattern alone, and none; and the number of the group that is named.
pub fn patterns_are_joined_as_in_the_examples()
    ensures two { together (capture 1 None (literal (codes "a")) ∷ capture 1 (Some (codes "n")) (literal (codes "b")) ∷ [])
        ≡ alternation (trees (capture 1 None (literal (codes "a")) ∷ capture 2 (Some (codes "n")) (literal (codes "b")) ∷ [])) }
    ensures one { together (literal (codes "a") ∷ []) ≡ literal (codes "a") }
    ensures no_pattern { together [] ≡ alternation none }
    ensures named { number_of
        (names_in (together (capture 1 None (literal (codes "a")) ∷ capture 1 (Some (codes "n")) (literal (codes "b")) ∷ [])))
        (codes "n") ≡ Some 2 }
    ensures not_named { number_of (names_in (capture 1 None (literal (codes "n")))) (codes "n") ≡ None }
{}

/// What stands round a pattern: line anchors first, with `\r\n` those of such lines; else half word edges, else word edges.
pub fn options_ask_for_edges_as_in_the_examples()
    ensures line { (o : Options) (tree : Tree) → edged (record o { whole_line = true; crlf = false }) tree
        ≡ concat (trees (look look.StartLF ∷ tree ∷ look look.EndLF ∷ [])) }
    ensures crlf { (o : Options) (tree : Tree) → edged (record o { whole_line = true; crlf = true }) tree
        ≡ concat (trees (look look.StartCRLF ∷ tree ∷ look look.EndCRLF ∷ [])) }
    ensures word { (o : Options) (tree : Tree) → edged (record o { whole_line = false; word = true; unicode = true }) tree
        ≡ concat (trees (look look.WordStartHalfUnicode ∷ tree ∷ look look.WordEndHalfUnicode ∷ [])) }
    ensures word_edges { (o : Options) (tree : Tree)
        → edged (record o { whole_line = false; word = false; word_edges = true; unicode = false }) tree
        ≡ concat (trees (look look.WordAscii ∷ tree ∷ look look.WordAscii ∷ [])) }
    ensures nothing { (o : Options) (tree : Tree)
        → edged (record o { whole_line = false; word = false; word_edges = false }) tree ≡ tree }
{}

/// A matcher tells of no terminator where its pattern asks for the start or the end of the text; that of a line is no reason.
pub fn terminators_are_told_as_in_the_examples()
    ensures text { (o : Options) → terminator_told o (concat (trees (look look.Start ∷ literal (codes "a") ∷ []))) ≡ None }
    ensures line { (o : Options) → terminator_told o (concat (trees (look look.StartLF ∷ literal (codes "a") ∷ []))) ≡ o.line_terminator }
{}

/// `[a-z]` takes no `\n`. With `(?m)$` a searcher looks at `\n` all the same, and where `\r` may end a line at `\r` too. A byte of
/// the encoding of `é` is taken.
pub fn bytes_are_in_no_match_as_in_the_examples()
    ensures letters { IsNonMatching (class_bytes ((97, 122) ∷ [])) 10 }
    ensures line_end { IsNonMatching (look look.EndLF) 10 → ⊥ }
    ensures no_return { IsNonMatching (look look.EndLF) 13 }
    ensures crlf_end { IsNonMatching (look look.EndCRLF) 13 → ⊥ }
    ensures encoded { IsNonMatching (class_chars ((0xE9, 0xE9) ∷ [])) 0xA9 → ⊥ }
{}
