//! Worked readings: patterns, what each is read as, how deep it nests, how many groups it has, and its literal characters.

ghost use Rattle.std.specs.Prelude.{[], ◌∷◌, ◌++◌, true, false, codes, None, Some};
ghost use Rattle.hir_tree.specs.declared.look.Look.TheVariants as look;
ghost use Rattle.pattern_syntax.specs.Examples.{IsReadAs, bytes, capture, chars, choice, empty, literal, looks, of_bytes, plain, repetition, row, with_crlf, with_crlf_lines, with_dot_all, with_lines, with_octal, with_spaces};

/// Groups, branches and flags.
pub fn groups_are_read_as_in_the_examples()
    ensures no_text { IsReadAs plain [] empty 0 0 [] }
    ensures flags_alone { IsReadAs plain (codes "(?i)a") (row (empty ∷ chars (codes "aA") ∷ [])) 1 0 (codes "a") }
    ensures flags_over_branches { IsReadAs plain (codes "(a(?i)b|c)d") (row (capture 1 None (choice (row (literal (codes "a") ∷ empty ∷ chars (codes "bB") ∷ []) ∷ chars (codes "c") ∷ [])) ∷ literal (codes "d") ∷ [])) 4 1 (codes "abcd") }
    ensures greed_over_branches { IsReadAs plain (codes "(?P<n>a(?U)b*|c*?)d") (row (capture 1 (Some (codes "n")) (choice (row (literal (codes "a") ∷ empty ∷ repetition 0 None false (literal (codes "b")) ∷ []) ∷ repetition 0 None true (literal (codes "c")) ∷ [])) ∷ literal (codes "d") ∷ [])) 5 1 (codes "abcd") }
    ensures names { IsReadAs plain (codes "(?<n>a)(?P<m>b)()") (row (capture 1 (Some (codes "n")) (literal (codes "a")) ∷ capture 2 (Some (codes "m")) (literal (codes "b")) ∷ capture 3 None empty ∷ [])) 2 3 (codes "ab") }
    ensures nested { IsReadAs plain (codes "((a))") (capture 1 None (capture 2 None (literal (codes "a")))) 2 2 (codes "a") }
    ensures empty_branches { IsReadAs plain (codes "a||(|b)") (choice (literal (codes "a") ∷ empty ∷ capture 1 None (choice (empty ∷ literal (codes "b") ∷ [])) ∷ [])) 3 1 (codes "ab") }
    ensures flags_in_a_row { IsReadAs plain (codes "(?s-x)(?x) .#") (row (empty ∷ empty ∷ chars ((codes "abckzABK09 -]&^_") ++ (10 ∷ 233 ∷ 383 ∷ 8490 ∷ [])) ∷ [])) 1 0 [] }
    ensures spaced_group { IsReadAs plain (codes "(?x: a b )c d") (row (row (literal (codes "a") ∷ literal (codes "b") ∷ []) ∷ literal (codes "c") ∷ literal (codes " ") ∷ literal (codes "d") ∷ [])) 3 0 (codes "abc d") }
    ensures spaced_parenthesis { IsReadAs with_spaces (codes "( ?:a)") (literal (codes "a")) 1 0 (codes "a") }
{}

/// Repetitions.
pub fn repetitions_are_read_as_in_the_examples()
    ensures counts { IsReadAs plain (codes "a{2,3}b{1,}c{ 2 , 4294967295 }") (row (repetition 2 (Some 3) true (literal (codes "a")) ∷ repetition 1 None true (literal (codes "b")) ∷ repetition 2 (Some 4294967295) true (literal (codes "c")) ∷ [])) 2 0 (codes "abc") }
    ensures swapped_count { IsReadAs plain (codes "a{2}?") (repetition 2 (Some 2) false (literal (codes "a"))) 1 0 (codes "a") }
    ensures of_a_repetition { IsReadAs plain (codes "a???") (repetition 0 (Some 1) true (repetition 0 (Some 1) false (literal (codes "a")))) 2 0 (codes "a") }
    ensures spaced { IsReadAs plain (codes "(?x)a {2} ?b * + # c") (row (empty ∷ repetition 2 (Some 2) false (literal (codes "a")) ∷ repetition 1 None true (repetition 0 None true (literal (codes "b"))) ∷ [])) 3 0 (codes "ab") }
    ensures brackets_alone { IsReadAs plain (codes "^*]}") (row (repetition 0 None true (looks look.Start) ∷ literal (codes "]") ∷ literal (codes "}") ∷ [])) 2 0 (codes "]}") }
{}

/// Looks, and what stands for any character.
pub fn places_are_read_as_in_the_examples()
    ensures edge_repeated { IsReadAs plain (codes "\\b{2}") (repetition 2 (Some 2) true (looks look.WordUnicode)) 1 0 [] }
    ensures word_start { IsReadAs plain (codes "\\b{start}") (looks look.WordStartUnicode) 0 0 [] }
    ensures half_edge_repeated { IsReadAs plain (codes "\\b{end-half}{2}") (repetition 2 (Some 2) true (looks look.WordEndHalfUnicode)) 1 0 [] }
    ensures kinds { IsReadAs plain (codes "\\B\\<\\>\\A\\z") (row (looks look.WordUnicodeNegate ∷ looks look.WordStartUnicode ∷ looks look.WordEndUnicode ∷ looks look.Start ∷ looks look.End ∷ [])) 1 0 [] }
    ensures ascii_edge { IsReadAs plain (codes "(?-u)\\b") (row (empty ∷ looks look.WordAscii ∷ [])) 1 0 [] }
    ensures ends_of_lines_of_two { IsReadAs with_crlf_lines (codes "^$") (row (looks look.StartCRLF ∷ looks look.EndCRLF ∷ [])) 1 0 [] }
    ensures ends_of_lines { IsReadAs with_lines (codes "^$") (row (looks look.StartLF ∷ looks look.EndLF ∷ [])) 1 0 [] }
    ensures dot_of_bytes { IsReadAs of_bytes (codes ".") (bytes ((codes "abckzABK09 -]&^_") ++ (233 ∷ []))) 0 0 [] }
    ensures dot_on_lines_of_two { IsReadAs with_crlf (codes ".") (chars ((codes "abckzABK09 -]&^_") ++ (233 ∷ 383 ∷ 8490 ∷ []))) 0 0 [] }
    ensures dot_of_all { IsReadAs with_dot_all (codes ".") (chars ((codes "abckzABK09 -]&^_") ++ (10 ∷ 233 ∷ 383 ∷ 8490 ∷ []))) 0 0 [] }
{}

/// Escapes.
pub fn escapes_are_read_as_in_the_examples()
    ensures categories { IsReadAs plain (codes "\\pL\\p{nD}") (row (chars ((codes "abckzABK") ++ (233 ∷ 383 ∷ 8490 ∷ [])) ∷ chars (codes "09") ∷ [])) 1 0 [] }
    ensures spaced_category { IsReadAs plain (codes "(?x)\\p { L u }") (row (empty ∷ chars ((codes "ABK") ++ (8490 ∷ [])) ∷ [])) 1 0 [] }
    ensures codes_of_characters { IsReadAs plain (codes "\\x{41}\\u0041\\U00000041") (row (literal (codes "A") ∷ literal (codes "A") ∷ literal (codes "A") ∷ [])) 1 0 (codes "AAA") }
    ensures spaced_codes { IsReadAs plain (codes "(?x)\\x 4 1 \\x { 4 1 }") (row (empty ∷ literal (codes "A") ∷ literal (codes "A") ∷ [])) 1 0 (codes "AA") }
    ensures controls { IsReadAs plain (codes "\\a\\f\\t\\n\\r\\v\\.\\-") (row (literal (7 ∷ []) ∷ literal (12 ∷ []) ∷ literal (9 ∷ []) ∷ literal (10 ∷ []) ∷ literal (13 ∷ []) ∷ literal (11 ∷ []) ∷ literal (codes ".") ∷ literal (codes "-") ∷ [])) 1 0 (7 ∷ 12 ∷ 9 ∷ 10 ∷ 13 ∷ 11 ∷ 46 ∷ 45 ∷ []) }
    ensures sets { IsReadAs plain (codes "\\d\\S\\w") (row (chars (codes "09") ∷ chars ((codes "abckzABK09-]&^_") ++ (233 ∷ 383 ∷ 8490 ∷ [])) ∷ chars ((codes "abckzABK09_") ++ (233 ∷ 383 ∷ 8490 ∷ [])) ∷ [])) 1 0 [] }
    ensures sets_of_bytes { IsReadAs of_bytes (codes "\\D\\s\\W") (row (bytes ((codes "abckzABK -]&^_") ++ (10 ∷ 233 ∷ [])) ∷ bytes ((codes " ") ++ (10 ∷ [])) ∷ bytes ((codes " -]&^") ++ (10 ∷ 233 ∷ [])) ∷ [])) 1 0 [] }
    ensures octal { IsReadAs with_octal (codes "\\1018") (row (literal (codes "A") ∷ literal (codes "8") ∷ [])) 1 0 (codes "A8") }
    ensures bytes_of_literals { IsReadAs plain (codes "(?-u)" ++ 0xE9 ∷ codes "\\xff") (row (empty ∷ literal (195 ∷ 169 ∷ []) ∷ literal (255 ∷ []) ∷ [])) 1 0 (233 ∷ 255 ∷ []) }
{}

/// Members of classes, and leading members.
pub fn members_are_read_as_in_the_examples()
    ensures bracket_before_dash { IsReadAs plain (codes "[]-a]") (chars (codes "a-]")) 2 0 (codes "]-a") }
    ensures first_dash { IsReadAs plain (codes "[-a]") (chars (codes "a-")) 2 0 (codes "-a") }
    ensures last_dash { IsReadAs plain (codes "[a-]") (chars (codes "a-")) 2 0 (codes "a-") }
    ensures negated_bracket { IsReadAs plain (codes "[^]]") (chars ((codes "abckzABK09 -&^_") ++ (10 ∷ 233 ∷ 383 ∷ 8490 ∷ []))) 1 0 (codes "]") }
    ensures two_first_dashes { IsReadAs plain (codes "[--a]") (chars (codes "a-")) 2 0 (codes "--a") }
    ensures name { IsReadAs plain (codes "[[:alpha:]x]") (chars (codes "abckzABK")) 2 0 (codes "x") }
    ensures negated_name { IsReadAs plain (codes "[[:^alpha:]-]") (chars ((codes "09 -]&^_") ++ (10 ∷ 233 ∷ 383 ∷ 8490 ∷ []))) 2 0 (codes "-") }
    ensures no_such_name { IsReadAs plain (codes "[[:foo:]x]") (chars []) 4 0 (codes ":foo:x") }
    ensures name_without_class { IsReadAs plain (codes "[:alpha:]") (chars (codes "a")) 2 0 (codes ":alpha:") }
    ensures later_caret { IsReadAs plain (codes "[a^]") (chars (codes "a^")) 2 0 (codes "a^") }
    ensures spaced_caret { IsReadAs plain (codes "(?x)[ ^a ]") (row (empty ∷ chars ((codes "bckzABK09 -]&^_") ++ (10 ∷ 233 ∷ 383 ∷ 8490 ∷ [])) ∷ [])) 2 0 (codes "a") }
    ensures spaced_first_dash { IsReadAs plain (codes "(?x)[ -a ]") (row (empty ∷ chars (codes "a-") ∷ [])) 3 0 (codes "-a") }
    ensures spaced_first_bracket { IsReadAs plain (codes "(?x)[ ]a]") (row (empty ∷ chars (codes "a]") ∷ [])) 3 0 (codes "]a") }
    ensures byte { IsReadAs plain (codes "(?-u)[\\xff]") (row (empty ∷ bytes [] ∷ [])) 2 0 (255 ∷ []) }
    ensures all_but_a_byte { IsReadAs plain (codes "(?-u)[^a]") (row (empty ∷ bytes ((codes "bckzABK09 -]&^_") ++ (10 ∷ 233 ∷ [])) ∷ [])) 2 0 (codes "a") }
{}

/// Ranges.
pub fn ranges_are_read_as_in_the_examples()
    ensures dash_after_a_range { IsReadAs plain (codes "[a-b-c]") (chars (codes "abc-")) 2 0 (codes "ab-c") }
    ensures dash_after_a_set { IsReadAs plain (codes "[\\d-z]") (chars (codes "z09-")) 2 0 (codes "-z") }
    ensures escaped_start { IsReadAs plain (codes "[\\]-a]") (chars (codes "a]^_")) 1 0 (codes "]a") }
    ensures spaced_last_dash { IsReadAs plain (codes "(?x)[a - ]") (row (empty ∷ chars (codes "a-") ∷ [])) 3 0 (codes "a-") }
    ensures dash_that_begins_a_range { IsReadAs plain (codes "(?x)[+ - - b]") (row (empty ∷ chars (codes "abABK09-]^_") ∷ [])) 3 0 (codes "+-b") }
    ensures comment_in_a_range { IsReadAs plain (codes "(?x)[a - # b\n k]") (row (empty ∷ chars (codes "abck") ∷ [])) 2 0 (codes "ak") }
    ensures octal_range { IsReadAs with_octal (codes "[\\60-\\71]") (chars (codes "09")) 1 0 (codes "09") }
{}

/// Operations on sets.
pub fn operations_are_read_as_in_the_examples()
    ensures difference { IsReadAs plain (codes "[a--b]") (chars (codes "a")) 2 0 (codes "ab") }
    ensures bracket_before_difference { IsReadAs plain (codes "[]--a]") (chars (codes "]")) 2 0 (codes "]a") }
    ensures nothing_on_the_left { IsReadAs plain (codes "[&&a]") (chars []) 2 0 (codes "a") }
    ensures nothing_on_the_right { IsReadAs plain (codes "[a&&]") (chars []) 2 0 (codes "a") }
    ensures and_as_a_member { IsReadAs plain (codes "[a&&&b]") (chars []) 3 0 (codes "a&b") }
    ensures all_in_a_row { IsReadAs plain (codes "[a-c&&[^b]--c~~z]") (chars (codes "az")) 5 0 (codes "acbcz") }
    ensures difference_after_a_range { IsReadAs plain (codes "[a-b--c]") (chars (codes "ab")) 2 0 (codes "abc") }
    ensures nested { IsReadAs plain (codes "[\\w--[a]]") (chars ((codes "bckzABK09_") ++ (233 ∷ 383 ∷ 8490 ∷ []))) 3 0 (codes "a") }
{}

/// Sets closed under folding.
pub fn folding_is_read_as_in_the_examples()
    ensures characters { IsReadAs plain (codes "(?i)[k]") (row (empty ∷ chars ((codes "kK") ++ (8490 ∷ [])) ∷ [])) 2 0 (codes "k") }
    ensures before_negation { IsReadAs plain (codes "(?i)[^k]") (row (empty ∷ chars ((codes "abczAB09 -]&^_") ++ (10 ∷ 233 ∷ 383 ∷ [])) ∷ [])) 2 0 (codes "k") }
    ensures sides { IsReadAs plain (codes "(?i)[a-z&&K]") (row (empty ∷ chars ((codes "kK") ++ (8490 ∷ [])) ∷ [])) 3 0 (codes "azK") }
    ensures nested_before_negation { IsReadAs plain (codes "(?i)[[^k]]") (row (empty ∷ chars ((codes "abczAB09 -]&^_") ++ (10 ∷ 233 ∷ 383 ∷ [])) ∷ [])) 3 0 (codes "k") }
    ensures byte_class { IsReadAs plain (codes "(?i-u)[k]") (row (empty ∷ bytes (codes "kK") ∷ [])) 2 0 (codes "k") }
    ensures bytes { IsReadAs plain (codes "(?i-u)k\\x41\\xe9") (row (empty ∷ bytes (codes "kK") ∷ bytes (codes "aA") ∷ literal (233 ∷ []) ∷ [])) 1 0 ((codes "kA") ++ (233 ∷ [])) }
    ensures category_before_negation { IsReadAs plain (codes "(?i)1\\P{Lu}") (row (empty ∷ literal (codes "1") ∷ chars ((codes "09 -]&^_") ++ (10 ∷ [])) ∷ [])) 1 0 (codes "1") }
    ensures category_in_a_class { IsReadAs plain (codes "(?i)[\\P{Lu}]") (row (empty ∷ chars ((codes "09 -]&^_") ++ (10 ∷ [])) ∷ [])) 2 0 [] }
{}
