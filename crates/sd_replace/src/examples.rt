//! Worked examples of what bytes become.

ghost use Rattle.std.specs.Prelude.{codes};
ghost use Rattle.sd_replace.specs.Examples.{a, a_or_b, every, first, first_in_lines, xs};
ghost use Rattle.sd_replace.specs.Replacement.{Changes};
ghost use Rattle.sd_replace.specs.declared.replacer.Substitute.TheVariants.{Literal, Expanded};

/// Each match gives way to the text, `$1` too where that is literal. Matches of `x*` are empty, but not at the end of the one before.
pub fn texts_take_the_places_of_matches()
    ensures each { Changes (every a (Literal (codes "$1"))) (codes "aba") (codes "$1b$1") 2 }
    ensures none { Changes (every a (Literal (codes "b"))) (codes "cd") (codes "cd") 0 }
    ensures empty { Changes (every xs (Literal (codes "-"))) (codes "axb") (codes "-a-b-") 3 }
    ensures of_nothing { Changes (every xs (Literal (codes "-"))) (codes "") (codes "-") 1 }
{}

/// Groups of `(a)|(?P<n>b)` by number and by name. One that isn't set is nothing, and so is the name `1a`.
pub fn groups_take_the_places_of_references()
    ensures numbers { Changes (every a_or_b (Expanded (codes "<$1$2>"))) (codes "ab") (codes "<a><b>") 2 }
    ensures names { Changes (every a_or_b (Expanded (codes "$n$$"))) (codes "ab") (codes "$b$") 2 }
    ensures longest_name { Changes (every a_or_b (Expanded (codes "$1a.${1}a"))) (codes "a") (codes ".aa") 1 }
    ensures no_group { Changes (every a_or_b (Expanded (codes "$3$"))) (codes "b") (codes "$") 1 }
{}

/// A limit counts the first matches over the whole, or the first of each line.
pub fn limits_count_the_first_matches()
    ensures over_all { Changes (first 2 a (Literal (codes "b"))) (codes "aaa") (codes "bba") 2 }
    ensures over_lines { Changes (first 1 a (Literal (codes "b"))) (codes "aa\na") (codes "ba\na") 1 }
    ensures in_each_line { Changes (first_in_lines 1 a (Literal (codes "b"))) (codes "aa\na") (codes "ba\nb") 2 }
    ensures in_later_lines { Changes (first_in_lines 1 a (Literal (codes "b"))) (codes "\n\naa\n") (codes "\n\nba\n") 1 }
    ensures no_limit { Changes (first_in_lines 0 a (Literal (codes "b"))) (codes "aa\na") (codes "bb\nb") 3 }
{}
