//! Worked examples of command lines.

ghost use Rattle.std.specs.Prelude.{◌≡◌, ◌∷◌, [], codes, true, None, Some};
ghost use Rattle.clap.specs.Words.{Text};
ghost use Rattle.sd_words.specs.Examples.{AsksFor, AsksForNothing, a_by_b};
ghost use Rattle.sd_words.specs.Number.{number_of};
ghost use Rattle.sd_words.specs.Order.{IsTreeCommand, order_of};
ghost use Rattle.sd_words.specs.Plain.{options_of};
ghost use Rattle.sd_words.specs.Refusal.{mistake_shown};

/// Each option in each of its spellings.
#[tactic(auto, unfolding(crate::specs::Order::order_of, clap::proofs::OnLiterals::clap_on_literals))]
pub fn options_are_read_as_in_the_examples()
    ensures none { AsksFor (codes "a b") (a_by_b []) }
    ensures preview { AsksFor (codes "-p a b") (record (a_by_b []) { preview = true }) }
    ensures long_preview { AsksFor (codes "--preview a b") (record (a_by_b []) { preview = true }) }
    ensures fixed_strings { AsksFor (codes "-F a b") (record (a_by_b []) { literal_mode = true }) }
    ensures long_fixed_strings { AsksFor (codes "--fixed-strings a b") (record (a_by_b []) { literal_mode = true }) }
    ensures string_mode { AsksFor (codes "-s a b") (record (a_by_b []) { literal_mode = true }) }
    ensures long_string_mode { AsksFor (codes "--string-mode a b") (record (a_by_b []) { literal_mode = true }) }
    ensures line_mode { AsksFor (codes "-l a b") (record (a_by_b []) { line_mode = true }) }
    ensures long_line_mode { AsksFor (codes "--line-mode a b") (record (a_by_b []) { line_mode = true }) }
    ensures limit { AsksFor (codes "-n 5 a b") (record (a_by_b []) { replacements = 5 }) }
    ensures long_limit { AsksFor (codes "--max-replacements 5 a b") (record (a_by_b []) { replacements = 5 }) }
    ensures flags { AsksFor (codes "-f i a b") (record (a_by_b []) { flags = Some (codes "i") }) }
    ensures long_flags { AsksFor (codes "--flags i a b") (record (a_by_b []) { flags = Some (codes "i") }) }
    ensures root { AsksFor (codes "--root /t -- a b *") (record (a_by_b (codes "*" ∷ [])) { root = Some (codes "/t") }) }
    ensures demo { AsksFor (codes "--demo 2000 -- a b *") (record (a_by_b (codes "*" ∷ [])) { demo = Some 2000 }) }
    ensures apply { AsksFor (codes "--apply /p -- a b") (record (a_by_b []) { apply = Some (codes "/p") }) }
    ensures ignore { AsksFor (codes "--root /t --ignore /r -- a b *") (record (a_by_b (codes "*" ∷ [])) { root = Some (codes "/t"); ignore = Some (codes "/r") }) }
{}

/// Values that stand in the word of their option, and options that stand together.
#[tactic(auto, unfolding(crate::specs::Order::order_of, clap::proofs::OnLiterals::clap_on_literals))]
pub fn joined_words_are_read_as_in_the_examples()
    ensures two_flags { AsksFor (codes "-pF a b") (record (a_by_b []) { preview = true; literal_mode = true }) }
    ensures both_literal { AsksFor (codes "-F -s a b") (record (a_by_b []) { literal_mode = true }) }
    ensures flag_and_value { AsksFor (codes "-pn5 a b") (record (a_by_b []) { preview = true; replacements = 5 }) }
    ensures value { AsksFor (codes "-n5 a b") (record (a_by_b []) { replacements = 5 }) }
    ensures value_after_a_sign { AsksFor (codes "-n=5 a b") (record (a_by_b []) { replacements = 5 }) }
    ensures long_value { AsksFor (codes "--max-replacements=5 a b") (record (a_by_b []) { replacements = 5 }) }
    ensures value_with_a_dash { AsksFor (codes "--root=-x a b") (record (a_by_b []) { root = Some (codes "-x") }) }
    ensures short_value_with_a_dash { AsksFor (codes "-f-x a b") (record (a_by_b []) { flags = Some (codes "-x") }) }
    ensures long_value_after_a_sign { AsksFor (codes "--apply=/p a b") (record (a_by_b []) { apply = Some (codes "/p") }) }
    ensures empty_value { AsksFor (codes "--root= a b") (record (a_by_b []) { root = Some [] }) }
    ensures empty_word { AsksFor (codes "--root  a b") (record (a_by_b []) { root = Some [] }) }
    ensures preview_of_a_tree { AsksFor (codes "-p --root /t a b") (record (a_by_b []) { preview = true; root = Some (codes "/t") }) }
{}

/// Words that aren't options.
#[tactic(auto, unfolding(crate::specs::Order::order_of, clap::proofs::OnLiterals::clap_on_literals))]
pub fn other_words_are_read_as_in_the_examples()
    ensures options_after_them { AsksFor (codes "a b * -p") (record (a_by_b (codes "*" ∷ [])) { preview = true }) }
    ensures options_among_them { AsksFor (codes "a -p b") (record (a_by_b []) { preview = true }) }
    ensures after_two_dashes { AsksFor (codes "-- --foo -w -- -p") (options_of None (codes "--foo") (codes "-w") (codes "--" ∷ codes "-p" ∷ [])) }
    ensures two_dashes_twice { AsksFor (codes "-- -- x") (options_of None (codes "--") (codes "x") []) }
    ensures empty_words { AsksFor (codes "--  ") (options_of None [] [] []) }
    ensures dash_alone { AsksFor (codes "- b") (options_of None (codes "-") (codes "b") []) }
    ensures help { AsksFor (codes "help b") (options_of None (codes "help") (codes "b") []) }
{}

/// Words that the command doesn't take.
#[tactic(auto, unfolding(crate::specs::Order::order_of, clap::proofs::OnLiterals::clap_on_literals))]
pub fn refused_words_are_as_in_the_examples()
    ensures no_words { order_of [] ≡ None }
    ensures empty_word { AsksForNothing (codes "") }
    ensures one_word { AsksForNothing (codes "a") }
    ensures one_word_after_two_dashes { AsksForNothing (codes "-- a") }
    ensures unknown { AsksForNothing (codes "--nope a b") }
    ensures unknown_letter { AsksForNothing (codes "-x a b") }
    ensures abbreviated { AsksForNothing (codes "--prev a b") }
    ensures flag_twice { AsksForNothing (codes "-p -p a b") }
    ensures option_twice { AsksForNothing (codes "-n 1 -n 2 a b") }
    ensures no_value { AsksForNothing (codes "a b --root") }
    ensures no_file { AsksForNothing (codes "a b --apply") }
    ensures no_rules { AsksForNothing (codes "--root /t a b --ignore") }
    ensures ignore_twice { AsksForNothing (codes "--root /t --ignore /r --ignore /r a b") }
    ensures apply_twice { AsksForNothing (codes "--apply /p --apply /p a b") }
    ensures value_of_a_flag { AsksForNothing (codes "--preview=x a b") }
    ensures dash_before_a_number { AsksForNothing (codes "-n -5 a b") }
    ensures dash_before_a_value { AsksForNothing (codes "--root -x a b") }
    ensures help { AsksForNothing (codes "-h a b") }
    ensures long_help { AsksForNothing (codes "--help") }
    ensures version { AsksForNothing (codes "-V a b") }
    ensures long_version { AsksForNothing (codes "--version a b") }
{}

/// Numbers, and options that exclude each other.
#[tactic(auto, unfolding(crate::specs::Order::order_of, clap::proofs::OnLiterals::clap_on_literals))]
pub fn numbers_and_exclusions_are_as_in_the_examples()
    ensures zero { AsksFor (codes "-n 0 a b") (a_by_b []) }
    ensures zeros { AsksFor (codes "-n 007 a b") (record (a_by_b []) { replacements = 7 }) }
    ensures greatest_limit { AsksFor (codes "-n 18446744073709551615 a b") (record (a_by_b []) { replacements = 18446744073709551615 }) }
    ensures limit_too_great { AsksForNothing (codes "-n 18446744073709551616 a b") }
    ensures letter { AsksForNothing (codes "-n 1x a b") }
    ensures plus { AsksForNothing (codes "-n +1 a b") }
    ensures no_digit { AsksForNothing (codes "-n= a b") }
    ensures greatest_demo { AsksFor (codes "--demo 100000 a b") (record (a_by_b []) { demo = Some 100000 }) }
    ensures no_files { AsksFor (codes "--demo 0 a b") (record (a_by_b []) { demo = Some 0 }) }
    ensures demo_too_great { AsksForNothing (codes "--demo 100001 a b") }
    ensures demo_of_letters { AsksForNothing (codes "--demo x a b") }
    ensures demo_with_a_root { AsksForNothing (codes "--demo 1 --root /t a b") }
    ensures demo_with_preview { AsksForNothing (codes "-p --demo 1 a b") }
    ensures demo_with_the_others { AsksFor (codes "--demo 1 -lF -n 2 -f i a b") (record (a_by_b [])
        { demo = Some 1; line_mode = true; literal_mode = true; replacements = 2; flags = Some (codes "i") }) }
    ensures no_digits { number_of [] ≡ None }

    // the wide digit U+FF11
    ensures other_digits { number_of (239 ∷ 188 ∷ 145 ∷ []) ≡ None }
{}

/// What may stand with a plan that is applied, and what may not.
#[tactic(auto, unfolding(crate::specs::Order::order_of, clap::proofs::OnLiterals::clap_on_literals))]
pub fn applied_plans_are_as_in_the_examples()
    ensures after_the_words { AsksFor (codes "a b --apply /p") (record (a_by_b []) { apply = Some (codes "/p") }) }
    ensures no_name { AsksFor (codes "--apply= a b") (record (a_by_b []) { apply = Some [] }) }
    ensures line_mode { AsksFor (codes "--apply /p -l a b") (record (a_by_b []) { apply = Some (codes "/p"); line_mode = true }) }
    ensures limit { AsksFor (codes "--apply /p -n 2 a b") (record (a_by_b []) { apply = Some (codes "/p"); replacements = 2 }) }
    ensures fixed_strings { AsksFor (codes "--apply /p -F a b") (record (a_by_b []) { apply = Some (codes "/p"); literal_mode = true }) }
    ensures flags { AsksFor (codes "--apply /p -f i a b") (record (a_by_b []) { apply = Some (codes "/p"); flags = Some (codes "i") }) }
    ensures the_others { AsksFor (codes "--apply=/p -lF -n 2 -f i -- a b") (record (a_by_b [])
        { apply = Some (codes "/p"); line_mode = true; literal_mode = true; replacements = 2; flags = Some (codes "i") }) }
    ensures root { AsksForNothing (codes "--apply /p --root /t a b") }
    ensures demo { AsksForNothing (codes "--apply /p --demo 1 a b") }
    ensures preview { AsksForNothing (codes "--apply /p -p a b") }
    ensures third_word { AsksForNothing (codes "--apply /p -- a b *") }
    ensures empty_third_word { AsksForNothing (codes "--apply /p -- a b ") }
    ensures one_word { AsksForNothing (codes "--apply /p -- a") }
{}

/// What rules to ignore by may stand with, and what they may not.
#[tactic(auto, unfolding(crate::specs::Order::order_of, clap::proofs::OnLiterals::clap_on_literals))]
pub fn ignore_rules_are_as_in_the_examples()
    ensures after_a_sign { AsksFor (codes "--ignore=/r --root=/t a b") (record (a_by_b []) { root = Some (codes "/t"); ignore = Some (codes "/r") }) }
    ensures after_the_words { AsksFor (codes "a b --ignore /r --root /t") (record (a_by_b []) { root = Some (codes "/t"); ignore = Some (codes "/r") }) }
    ensures no_name { AsksFor (codes "--root /t --ignore= a b") (record (a_by_b []) { root = Some (codes "/t"); ignore = Some [] }) }
    ensures line_mode { AsksFor (codes "--root /t --ignore /r -l a b") (record (a_by_b [])
        { root = Some (codes "/t"); ignore = Some (codes "/r"); line_mode = true }) }
    ensures limit { AsksFor (codes "--root /t --ignore /r -n 2 a b") (record (a_by_b [])
        { root = Some (codes "/t"); ignore = Some (codes "/r"); replacements = 2 }) }
    ensures fixed_strings { AsksFor (codes "--root /t --ignore /r -F a b") (record (a_by_b [])
        { root = Some (codes "/t"); ignore = Some (codes "/r"); literal_mode = true }) }
    ensures flags { AsksFor (codes "--root /t --ignore /r -f i a b") (record (a_by_b [])
        { root = Some (codes "/t"); ignore = Some (codes "/r"); flags = Some (codes "i") }) }
    ensures the_others { AsksFor (codes "--root /t --ignore=/r -lF -n 2 -f i -- a b *") (record (a_by_b (codes "*" ∷ []))
        { root = Some (codes "/t"); ignore = Some (codes "/r"); line_mode = true; literal_mode = true; replacements = 2; flags = Some (codes "i") }) }
    ensures no_root { AsksForNothing (codes "--ignore /r a b") }
    ensures files { AsksForNothing (codes "--ignore /r -- a b x") }
    ensures preview { AsksForNothing (codes "--root /t --ignore /r -p a b") }
    ensures demo { AsksForNothing (codes "--ignore /r --demo 1 a b") }
    ensures demo_and_root { AsksForNothing (codes "--root /t --ignore /r --demo 1 a b") }
    ensures apply { AsksForNothing (codes "--ignore /r --apply /p a b") }
    ensures apply_and_root { AsksForNothing (codes "--root /t --ignore /r --apply /p a b") }
{}

/// Which orders are tree commands.
pub fn tree_commands_are_as_in_the_examples()
    ensures root { IsTreeCommand (options_of (Some (codes "/t")) (codes "a") (codes "b") []) (codes "/t") }
    ensures empty_root { IsTreeCommand (options_of (Some []) (codes "a") (codes "b") []) [] }
    ensures other_root { ¬ IsTreeCommand (options_of (Some (codes "/t")) (codes "a") (codes "b") []) (codes "/u") }
    ensures no_root { (root : Text) → ¬ IsTreeCommand (a_by_b []) root }
    ensures preview { (root : Text) → ¬ IsTreeCommand (record (a_by_b []) { preview = true; root = Some (codes "/t") }) root }
    ensures ignore { (root : Text) → ¬ IsTreeCommand (record (a_by_b []) { ignore = Some (codes "/r"); root = Some (codes "/t") }) root }
{}

/// What is shown of the text of a mistake.
pub fn mistakes_are_shown_as_in_the_examples()
    ensures one_line { mistake_shown (codes "error: unexpected argument '-x' found\n\nUsage: sd") ≡ codes "unexpected argument '-x' found" }
    ensures two_lines { mistake_shown (codes "error: not provided:\n  <FIND>\n\nUsage: sd\n\nFor more") ≡ codes "not provided:\n  <FIND>" }
    ensures no_empty_line { mistake_shown (codes "error: no\n") ≡ codes "no\n" }
    ensures no_error { mistake_shown (codes "no error: \n\n") ≡ codes "no error: " }
{}
