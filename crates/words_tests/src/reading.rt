//! What is read from command lines, and what is shown where nothing is.

use sd_base::{Text, Words};
use sd_words::{Options, OptionsFault};
use std::alloc::Global;
use std::process::Abort;
use std::test::Fail;

/// Shows an optional text, with a name before it.
fn show_text(shown: &mut String, name: &str, text: &Option<Text>) -> Result<(), Fail> {
    if let Some(text) = text {
        write!(shown, "{name} [{}] ", text.as_str())?;
    }
    Ok(())
}

/// Shows options: those that are set, by their names, and then the words in brackets.
fn show_options(alloc: Global, options: &Options) -> Result<String, Fail> {
    let mut shown = String::new(alloc);
    for (is_set, name) in [
        (options.preview, "preview "),
        (options.literal_mode, "literal "),
        (options.line_mode, "line "),
    ] {
        if is_set {
            shown.push_str(name)?;
        }
    }
    if options.replacements > 0 {
        write!(shown, "limit {} ", options.replacements)?;
    }
    show_text(&mut shown, "flags", &options.flags)?;
    show_text(&mut shown, "root", &options.root)?;
    if let Some(count) = options.demo {
        write!(shown, "demo {count} ")?;
    }
    show_text(&mut shown, "apply", &options.apply)?;
    show_text(&mut shown, "ignore", &options.ignore)?;
    write!(
        shown,
        "[{}] [{}]",
        options.find.as_str(),
        options.replace_with.as_str()
    )?;
    for i in 0..options.words.len() {
        write!(shown, " [{}]", options.words.get(i))?;
    }
    Ok(shown)
}

/// Shows what comes of words: options, or the text of the fault after `error: `.
fn outcome(alloc: Global, words: &[&str]) -> Result<String, Fail> {
    let mut owned = Words::new(alloc);
    for word in words {
        owned.push(word)?;
    }
    match Options::read(alloc, &owned) {
        Ok(options) => show_options(alloc, &options),
        Err(OptionsFault::NoMemory) => Err(Fail::from("no memory")),
        Err(fault) => Ok(format!(in alloc; "error: {fault}")?),
    }
}

/// Words, and what comes of them.
type Row<'a> = (&'a [&'a str], &'a str);

/// Asserts what comes of the words of each row.
fn check_rows<R: Abort>(rt: &R, alloc: Global, rows: &[Row<'_>]) -> Result<(), Fail> {
    for (words, expected) in rows {
        let outcome = outcome(alloc, words)?;
        assert!(rt; outcome.as_str() == *expected, "{outcome}, not {expected}");
    }
    Ok(())
}

const OPTIONS: [Row<'static>; 25] = [
    (&["a", "b"], "[a] [b]"),
    (&["-p", "a", "b"], "preview [a] [b]"),
    (&["--preview", "a", "b"], "preview [a] [b]"),
    (&["-F", "a", "b"], "literal [a] [b]"),
    (&["--fixed-strings", "a", "b"], "literal [a] [b]"),
    (&["-s", "a", "b"], "literal [a] [b]"),
    (&["--string-mode", "a", "b"], "literal [a] [b]"),
    (&["-F", "-s", "a", "b"], "literal [a] [b]"),
    (&["-l", "a", "b"], "line [a] [b]"),
    (&["--line-mode", "a", "b"], "line [a] [b]"),
    (&["-n", "5", "a", "b"], "limit 5 [a] [b]"),
    (&["--max-replacements", "007", "a", "b"], "limit 7 [a] [b]"),
    (
        &["-n", "18446744073709551615", "a", "b"],
        "limit 18446744073709551615 [a] [b]",
    ),
    (&["-f", "ix", "a", "b"], "flags [ix] [a] [b]"),
    (&["--flags", "ix", "a", "b"], "flags [ix] [a] [b]"),
    (
        &["--root", "/t", "--", "a", "b", "*"],
        "root [/t] [a] [b] [*]",
    ),
    (
        &["--demo", "100000", "--", "a", "b", "*", "x"],
        "demo 100000 [a] [b] [*] [x]",
    ),
    (
        &["-p", "--root", "/t", "a", "b"],
        "preview root [/t] [a] [b]",
    ),
    (&["--apply", "/p", "--", "a", "b"], "apply [/p] [a] [b]"),
    (&["--apply=/p", "a", "b"], "apply [/p] [a] [b]"),
    (
        &["--apply", "/p", "-lF", "-n", "2", "-f", "i", "a", "b"],
        "literal line limit 2 flags [i] apply [/p] [a] [b]",
    ),
    (
        &["--root", "/t", "--ignore", "/r", "--", "a", "b", "*"],
        "root [/t] ignore [/r] [a] [b] [*]",
    ),
    (
        &["--ignore=/r", "--root=/t", "a", "b"],
        "root [/t] ignore [/r] [a] [b]",
    ),
    (
        &[
            "--root", "/t", "--ignore", "/r", "-lF", "-n", "2", "-f", "i", "a", "b",
        ],
        "literal line limit 2 flags [i] root [/t] ignore [/r] [a] [b]",
    ),
    (&["--", "--foo", "-w", "--", "-p"], "[--foo] [-w] [--] [-p]"),
];

#[test]
fn options_are_read_in_both_spellings(rt: HostRuntime) -> Result<(), Fail> {
    check_rows(&rt, rt.alloc(), &OPTIONS)
}

const REFUSALS: [Row<'static>; 16] = [
    (
        &[],
        "error: the following required arguments were not provided:\n  <FIND>\n  <REPLACE_WITH>",
    ),
    (
        &["one"],
        "error: the following required arguments were not provided:\n  <REPLACE_WITH>",
    ),
    (
        &["--", "one"],
        "error: the following required arguments were not provided:\n  <REPLACE_WITH>",
    ),
    (
        &["--nope", "a", "b"],
        "error: unexpected argument '--nope' found",
    ),
    (
        &["--roo", "/t", "a", "b"],
        "error: unexpected argument '--roo' found",
    ),
    (&["-V"], "error: unexpected argument '-V' found"),
    (
        &["-n", "-5", "--", "a", "b"],
        "error: unexpected argument '-5' found",
    ),
    (
        &["--root", "-x", "--", "a", "b"],
        "error: unexpected argument '-x' found",
    ),
    (
        &["-p", "-p", "--", "a", "b"],
        "error: the argument '--preview' cannot be used multiple times",
    ),
    (
        &["-n", "1", "-n", "2", "a", "b"],
        "error: the argument '--max-replacements <LIMIT>' cannot be used multiple times",
    ),
    (
        &["--preview=x", "a", "b"],
        "error: unexpected value 'x' for '--preview' found; no more were expected",
    ),
    (
        &["--root"],
        "error: a value is required for '--root <DIR>' but none was supplied",
    ),
    (
        &["--apply"],
        "error: a value is required for '--apply <FILE>' but none was supplied",
    ),
    (
        &["--apply", "/p", "--apply", "/p", "a", "b"],
        "error: the argument '--apply <FILE>' cannot be used multiple times",
    ),
    (
        &["--root", "/t", "a", "b", "--ignore"],
        "error: a value is required for '--ignore <FILE>' but none was supplied",
    ),
    (
        &["--root", "/t", "--ignore", "/r", "--ignore", "/r", "a", "b"],
        "error: the argument '--ignore <FILE>' cannot be used multiple times",
    ),
];

#[test]
fn refusals_of_the_command_are_shown_up_to_their_first_empty_line(
    rt: HostRuntime,
) -> Result<(), Fail> {
    check_rows(&rt, rt.alloc(), &REFUSALS)
}

/// What is shown where the command takes the words, and they ask for nothing that can be done.
const INVALID: &str = "error: not a valid command line";

const BROKEN_RULES: [Row<'static>; 16] = [
    (&["-n", "1x", "a", "b"], INVALID),
    (&["-n", "+1", "a", "b"], INVALID),
    (&["-n", "", "a", "b"], INVALID),
    (&["-n", "18446744073709551616", "a", "b"], INVALID),
    (&["--demo", "100001", "--", "a", "b"], INVALID),
    (&["--demo", "x", "--", "a", "b"], INVALID),
    (&["--demo", "10", "--root", "/t", "--", "a", "b"], INVALID),
    (&["-p", "--demo", "10", "--", "a", "b"], INVALID),
    (&["--apply", "/p", "--root", "/t", "--", "a", "b"], INVALID),
    (&["--apply", "/p", "--demo", "10", "--", "a", "b"], INVALID),
    (&["--apply", "/p", "-p", "--", "a", "b"], INVALID),
    (&["--apply", "/p", "--", "a", "b", "*"], INVALID),
    (&["--ignore", "/r", "--", "a", "b"], INVALID),
    (
        &["-p", "--root", "/t", "--ignore", "/r", "--", "a", "b"],
        INVALID,
    ),
    (&["--ignore", "/r", "--demo", "10", "--", "a", "b"], INVALID),
    (
        &[
            "--root", "/t", "--ignore", "/r", "--apply", "/p", "--", "a", "b",
        ],
        INVALID,
    ),
];

#[test]
fn numbers_and_exclusions_are_tested_after_the_parse(rt: HostRuntime) -> Result<(), Fail> {
    check_rows(&rt, rt.alloc(), &BROKEN_RULES)
}

const HELP: &str = "error: Finds and replaces text in files, directory trees and streams.

Usage: sd [OPTIONS] <FIND> <REPLACE_WITH> [WORD]...

Arguments:
  <FIND>          What to find
  <REPLACE_WITH>  What takes its place
  [WORD]...       Files, or with --root or --demo globs

Options:
  -p, --preview                   Write what would change, and change nothing
  -F, --fixed-strings             Take FIND and REPLACE_WITH as they stand
  -s, --string-mode               The same as --fixed-strings
  -l, --line-mode                 Search each line by itself
  -n, --max-replacements <LIMIT>  Replace at most LIMIT matches, 0 for all
  -f, --flags <FLAGS>             Flags of the search
      --root <DIR>                Change the files below DIR that fit a glob
      --demo <N>                  Change a tree of N files in memory
      --apply <FILE>              Carry out the plan that FILE holds
      --ignore <FILE>             Leave out what the rules in FILE ignore
  -h, --help                      Print help
";

#[test]
fn help_is_shown_whole(rt: HostRuntime) -> Result<(), Fail> {
    check_rows(&rt, rt.alloc(), &[(&["-h"], HELP), (&["--help"], HELP)])
}
