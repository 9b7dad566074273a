//! The command whose words are read: its flags, its options and the words after them.

ghost use Rattle.std.specs.Prelude.{◌≡◌, IfOk, None, false, fold};
ghost use Rattle.clap.specs.Words.{app_of, rule_of, with_rule};
ghost use Rattle.sd_words.specs.Command as form;

use clap::{Arg, ArgAction, Command};
use std::alloc::{AllocError, Global};

/// The command. It has no rule between arguments: what may not stand together is tested after the parse.
pub fn command<'a>(alloc: Global) -> Result<Command<'a>, AllocError>
    ensures { IfOk result (λ c. app_of c ≡ form.command) }
{
    let command = Command::new(alloc, "sd")
        .about("Finds and replaces text in files, directory trees and streams.")
        .no_binary_name(true);
    let command = with_flags(alloc, command)?;
    let command = with_options(alloc, command)?;
    with_words(alloc, command)
}

/// The command with its flags too.
fn with_flags<'a>(alloc: Global, command: Command<'a>) -> Result<Command<'a>, AllocError>
    ensures { IfOk result (λ c. app_of c ≡ fold with_rule (app_of command.entry) form.flags) }
{
    let preview = flag(
        alloc,
        "preview",
        'p',
        "Write what would change, and change nothing",
    );
    let fixed_strings = flag(
        alloc,
        "fixed-strings",
        'F',
        "Take FIND and REPLACE_WITH as they stand",
    );
    let string_mode = flag(alloc, "string-mode", 's', "The same as --fixed-strings");
    let line_mode = flag(alloc, "line-mode", 'l', "Search each line by itself");
    command
        .arg(preview)?
        .arg(fixed_strings)?
        .arg(string_mode)?
        .arg(line_mode)
}

/// The command with its options that have a value too.
fn with_options<'a>(alloc: Global, command: Command<'a>) -> Result<Command<'a>, AllocError>
    ensures { IfOk result (λ c. app_of c ≡ fold with_rule (app_of command.entry) form.options) }
{
    let limit = option(
        alloc,
        "max-replacements",
        "LIMIT",
        "Replace at most LIMIT matches, 0 for all",
    )
    .short('n');
    let flags = option(alloc, "flags", "FLAGS", "Flags of the search").short('f');
    let root = option(
        alloc,
        "root",
        "DIR",
        "Change the files below DIR that fit a glob",
    );
    let demo = option(alloc, "demo", "N", "Change a tree of N files in memory");
    let apply = option(alloc, "apply", "FILE", "Carry out the plan that FILE holds");
    let ignore = option(
        alloc,
        "ignore",
        "FILE",
        "Leave out what the rules in FILE ignore",
    );
    command
        .arg(limit)?
        .arg(flags)?
        .arg(root)?
        .arg(demo)?
        .arg(apply)?
        .arg(ignore)
}

/// The command with the words after its options too.
fn with_words<'a>(alloc: Global, command: Command<'a>) -> Result<Command<'a>, AllocError>
    ensures { IfOk result (λ c. app_of c ≡ fold with_rule (app_of command.entry) form.words) }
{
    let find = word(alloc, "find", "FIND", "What to find").required(true);
    let replace_with = word(
        alloc,
        "replace-with",
        "REPLACE_WITH",
        "What takes its place",
    )
    .required(true);
    let words = word(
        alloc,
        "words",
        "WORD",
        "Files, or with --root or --demo globs",
    )
    .action(ArgAction::Append);
    command.arg(find)?.arg(replace_with)?.arg(words)
}

/// A flag with a long and a short name.
fn flag<'a>(alloc: Global, name: &'a str, short: char, help: &'a str) -> Arg<'a>
    ensures rule { rule_of result ≡ form.flag name.entry.now short }
    ensures local { result.global ≡ false }
{
    Arg::new(alloc, name)
        .long(name)
        .short(short)
        .help(help)
        .action(ArgAction::SetTrue)
}

/// An option with a long name and one value, shown as `value` in its help.
fn option<'a>(alloc: Global, name: &'a str, value: &'a str, help: &'a str) -> Arg<'a>
    ensures rule { rule_of result ≡ form.option name.entry.now None }
    ensures local { result.global ≡ false }
{
    Arg::new(alloc, name)
        .long(name)
        .help(help)
        .value_name(value)
        .action(ArgAction::Set)
}

/// A word that is known by its place, shown as `shown` in its help.
fn word<'a>(alloc: Global, name: &'a str, shown: &'a str, help: &'a str) -> Arg<'a>
    ensures rule { rule_of result ≡ form.word name.entry.now }
    ensures local { result.global ≡ false }
{
    Arg::new(alloc, name).help(help).value_name(shown)
}
