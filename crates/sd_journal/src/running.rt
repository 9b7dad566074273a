//! The program, from its words to its status.

ghost use Rattle.std.specs.Prelude.{◌≡◌, ◌≢◌};
ghost use Rattle.sd_course.specs.Course.{course};
ghost use Rattle.sd_journal.specs.Printing.{TellsWhy};
ghost use Rattle.sd_journal.specs.Run as form;
ghost use Rattle.sd_journal.specs.Run.{CarriesOut, RunsJournal};

use crate::asking::{asks_recovery, is_plain};
use crate::commands::{recover_command, sweep_command};
use crate::ended::{JournalEnded, JournalWhy};
use crate::error::JournalError;
use error_line::{print_shown, print_text};
use sd_base::Words;
use sd_io::{Disk, Failed, Sink};
use sd_words::{Options, OptionsFault};
use std::alloc::Global;

/// What is shown where the words demand help.
const HELP: &str = "Finds and replaces text in the files of a tree: in all that change, or in none.

Usage: sd_journal --root <DIR> [OPTIONS] <FIND> <REPLACE_WITH> [GLOB]...
       sd_journal --recover <DIR>

Arguments:
  <FIND>          What to find
  <REPLACE_WITH>  What takes its place
  [GLOB]...       Which files below DIR are changed

Options:
      --root <DIR>                Change the files below DIR that fit a glob
      --recover <DIR>             Go on with a run below DIR that was cut off
  -F, --fixed-strings             Take FIND and REPLACE_WITH as they stand
  -s, --string-mode               The same as --fixed-strings
  -l, --line-mode                 Search each line by itself
  -n, --max-replacements <LIMIT>  Replace at most LIMIT matches, 0 for all
  -f, --flags <FLAGS>             Flags of the search
  -h, --help                      Print help";

/// Runs the program on the words after its name: `--recover` and a root alone, or those of a command on a tree of `sd`. `Usage` comes exactly where
/// they are neither. Whatever goes wrong is printed to `err`, after `error: `, and a fault there is passed over.
pub fn run_journal<D: Disk, O: Sink, E: Sink>(
    alloc: Global,
    words: &Words,
    disk: &mut D,
    out: &mut O,
    err: &mut E,
) -> JournalEnded
    ensures runs { RunsJournal words.now (disk.new ≡ disk.old) (out.new ≡ out.old) (course D.tells (D.state disk.old) (D.state disk.new))
        (course O.tells (O.state out.old) (O.state out.new)) result.why }
    ensures status { result.status ≡ form.status_of result.why }
    ensures err_kept { result.why ≡ JournalWhy.Done → err.new ≡ err.old }
    ensures err_told { result.why ≢ JournalWhy.Done → TellsWhy result.why (course E.tells (E.state err.old) (E.state err.new)) }
{
    if asks_recovery(words) {
        let why = recover_command(alloc, disk, out, words.get(1));
        return end_with(err, why);
    }
    match Options::read(alloc, words) {
        Err(fault) => refuse(err, words, &fault),
        Ok(options) => {
            let why = carry_out(alloc, &options, disk, out);
            drop(options);
            end_with(err, why)
        }
    }
}

/// Carries out what the options ask for, where that is a command on a tree.
fn carry_out<D: Disk, O: Sink>(
    alloc: Global,
    options: &Options,
    disk: &mut D,
    out: &mut O,
) -> JournalWhy
    ensures { CarriesOut options.now (disk.new ≡ disk.old) (out.new ≡ out.old) (course D.tells (D.state disk.old) (D.state disk.new))
        (course O.tells (O.state out.old) (O.state out.new)) result }
{
    match &options.root {
        Some(root) if is_plain(options) => sweep_command(alloc, disk, out, root.as_str(), options),
        _ => JournalWhy::Usage,
    }
}

/// Whether the words demand help, and no more.
fn demand_help(words: &Words) -> bool {
    words.len() == 1 && (words.get(0) == "-h" || words.get(0) == "--help")
}

/// Prints why the words ask for nothing, or help, where they demand it. A fault there is passed over.
fn refuse<E: Sink>(err: &mut E, words: &Words, fault: &OptionsFault) -> JournalEnded
    ensures why { result.why ≡ form.of_words fault.now }
    ensures status { result.status ≡ form.status_of result.why }
    ensures told { TellsWhy result.why (course E.tells (E.state err.old) (E.state err.new)) }
{
    let text = match fault {
        OptionsFault::Usage(_) if demand_help(words) => HELP,
        fault => fault.text(),
    };
    let _printed = print_text(err, text);
    let why = match fault {
        OptionsFault::Usage(_) => JournalWhy::Usage,
        OptionsFault::NoMemory => JournalWhy::Journal(JournalError::NoMemory),
    };
    JournalEnded {
        status: why.status(),
        why,
    }
}

/// Prints what went wrong, where something did. A fault there is passed over.
fn end_with<E: Sink>(err: &mut E, why: JournalWhy) -> JournalEnded
    ensures why { result.why ≡ why }
    ensures status { result.status ≡ form.status_of why }
    ensures err_kept { why ≡ JournalWhy.Done → err.new ≡ err.old }
    ensures told { why ≢ JournalWhy.Done → TellsWhy why (course E.tells (E.state err.old) (E.state err.new)) }
{
    let _printed = print_why(err, &why);
    JournalEnded {
        status: why.status(),
        why,
    }
}

/// Prints the text of an end that isn't the wanted one. Refuses with a counted fault alone.
fn print_why<E: Sink>(err: &mut E, why: &JournalWhy) -> Result<(), Failed>
    ensures kept { why.now ≡ JournalWhy.Done → err.new ≡ err.old }
    ensures told { why.now ≢ JournalWhy.Done → TellsWhy why.now (course E.tells (E.state err.old) (E.state err.new)) }
{
    match why {
        JournalWhy::Done => Ok(()),
        JournalWhy::Usage => print_text(err, "not a valid command line"),
        JournalWhy::Replacer(fault) => print_shown(err, fault),
        JournalWhy::Journal(error) => print_shown(err, error),
        JournalWhy::Print => print_text(err, "the report could not be written"),
    }
}
