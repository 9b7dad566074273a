//! The program, from its words to its status.

ghost use Rattle.std.specs.Prelude.{◌≡◌, ◌≢◌, ◌≤◌, ℕ, List, IsTrue, None, Some};
ghost use Rattle.sd_course.specs.Course.{course};
ghost use Rattle.sd_words.specs.Order.{IsTreeCommand, order_of};
ghost use Rattle.sd_words.specs.Refusal.{refusal_text};
ghost use Rattle.sd_words.specs.declared.options.Options.{Options};
ghost use Rattle.sd_replace.specs.Replacement.{Replacement, Changes};
ghost use Rattle.sd_replace.specs.Replacer.{replacement_of};
ghost use Rattle.sd_core.specs.Asked.{IsReplacerOf};
ghost use Rattle.sd_core.specs.Command.{CarriesOut, Command};
ghost use Rattle.sd_core.specs.Mode.{mode_of};
ghost use Rattle.sd_core.specs.Outside.{outside};
ghost use Rattle.sd_core.specs.Printing.{TellsText, TellsWhy};
ghost use Rattle.sd_core.specs.Run as form;
ghost use Rattle.sd_core.specs.Run.{IsOrMemory};
ghost use Rattle.sd_core.specs.TreeCommand.{DoesTreeCommand};

use crate::asking::replacer_of;
use crate::commands::{
    apply_command, demo_command, ignore_command, plan_command, tree_command, words_command,
};
use crate::error::of_replacer;
use crate::{Ended, Error, Why};
use error_line::{print_shown, print_text};
use sd_base::Words;
use sd_io::{Disk, Failed, Sink, Source};
use sd_replace::{Replacer, an_asked_replacement_is_readable};
use sd_words::{Options, OptionsFault};
use std::alloc::Global;

/// Runs the program on the words after its name.
///
/// Where it reads a tree command on a disk that tells its tree, and ends with status 0, every regular nonempty file below the
/// root whose path there fits a glob keeps its mode and holds its entry bytes with the spans of its fair cover, or the first n
/// where n isn't 0 (in each line under `-l`), replaced by their replacement texts; no other path changed; and what it printed
/// counts exactly these files and spans.
///
/// However it ends, its answer has its cause. On a disk that tells its tree a tree command leaves each of these files wholly old
/// or wholly new, also after a crash at any moment. A demo and standard input leave the disk alone; a preview changes nothing.
/// Whatever goes wrong is printed to `err`, as `error: `, a text and a newline, without memory, and a fault there is passed over.
pub fn run<D: Disk, S: Source, O: Sink, E: Sink>(
    alloc: Global,
    words: &Words,
    disk: &mut D,
    input: &mut S,
    out: &mut O,
    err: &mut E,
) -> Ended
    ensures headline { IsTrue D.tells → (order : Options) (root : List ℕ) → order_of words.now ≡ Some order → IsTreeCommand order root → result.status ≡ 0
        → (replacement : Replacement) × IsReplacerOf order replacement
        × DoesTreeCommand (Changes replacement) root order.words (D.state disk.old) (D.state disk.new) (course O.tells (O.state out.old) (O.state out.new)) }
    ensures status { result.status ≡ form.status_of result.why }
    ensures usage { result.why ≡ Why.Usage → order_of words.now ≡ None }
    ensures no_order { order_of words.now ≡ None → IsOrMemory Why.Usage result.why × (disk.new ≡ disk.old) × (input.new ≡ input.old) × (out.new ≡ out.old) }
    ensures carries { (order : Options) → order_of words.now ≡ Some order → CarriesOut order (outside (disk.new ≡ disk.old) (input.new ≡ input.old) (out.new ≡ out.old)
        (course D.tells (D.state disk.old) (D.state disk.new)) (course S.tells (S.state input.old) (S.state input.new))
        (course O.tells (O.state out.old) (O.state out.new))) result.why }
    ensures err_kept { result.why ≡ Why.Done → err.new ≡ err.old }
    ensures err_told { result.why ≢ Why.Done → TellsWhy words.now result.why (course E.tells (E.state err.old) (E.state err.new)) }
{
    match Options::read(alloc, words) {
        Err(fault) => refuse(err, &fault),
        Ok(options) => {
            let why = carry_out(alloc, &options, disk, input, out);
            end_with(err, why)
        }
    }
}

/// Prints why the words ask for nothing. A fault there is passed over.
fn refuse<E: Sink>(err: &mut E, fault: &OptionsFault) -> Ended
    ensures why { result.why ≡ form.of_words fault.now }
    ensures status { result.status ≡ form.status_of result.why }
    ensures told { TellsText (refusal_text fault.now) (course E.tells (E.state err.old) (E.state err.new)) }
{
    let _printed = print_text(err, fault.text());
    let why = match fault {
        OptionsFault::Usage(_) => Why::Usage,
        OptionsFault::NoMemory => Why::Fault(Error::NoMemory),
    };
    Ended {
        status: why.status(),
        why,
    }
}

/// Prints what went wrong, where something did. A fault there is passed over.
fn end_with<E: Sink>(err: &mut E, why: Why) -> Ended
    ensures why { result.why ≡ why }
    ensures status { result.status ≡ form.status_of why }
    ensures err_kept { why ≡ Why.Done → err.new ≡ err.old }
    ensures told { why ≢ Why.Done → (words : List (List ℕ)) → TellsWhy words why (course E.tells (E.state err.old) (E.state err.new)) }
{
    let _printed = print_why(err, &why);
    Ended {
        status: why.status(),
        why,
    }
}

/// Prints the text of an end that isn't the wanted one. Refuses with a counted fault alone.
fn print_why<E: Sink>(err: &mut E, why: &Why) -> Result<(), Failed>
    ensures kept { why.now ≡ Why.Done → err.new ≡ err.old }
    ensures told { why.now ≢ Why.Done → (words : List (List ℕ)) → TellsWhy words why.now (course E.tells (E.state err.old) (E.state err.new)) }
{
    match why {
        Why::Done => Ok(()),
        Why::Usage => print_text(err, "not a valid command line"),
        Why::Fault(error) => print_shown(err, error),
        Why::Print => print_text(err, "the report could not be written"),
    }
}

/// Carries out what the options ask for.
fn carry_out<D: Disk, S: Source, O: Sink>(
    alloc: Global,
    options: &Options,
    disk: &mut D,
    input: &mut S,
    out: &mut O,
) -> Why
    requires few { (n : ℕ) → options.now.demo ≡ Some n → n ≤ 100000 }
    ensures { CarriesOut options.now (outside (disk.new ≡ disk.old) (input.new ≡ input.old) (out.new ≡ out.old)
        (course D.tells (D.state disk.old) (D.state disk.new)) (course S.tells (S.state input.old) (S.state input.new))
        (course O.tells (O.state out.old) (O.state out.new))) result }
{
    match replacer_of(alloc, options) {
        Err(fault) => Why::Fault(of_replacer(fault)),
        Ok(replacer) => {
            an_asked_replacement_is_readable();
            begin(alloc, options, replacer, disk, input, out)
        }
    }
}

/// Begins the command of the options' mode.
fn begin<D: Disk, S: Source, O: Sink>(
    alloc: Global,
    options: &Options,
    replacer: Replacer,
    disk: &mut D,
    input: &mut S,
    out: &mut O,
) -> Why
    requires few { (n : ℕ) → options.now.demo ≡ Some n → n ≤ 100000 }
    ensures { Command (mode_of options.now) (Changes (replacement_of replacer)) options.now.words (outside (disk.new ≡ disk.old) (input.new ≡ input.old) (out.new ≡ out.old)
        (course D.tells (D.state disk.old) (D.state disk.new)) (course S.tells (S.state input.old) (S.state input.new))
        (course O.tells (O.state out.old) (O.state out.new))) result }
{
    let words = &options.words;
    let why = match (&options.root, &options.apply, options.demo) {
        (Some(root), _, _) if options.preview => plan_command(
            alloc,
            disk,
            out,
            root.as_str(),
            words,
            &replacer,
        ),
        (Some(root), _, _) => match &options.ignore {
            Some(rules) => ignore_command(
                alloc,
                disk,
                out,
                root.as_str(),
                words,
                rules.as_str(),
                &replacer,
            ),
            None => tree_command(alloc, disk, out, root.as_str(), words, &replacer),
        },
        (None, Some(path), _) => apply_command(alloc, disk, out, path.as_str(), &replacer),
        (None, None, Some(n)) => demo_command(alloc, out, n, words, &replacer),
        (None, None, None) => {
            return words_command(alloc, options.preview, words, replacer, disk, input, out);
        }
    };
    drop(replacer);
    why
}
