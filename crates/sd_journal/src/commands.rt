//! The commands.

ghost use Rattle.std.specs.Prelude.{◌≡◌};
ghost use Rattle.sd_course.specs.Course.{course};
ghost use Rattle.sd_replace.specs.Replacement.{Changes};
ghost use Rattle.sd_replace.specs.Replacer.{replacement_of};
ghost use Rattle.sd_journal.specs.Run as form;
ghost use Rattle.sd_journal.specs.Run.{RecoverCommand, SweepCommand, SweepsByOptions};

use crate::ended::JournalWhy;
use crate::error::JournalError;
use crate::printing::print_recovered;
use crate::sweeping::{recover, sweep_journalled};
use sd_base::Globs;
use sd_core::{print_report, replacer_of};
use sd_io::{Disk, Sink};
use sd_replace::{Replacer, ReplacerFault};
use sd_words::Options;
use std::alloc::Global;

/// Recovers the sweep below a root, and prints how many files its journal has.
pub fn recover_command<D: Disk, O: Sink>(
    alloc: Global,
    disk: &mut D,
    out: &mut O,
    root: &str,
) -> JournalWhy
    ensures { RecoverCommand root.now (out.new ≡ out.old) (course D.tells (D.state disk.old) (D.state disk.new)) (course O.tells (O.state out.old) (O.state out.new)) result }
{
    match recover(alloc, disk, root) {
        Err(error) => JournalWhy::Journal(error),
        Ok(files) => match print_recovered(out, files) {
            Ok(()) => JournalWhy::Done,
            Err(_) => JournalWhy::Print,
        },
    }
}

/// Rewrites the chosen files below a root with the replacer that the options ask for, and prints the report.
pub fn sweep_command<D: Disk, O: Sink>(
    alloc: Global,
    disk: &mut D,
    out: &mut O,
    root: &str,
    options: &Options,
) -> JournalWhy
    ensures { SweepsByOptions options.now root.now (disk.new ≡ disk.old) (out.new ≡ out.old) (course D.tells (D.state disk.old) (D.state disk.new))
        (course O.tells (O.state out.old) (O.state out.new)) result }
{
    match replacer_of(alloc, options) {
        Err(fault) => of_replacer(fault),
        Ok(replacer) => {
            let why = rewrite_and_print(alloc, disk, out, root, &options.words, &replacer);
            drop(replacer);
            why
        }
    }
}

/// Why a run ends for whose words no replacer is made.
fn of_replacer(fault: ReplacerFault) -> JournalWhy
    ensures { result ≡ form.of_replacer fault }
{
    match fault {
        ReplacerFault::NoMemory => JournalWhy::Journal(JournalError::NoMemory),
        fault => JournalWhy::Replacer(fault),
    }
}

/// Rewrites the chosen files below a root, and prints the report.
fn rewrite_and_print<D: Disk, O: Sink>(
    alloc: Global,
    disk: &mut D,
    out: &mut O,
    root: &str,
    globs: &Globs,
    replacer: &Replacer,
) -> JournalWhy
    ensures { SweepCommand (Changes (replacement_of replacer.now)) root.now globs.now (disk.new ≡ disk.old) (out.new ≡ out.old)
        (course D.tells (D.state disk.old) (D.state disk.new)) (course O.tells (O.state out.old) (O.state out.new)) result }
{
    match sweep_journalled(alloc, disk, root, globs, replacer) {
        Err(error) => JournalWhy::Journal(error),
        Ok(report) => match print_report(out, &report) {
            Ok(()) => JournalWhy::Done,
            Err(_) => JournalWhy::Print,
        },
    }
}
