//! The commands, one for each mode.

ghost use Rattle.std.specs.Prelude.{◌≡◌, ◌≤◌, IfOk};
ghost use Rattle.sd_course.specs.Course.{course};
ghost use Rattle.sd_replace.specs.Replacement.{Changes};
ghost use Rattle.sd_replace.specs.Replacer.{replacement_of};
ghost use Rattle.sd_core.specs.Mode.{IsSourceOf, app_mode, app_words, words_mode};
ghost use Rattle.sd_core.specs.Command.{Command};
ghost use Rattle.sd_core.specs.DemoCommand.{DemoCommand};
ghost use Rattle.sd_core.specs.Ignoring.{IgnoreCommand};
ghost use Rattle.sd_core.specs.Outside.{outside};
ghost use Rattle.sd_core.specs.PlanCommand.{PlanCommand};
ghost use Rattle.sd_core.specs.ApplyCommand.{ApplyCommand};
ghost use Rattle.sd_core.specs.Run.{end_of};
ghost use Rattle.sd_core.specs.Selection.{by_globs};
ghost use Rattle.sd_core.specs.TreeCommand.{TreeCommand};

use crate::applying::apply_file;
use crate::ignoring::sweep_by_file;
use crate::printing::print_report;
use crate::{App, AppSource, Error, Result, Why, plan, sweep, sweep_demo};
use sd_base::{Globs, NoMemory, Words};
use sd_io::{Disk, Sink, Source};
use sd_plan::write_plan;
use sd_replace::Replacer;
use std::alloc::Global;
use stream_rewrite::write_all;

/// Rewrites the chosen files below a root, and prints the report.
pub fn tree_command<D: Disk, O: Sink>(
    alloc: Global,
    disk: &mut D,
    out: &mut O,
    root: &str,
    globs: &Globs,
    replacer: &Replacer,
) -> Why
    ensures { TreeCommand (Changes (replacement_of replacer.now)) (by_globs root.now globs.now) (disk.new ≡ disk.old) (out.new ≡ out.old)
        (course D.tells (D.state disk.old) (D.state disk.new)) (course O.tells (O.state out.old) (O.state out.new)) result }
{
    match sweep(alloc, disk, root, globs, replacer) {
        Err(error) => Why::Fault(error),
        Ok(report) => match print_report(out, &report) {
            Ok(()) => Why::Done,
            Err(_) => Why::Print,
        },
    }
}

/// Rewrites the chosen files below a root that the rules in a file don't ignore, and prints the report.
pub fn ignore_command<D: Disk, O: Sink>(
    alloc: Global,
    disk: &mut D,
    out: &mut O,
    root: &str,
    globs: &Globs,
    rules: &str,
    replacer: &Replacer,
) -> Why
    ensures { IgnoreCommand (Changes (replacement_of replacer.now)) root.now globs.now rules.now (out.new ≡ out.old)
        (course D.tells (D.state disk.old) (D.state disk.new)) (course O.tells (O.state out.old) (O.state out.new)) result }
{
    match sweep_by_file(alloc, disk, root, globs, rules, replacer) {
        Err(error) => Why::Fault(error),
        Ok(report) => match print_report(out, &report) {
            Ok(()) => Why::Done,
            Err(_) => Why::Print,
        },
    }
}

/// Writes the plan of the chosen files below a root.
pub fn plan_command<D: Disk, O: Sink>(
    alloc: Global,
    disk: &mut D,
    out: &mut O,
    root: &str,
    globs: &Globs,
    replacer: &Replacer,
) -> Why
    ensures { PlanCommand (Changes (replacement_of replacer.now)) (by_globs root.now globs.now) (disk.new ≡ disk.old) (out.new ≡ out.old)
        (course D.tells (D.state disk.old) (D.state disk.new)) (course O.tells (O.state out.old) (O.state out.new)) result }
{
    match plan(alloc, disk, root, globs, replacer) {
        Err(error) => Why::Fault(error),
        Ok(plan) => match write_plan(alloc, &plan) {
            Err(NoMemory) => Why::Fault(Error::NoMemory),
            Ok(text) => match write_all(out, &text) {
                Ok(()) => Why::Done,
                Err(_) => Why::Print,
            },
        },
    }
}

/// Applies the plan that a file holds, and prints the report.
pub fn apply_command<D: Disk, O: Sink>(
    alloc: Global,
    disk: &mut D,
    out: &mut O,
    path: &str,
    replacer: &Replacer,
) -> Why
    ensures { ApplyCommand (Changes (replacement_of replacer.now)) path.now (out.new ≡ out.old)
        (course D.tells (D.state disk.old) (D.state disk.new)) (course O.tells (O.state out.old) (O.state out.new)) result }
{
    match apply_file(alloc, disk, path, replacer) {
        Err(error) => Why::Fault(error),
        Ok(report) => match print_report(out, &report) {
            Ok(()) => Why::Done,
            Err(_) => Why::Print,
        },
    }
}

/// Rewrites the chosen files of a tree in memory that is made from a number, and prints the report.
pub fn demo_command<O: Sink>(
    alloc: Global,
    out: &mut O,
    n: u64,
    globs: &Globs,
    replacer: &Replacer,
) -> Why
    requires few { n ≤ 100000 }
    ensures { DemoCommand (Changes (replacement_of replacer.now)) n globs.now (out.new ≡ out.old) (course O.tells (O.state out.old) (O.state out.new)) result }
{
    match sweep_demo(alloc, n, globs, replacer) {
        Err(error) => Why::Fault(error),
        Ok(report) => match print_report(out, &report) {
            Ok(()) => Why::Done,
            Err(_) => Why::Print,
        },
    }
}

/// Replaces standard input where no files are named, else rewrites the files, or with `preview` shows what they would become.
pub fn words_command<D: Disk, S: Source, O: Sink>(
    alloc: Global,
    preview: bool,
    words: &Words,
    replacer: Replacer,
    disk: &mut D,
    input: &mut S,
    out: &mut O,
) -> Why
    ensures { Command (words_mode preview words.now) (Changes (replacement_of replacer)) words.now
        (outside (disk.new ≡ disk.old) (input.new ≡ input.old) (out.new ≡ out.old) (course D.tells (D.state disk.old) (D.state disk.new))
        (course S.tells (S.state input.old) (S.state input.new)) (course O.tells (O.state out.old) (O.state out.new))) result }
{
    match source_of(alloc, words) {
        Ok(source) => run_app(alloc, App::new(source, replacer), preview, disk, input, out),
        Err(NoMemory) => {
            drop(replacer);
            Why::Fault(Error::NoMemory)
        }
    }
}

/// What these words name: files, or standard input where there are none. Refuses for want of memory alone.
fn source_of(alloc: Global, words: &Words) -> Result<AppSource, NoMemory>
    ensures { IfOk result (IsSourceOf words.now) }
{
    if words.is_empty() {
        return Ok(AppSource::Stdin);
    }
    Ok(AppSource::Files(copy_of(alloc, words)?))
}

/// A copy of the words. Refuses for want of memory alone.
fn copy_of(alloc: Global, words: &Words) -> Result<Words, NoMemory>
    ensures { IfOk result (λ copy. copy ≡ words.now) }
{
    let mut copy = Words::new(alloc);
    for i in 0..words.len() {
        copy.push(words.get(i))?;
    }
    Ok(copy)
}

/// Runs an app, and lets it go.
fn run_app<D: Disk, S: Source, O: Sink>(
    alloc: Global,
    app: App,
    preview: bool,
    disk: &mut D,
    input: &mut S,
    out: &mut O,
) -> Why
    ensures { Command (app_mode app.source preview) (Changes (replacement_of app.replacer)) (app_words app.source)
        (outside (disk.new ≡ disk.old) (input.new ≡ input.old) (out.new ≡ out.old) (course D.tells (D.state disk.old) (D.state disk.new))
        (course S.tells (S.state input.old) (S.state input.new)) (course O.tells (O.state out.old) (O.state out.new))) result }
{
    let answer = app.run(alloc, preview, disk, input, out);
    drop(app);
    why_of(answer)
}

/// Why a command ended.
fn why_of(answer: Result<()>) -> Why
    ensures { result ≡ end_of answer }
{
    match answer {
        Ok(()) => Why::Done,
        Err(error) => Why::Fault(error),
    }
}
