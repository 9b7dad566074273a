//! The replacing of standard input and of named files.

ghost use Rattle.std.specs.Prelude.{◌≡◌, IfOk};
ghost use Rattle.sd_course.specs.Course.{course};
ghost use Rattle.sd_replace.specs.Replacement.{Changes};
ghost use Rattle.sd_replace.specs.Replacer.{replacement_of};
ghost use Rattle.sd_core.specs.Command.{Command};
ghost use Rattle.sd_core.specs.InputCommand.{InputCommand};
ghost use Rattle.sd_core.specs.Mode.{app_mode, app_words};
ghost use Rattle.sd_core.specs.NamedCommands.{FilesCommand, PreviewCommand};
ghost use Rattle.sd_core.specs.Outside.{outside};
ghost use Rattle.sd_core.specs.Run.{end_of};

use crate::Result;
use crate::error::{of_files, of_preview, of_stream};
use many_files::rewrite_each;
use named_files::preview_named;
use sd_base::{NoMemory, Text, Words};
use sd_change::Replaces;
use sd_io::{Disk, Sink, Source};
use sd_replace::Replacer;
use std::alloc::Global;

/// What an [`App`] works on.
#[derive(Drop)]
pub enum AppSource {
    /// Standard input.
    Stdin,
    /// The files that these paths name, in their order.
    Files(Words),
}

/// The replacing of standard input or of named files.
#[derive(Drop)]
pub struct App {
    source: AppSource,
    replacer: Replacer,
}

/// No more bytes than this are read of standard input.
const INPUT_CAP: u64 = 1 << 40;

impl App {
    /// The replacing of this source by this replacer.
    pub fn new(source: AppSource, replacer: Replacer) -> App
        ensures source { result.source ≡ source }
        ensures replacer { result.replacer ≡ replacer }
    {
        App { source, replacer }
    }

    /// Replaces standard input and writes the new bytes to `out`; or rewrites each named file, or with `preview` writes to `out`
    /// what each would become, and changes nothing.
    ///
    /// Refuses on standard input `File` with a counted fault of a stream, and `InputTooLong` where more than 2^40 bytes were left
    /// in it. Refuses on files `FailedProcessing` with those that failed; all others are rewritten. A preview is refused by its
    /// first fault, `File` or `InvalidPath`. Want of memory may come at any time; named files then are as they were.
    pub fn run<D: Disk, S: Source, O: Sink>(
        &self,
        alloc: Global,
        preview: bool,
        disk: &mut D,
        input: &mut S,
        out: &mut O,
    ) -> Result<()>
        ensures { Command (app_mode self.now.source preview) (Changes (replacement_of self.now.replacer)) (app_words self.now.source)
            (outside (disk.new ≡ disk.old) (input.new ≡ input.old) (out.new ≡ out.old) (course D.tells (D.state disk.old) (D.state disk.new))
            (course S.tells (S.state input.old) (S.state input.new)) (course O.tells (O.state out.old) (O.state out.new))) (end_of result) }
    {
        match &self.source {
            AppSource::Stdin => replace_stream(alloc, input, out, &self.replacer, INPUT_CAP),
            AppSource::Files(words) if preview => preview_files(
                alloc,
                disk,
                out,
                words,
                &self.replacer,
            ),
            AppSource::Files(words) => rewrite_files(alloc, disk, words, &self.replacer),
        }
    }
}

/// Reads what is left in a source, which may be `cap` bytes at most, and then writes what it becomes to a sink.
///
/// Refuses `File` with a counted fault: of the source, before anything is written, or of the sink, after a prefix of the new
/// bytes; `InputTooLong` where more than the cap were left, and for want of memory, both before anything is written.
pub fn replace_stream<S: Source, O: Sink, R: Replaces>(
    alloc: Global,
    input: &mut S,
    out: &mut O,
    replacer: &R,
    cap: u64,
) -> Result<()>
    ensures { InputCommand (R.change replacer.now) cap
        (course S.tells (S.state input.old) (S.state input.new)) (course O.tells (O.state out.old) (O.state out.new)) (end_of result) }
{
    stream_rewrite::replace_stream(alloc, input, out, replacer, cap).map_err(of_stream)?;
    Ok(())
}

/// Rewrites each named file.
fn rewrite_files<D: Disk>(
    alloc: Global,
    disk: &mut D,
    words: &Words,
    replacer: &Replacer,
) -> Result<()>
    ensures { FilesCommand (Changes (replacement_of replacer.now)) words.now (course D.tells (D.state disk.old) (D.state disk.new)) (end_of result) }
{
    let paths = copies(alloc, words)?;
    match rewrite_each(alloc, disk, paths, replacer) {
        Ok(_) => Ok(()),
        Err(fault) => Err(of_files(fault)),
    }
}

/// Writes what each named file would become.
fn preview_files<D: Disk, O: Sink>(
    alloc: Global,
    disk: &mut D,
    out: &mut O,
    words: &Words,
    replacer: &Replacer,
) -> Result<()>
    ensures { PreviewCommand (Changes (replacement_of replacer.now)) words.now (course D.tells (D.state disk.old) (D.state disk.new))
        (course O.tells (O.state out.old) (O.state out.new)) (end_of result) }
{
    let paths = copies(alloc, words)?;
    match preview_named(alloc, disk, out, paths, replacer) {
        Ok(()) => Ok(()),
        Err(fault) => Err(of_preview(fault)),
    }
}

/// Copies of the words. Refuses for want of memory alone.
fn copies(alloc: Global, words: &Words) -> Result<Vec<Text>, NoMemory>
    ensures { IfOk result (λ copies. copies.items ≡ words.now) }
{
    let mut copies = Vec::with_capacity(alloc, words.len())?;
    for i in 0..words.len() {
        copies.push(Text::new(alloc, words.get(i))?)?;
    }
    Ok(copies)
}
