//! The globs of a command.

ghost use Rattle.std.specs.Prelude.{◌≡◌, IfOk, IfErr, OnOk, All};
ghost use Rattle.chosen_files.specs.Choice.{GlobsFail};
ghost use Rattle.chosen_files.specs.Globs.{IsValid};

use crate::ChoiceFault;
use glob_match::Glob;
use sd_io::Globs;
use std::alloc::Global;

/// Reads globs. Refuses `BadGlob` with the place of the first invalid one, and else for want of memory.
pub fn read_globs(alloc: Global, globs: &Globs) -> Result<Vec<Glob>, ChoiceFault>
    ensures read { IfOk result (λ read. read.items ≡ globs.now) }
    ensures valid { OnOk result (All IsValid globs.now) }
    ensures refused { IfErr result (GlobsFail globs.now) }
{
    let mut read = Vec::new(alloc);
    for place in 0..globs.len() {
        match Glob::read(alloc, globs.get(place))? {
            Some(glob) => read.push(glob)?,
            None => return Err(ChoiceFault::BadGlob(place)),
        }
    }
    Ok(read)
}
