//! Rules, asked of the entries of a walk below a top.

ghost use Rattle.chosen_files.specs.LeftOut.{leaves_out};

use crate::below::names_below;
use sd_ignore::Ignore;
use sd_io::NoMemory;
use std::alloc::Global;
use walkdir::{DirEntry, Prunes};

/// Rules of what is ignored below a top. A walk of the top leaves out what they ignore, and never the top itself.
#[derive(Clone, Copy)]
pub(crate) struct RulesBelow<'a> {
    /// The path of the top.
    pub top: &'a str,
    /// The rules.
    pub rules: &'a Ignore,
}

impl<'a> Prunes for RulesBelow<'a> {
    ghost leaves_out = { λ below entry. leaves_out below.rules.now below.top.now entry };

    fn leaves_out(&self, alloc: Global, entry: &DirEntry) -> Result<bool, NoMemory> {
        if entry.depth() == 0 {
            return Ok(false);
        }
        let Some(names) = names_below(self.top, entry.path()) else {
            return Ok(false);
        };
        let said = self
            .rules
            .decides(alloc, names, entry.file_type().is_dir())?;
        Ok(said.unwrap_or(false))
    }
}
