//! Laws of changes.

ghost use Rattle.sd_change.specs.Change.{IsOne, FileChange};

use crate::Replaces;

/// A file becomes one thing.
pub fn a_file_has_one_change<R: Replaces>()
    ensures { (replacer : R) → IsOne (FileChange (R.change replacer)) }
{}
