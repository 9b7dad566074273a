//! Laws of rewriting, for those who rewrite files in turn.

ghost use Rattle.std.specs.Prelude.{ℕ, List};
ghost use Rattle.sd_io.specs.Disk.{DiskState};
ghost use Rattle.file_exchange.specs.Crash.{KeepsFiles};
ghost use Rattle.file_rewrite.specs.OneFile.{RewritesFile, LeavesFile};
ghost use Rattle.file_rewrite.specs.declared.fault.JobFault.{JobFault};
ghost use Rattle.file_rewrite.specs.declared.rewrite.Rewrite.{Rewrite};

use sd_change::Replaces;

/// Whether a file is rewritten or refused, each file keeps its mode, and what is free was free before.
pub fn rewriting_keeps_files<R: Replaces>()
    ensures rewritten { (replacer : R) (path : List ℕ) (rewrite : Rewrite) (old new : DiskState)
        → RewritesFile (R.change replacer) path rewrite old new → KeepsFiles old.tree new.tree }
    ensures left { (replacer : R) (path : List ℕ) (fault : JobFault) (old new : DiskState)
        → LeavesFile (R.change replacer) path fault old new → KeepsFiles old.tree new.tree }
{}
