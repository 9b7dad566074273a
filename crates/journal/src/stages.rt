//! Paths of stages and of the folders that they stand in.

ghost use Rattle.std.specs.Prelude.{◌≡◌, IfOk};
ghost use Rattle.sd_io.specs.Paths.{parent_of};
ghost use Rattle.sd_io.specs.Files.{path_text};
ghost use Rattle.change_phases.specs.Between.{place_of, stage_of};

use file_exchange::{folder_path, temporary_path};
use journal_text::Line;
use sd_base::{NoMemory, Text};
use std::alloc::Global;

/// The path of a line's stage. Refuses for want of memory alone.
pub(crate) fn stage_path(alloc: Global, line: &Line) -> Result<Text, NoMemory>
    ensures { IfOk result (λ path. path ≡ path_text (stage_of line.now)) }
{
    temporary_path(alloc, line.path.as_str(), line.number)
}

/// The path of the folder in which a line's file and its stage stand.
pub(crate) fn line_folder(line: &Line) -> &str
    ensures { result.now ≡ path_text (parent_of (place_of line.now)) }
{
    folder_path(line.path.as_str())
}
