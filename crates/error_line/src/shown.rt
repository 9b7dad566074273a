//! The text of a value that shows itself.

ghost use Rattle.std.specs.Prelude.{◌≤◌, IsTrue, IsErr};
ghost use Rattle.sd_io.specs.Count.{HasRisen};
ghost use Rattle.error_line.specs.ErrorLine.{AppendsSome};

use crate::window::{WINDOW, Window};
use sd_io::{Failed, Sink};
use std::fmt::Display;
use stream_rewrite::write_all;

/// Writes what a value shows. Refuses with a counted fault of the sink alone, after a prefix of it.
///
/// The text is made again for each window that it fills, up to the end of that window.
pub(crate) fn write_shown<E: Sink, T: Display>(err: &mut E, shown: &T) -> Result<(), Failed>
    ensures appended { IsTrue E.tells → AppendsSome (E.state err.old).held (E.state err.new).held }
    ensures never_falls { (E.state err.old).faults ≤ (E.state err.new).faults }
    ensures cause { IsErr result → HasRisen (E.state err.old).faults (E.state err.new).faults }
{
    for place in 0..usize::MAX / WINDOW {
        let window = Window::over(shown, place * WINDOW);
        write_all(err, window.as_bytes())?;
        if window.has_end() {
            return Ok(());
        }
    }
    Ok(())
}
