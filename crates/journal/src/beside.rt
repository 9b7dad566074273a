//! A file, made under a reserved name.

ghost use Rattle.std.specs.Prelude.{◌≡◌, false, IsTrue, IfOk, IfSome, IfNone};
ghost use Rattle.sd_io.specs.Paths.{parts_of, parent_of};
ghost use Rattle.sd_io.specs.Disk.{SameLists, SameTree};
ghost use Rattle.file_exchange.specs.Causes.{HasCauseOf, HasRisenBy};
ghost use Rattle.file_exchange.specs.Reserved.{NoneFree, reserved_names};
ghost use Rattle.file_exchange.specs.Exchange.{IsFilePath, IsPathIn};
ghost use Rattle.journal.specs.Beside.{MakesBeside, LeavesBeside};

use file_exchange::{Temporary, create_temporary};
use sd_io::{Disk, DiskFault};
use std::alloc::Global;

/// Makes a file with these bytes under the first reserved name that is free in the folder of the path `beside`, with the mode of the file
/// `like`. They are on the medium then, but the name not yet. `None` where none is free; then nothing was written.
///
/// On a disk that tells its tree both paths have no links, `.` or `..`; `beside` is that of a name in a directory, where something stands or not,
/// and `like` leads to a regular file. A crash at any moment leaves anything at that reserved name, and elsewhere what it could before.
pub(crate) fn make_beside<D: Disk>(
    alloc: Global,
    disk: &mut D,
    beside: &str,
    like: &str,
    bytes: &[u8],
) -> Result<Option<Temporary>, DiskFault>
    requires beside { IsTrue D.tells → IsPathIn (D.state disk.old).tree beside.now }
    requires like { IsTrue D.tells → IsFilePath (D.state disk.old).tree like.now }
    ensures made { IsTrue D.tells → IfOk result (λ made. IfSome made (λ temporary.
        MakesBeside (D.state disk.old) (parent_of (parts_of beside.now)) (parts_of like.now) bytes.now temporary (D.state disk.new))) }
    ensures left { IsTrue D.tells → LeavesBeside (D.state disk.old) (parent_of (parts_of beside.now)) (D.state disk.new) }
    ensures none_free { IsTrue D.tells → IfOk result (λ made. IfNone made (NoneFree (D.state disk.old).tree (parent_of (parts_of beside.now)))) }
    ensures risen { D.tells ≡ false → IfOk result (λ made. IfNone made (HasRisenBy reserved_names (D.state disk.old).faults (D.state disk.new).faults)) }
    ensures lists { SameLists (D.state disk.old) (D.state disk.new) }
    ensures cause { HasCauseOf (λ fault. fault) D.tells (D.state disk.old) (D.state disk.new) result }
{
    let Some(made) = create_temporary(alloc, disk, beside, like)? else {
        return Ok(None);
    };
    let path = made.path.as_str();
    disk.write_file(path, bytes)?;
    disk.sync(path)?;
    Ok(Some(made))
}
