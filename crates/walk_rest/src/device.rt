//! The devices of nodes.

ghost use Rattle.std.specs.Prelude.{◌≡◌, ◌≢◌, true, IsTrue, IfOk, IsErrOf, Some, option_map};
ghost use Rattle.sd_io.specs.Disk.{SameTree, SameLists, HasCause};
ghost use Rattle.sd_io.specs.Files.{LeadsNowhere};
ghost use Rattle.walk_rest.specs.Plan.{node_to};

use sd_io::{Disk, DiskFault};

/// The number of the device of the node that a path leads to. Refuses `Absent`, on a disk that tells its
/// tree only where the path leads nowhere, with a counted fault, and for want of memory.
pub fn device_num<D: Disk>(disk: &mut D, path: &str) -> Result<u64, DiskFault>
    ensures answer { IsTrue D.tells → IfOk result (λ dev. option_map (λ node. node.dev) (node_to (D.state disk.old).tree path.now true) ≡ Some dev) }
    ensures absent { IsTrue D.tells → IsErrOf result DiskFault.Absent → LeadsNowhere (D.state disk.old) path.now true }
    ensures not_taken { result ≢ Err DiskFault.Taken }
    ensures tree { SameTree (D.state disk.old) (D.state disk.new) }
    ensures lists { SameLists (D.state disk.old) (D.state disk.new) }
    ensures cause { HasCause D.tells (D.state disk.old) (D.state disk.new) result }
{
    Ok(disk.ident(path)?.dev)
}
