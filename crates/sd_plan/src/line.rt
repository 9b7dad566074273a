//! What stands in a line of a plan.

use crate::Digest;
use sd_base::Text;

/// What is planned for a file.
#[derive(Drop)]
pub struct PlanLine {
    /// The digest of its bytes.
    pub before: Digest,
    /// The digest of its new bytes.
    pub after: Digest,
    /// Whether its new bytes differ from its bytes.
    pub changed: bool,
    /// How many spans are replaced in it.
    pub replaced: u128,
    /// Its path.
    pub path: Text,
}
