//! Paths of reserved names and of folders.

ghost use Rattle.std.specs.Prelude.{◌≡◌, ◌++◌, ◌∷◌, List, ℕ, IfOk, Contains};
ghost use Rattle.file_exchange.specs.Reserved.{IsReservedPath, IsFolderPath};

use sd_io::{NoMemory, Text};
use std::alloc::Global;

/// A file that was created under a reserved name.
#[derive(Drop)]
pub struct Temporary {
    /// The number of the reserved name.
    pub number: u16,
    /// Its path.
    pub path: Text,
}

/// The path of the reserved name of this number in the folder of a path: `.sd-0000.tmp` to `.sd-ffff.tmp`. Refuses for want
/// of memory alone.
pub fn temporary_path(alloc: Global, path: &str, number: u16) -> Result<Text, NoMemory>
    ensures path { IfOk result (IsReservedPath path.now number) }
{
    let folder = folder_of(path);
    Ok(Text::from(format!(in alloc; "{folder}/.sd-{number:04x}.tmp")?))
}

/// The path of the folder that a file stands in.
pub fn folder_path(path: &str) -> &str
    ensures { IsFolderPath path.now result.now }
{
    let folder = folder_of(path);
    if folder.is_empty() { "/" } else { folder }
}

/// What stands before the last `/` of a path.
fn folder_of(path: &str) -> &str
    ensures { (folder name : List ℕ) → path.now ≡ folder ++ 47 ∷ name → (Contains name 47 → ⊥) → result.now ≡ folder }
{
    match path.rsplit_once('/') {
        None => "",
        Some((folder, _name)) => folder,
    }
}
