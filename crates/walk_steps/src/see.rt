//! What a walk makes of an entry.

ghost use Rattle.std.specs.Prelude.{◌≡◌, ◌≢◌, ◌⊎◌, ◌<◌, ◌≤◌, [], Some, None, true, false, IsTrue, IfOk, IfErr, Option, option_map};
ghost use Rattle.sd_io.specs.Count.{HasRisen};
ghost use Rattle.sd_io.specs.Tree.{Node};
ghost use Rattle.sd_io.specs.Disk.{SameTree, SameLists};
ghost use Rattle.walk_rest.specs.Plan.{Manner, ident_of, node_to, seen, seen_directory, seen_link, seen_root_link};
ghost use Rattle.walk_rest.specs.Level.{with_folder};
ghost use Rattle.walk_steps.specs.Inside.{chain_with};
ghost use Rattle.walk_steps.specs.Causes.{IsSightOf};
ghost use Rattle.walk_steps.specs.Seen.{ByEachManner, seen_of, refusal_of, ancestor_path, GoesBy, KnowsIdent, LoopsTo, FailsAsSeen, FailsCounted, HasCauseAt};

use crate::Inside;
use sd_io::{Disk, DiskFault, Ident, NoMemory, Text};
use std::alloc::Global;
use walk_rest::{DirEntry, Error, Folder, Level};

/// What a walk makes of an entry that isn't an error.
#[derive(Drop)]
pub enum Sight {
    /// It isn't entered.
    Stays(DirEntry),
    /// It is entered as this directory.
    Enters(DirEntry, Folder),
}

/// What the walk makes of an entry of the topmost level. Links are followed where the options say so. Refuses with the error
/// that stands in place of the entry, and for want of memory.
pub fn see<D: Disk, S>(
    disk: &mut D,
    inside: &Inside<S>,
    level: &Level,
    entry: DirEntry,
) -> Result<Sight, Error>
    ensures seen { ByEachManner D.tells inside.now (λ manner.
        IfOk result (λ sight. seen_of sight ≡ seen (D.state disk.old).tree manner (chain_with inside.now level.now) entry)) }
    ensures failed { ByEachManner D.tells inside.now (λ manner.
        IfErr result (FailsAsSeen (D.state disk.old).faults (D.state disk.new).faults entry
        (seen (D.state disk.old).tree manner (chain_with inside.now level.now) entry))) }
    ensures cause { D.tells ≡ false → IfErr result (HasCauseAt inside.now.options.follow_links (D.state disk.old).faults (D.state disk.new).faults entry (chain_with inside.now level.now)) }
    ensures sight { IfOk result (IsSightOf entry) }
    ensures lists { SameLists (D.state disk.old) (D.state disk.new) }
    ensures tree { SameTree (D.state disk.old) (D.state disk.new) }
    ensures faults { (D.state disk.old).faults ≤ (D.state disk.new).faults }
{
    if entry.kind.is_symlink() {
        if inside.options.follow_links {
            return see_link(disk, inside, level, entry);
        }
        if entry.depth == 0 && inside.options.follow_root_links {
            return see_root_link(disk, inside, entry);
        }
    }
    if entry.kind.is_dir() {
        return see_directory(disk, inside, entry);
    }
    Ok(Sight::Stays(entry))
}

/// A link that is followed.
fn see_link<D: Disk, S>(
    disk: &mut D,
    inside: &Inside<S>,
    level: &Level,
    entry: DirEntry,
) -> Result<Sight, Error>
    requires { inside.now.options.follow_links ≡ true }
    ensures seen { ByEachManner D.tells inside.now (λ manner.
        IfOk result (λ sight. seen_of sight ≡ seen_link manner (chain_with inside.now level.now) entry (node_to (D.state disk.old).tree entry.path true))) }
    ensures failed { ByEachManner D.tells inside.now (λ manner.
        IfErr result (FailsAsSeen (D.state disk.old).faults (D.state disk.new).faults entry
        (seen_link manner (chain_with inside.now level.now) entry (node_to (D.state disk.old).tree entry.path true)))) }
    ensures cause { D.tells ≡ false → IfErr result (HasCauseAt inside.now.options.follow_links (D.state disk.old).faults (D.state disk.new).faults entry (chain_with inside.now level.now)) }
    ensures sight { IfOk result (IsSightOf entry) }
    ensures lists { SameLists (D.state disk.old) (D.state disk.new) }
    ensures tree { SameTree (D.state disk.old) (D.state disk.new) }
    ensures faults { (D.state disk.old).faults ≤ (D.state disk.new).faults }
{
    let kind = match disk.stat(entry.path.as_str(), true) {
        Ok(meta) => meta.kind,
        Err(fault) => return Err(refusal(fault, entry.path, entry.depth)),
    };
    let entry = DirEntry {
        path: entry.path,
        kind,
        depth: entry.depth,
        ino: entry.ino,
        followed: true,
    };
    if !kind.is_dir() {
        return Ok(Sight::Stays(entry));
    }
    let ident = match identity(disk, entry.path.as_str()) {
        Ok(ident) => ident,
        Err(DiskFault::NoMemory) => return Err(Error::NoMemory),
        Err(_) => {
            return Err(Error::Disk {
                path: None,
                depth: entry.depth,
            });
        }
    };
    if let Some((ancestor, ident)) = loop_to(inside, level, ident)? {
        return Err(Error::Loop {
            path: entry.path,
            depth: entry.depth,
            ancestor,
            ident,
        });
    }
    Ok(directory(inside, entry, ident)?)
}

/// A root link that isn't followed itself, and is entered where it leads to a directory.
fn see_root_link<D: Disk, S>(
    disk: &mut D,
    inside: &Inside<S>,
    entry: DirEntry,
) -> Result<Sight, Error>
    requires unfollowed { inside.now.options.follow_links ≡ false }
    requires root { entry.depth ≡ 0 }
    ensures seen { ByEachManner D.tells inside.now (λ manner.
        IfOk result (λ sight. seen_of sight ≡ seen_root_link manner entry (node_to (D.state disk.old).tree entry.path true))) }
    ensures failed { IsTrue D.tells → (manner : Manner) → IfErr result (FailsAsSeen (D.state disk.old).faults (D.state disk.new).faults entry
        (seen_root_link manner entry (node_to (D.state disk.old).tree entry.path true))) }
    ensures cause { D.tells ≡ false → IfErr result (λ failed. FailsCounted (D.state disk.old).faults (D.state disk.new).faults entry failed
        ⊎ ((failed ≡ Error.Absent entry.path entry.depth) × ((D.state disk.old).faults < (D.state disk.new).faults))) }
    ensures sight { IfOk result (IsSightOf entry) }
    ensures lists { SameLists (D.state disk.old) (D.state disk.new) }
    ensures tree { SameTree (D.state disk.old) (D.state disk.new) }
    ensures faults { (D.state disk.old).faults ≤ (D.state disk.new).faults }
{
    match disk.stat(entry.path.as_str(), true) {
        Err(fault) => Err(refusal(fault, entry.path, entry.depth)),
        Ok(meta) => {
            if meta.kind.is_dir() {
                return Ok(directory(inside, entry, None)?);
            }
            Ok(Sight::Stays(entry))
        }
    }
}

/// A directory. Its identity is asked for where it counts.
fn see_directory<D: Disk, S>(
    disk: &mut D,
    inside: &Inside<S>,
    entry: DirEntry,
) -> Result<Sight, Error>
    ensures seen { ByEachManner D.tells inside.now (λ manner.
        IfOk result (λ sight. seen_of sight ≡ seen_directory manner entry (node_to (D.state disk.old).tree entry.path true))) }
    ensures failed { IfErr result (FailsCounted (D.state disk.old).faults (D.state disk.new).faults entry) }
    ensures sight { IfOk result (IsSightOf entry) }
    ensures lists { SameLists (D.state disk.old) (D.state disk.new) }
    ensures tree { SameTree (D.state disk.old) (D.state disk.new) }
    ensures faults { (D.state disk.old).faults ≤ (D.state disk.new).faults }
{
    let follows = inside.options.follow_links;
    if !follows && !(inside.options.same_file_system && entry.depth > 0) {
        return Ok(directory(inside, entry, None)?);
    }
    match identity(disk, entry.path.as_str()) {
        Ok(ident) => Ok(directory(inside, entry, ident)?),
        Err(DiskFault::NoMemory) => Err(Error::NoMemory),
        Err(_) => {
            let depth = entry.depth;
            let path = if follows { None } else { Some(entry.path) };
            Err(Error::Disk { path, depth })
        }
    }
}

/// A directory of this identity, as far as that counts. It is entered unless its device isn't the root's. Refuses for want of memory alone.
fn directory<S>(
    inside: &Inside<S>,
    entry: DirEntry,
    ident: Option<Ident>,
) -> Result<Sight, NoMemory>
    ensures seen { (manner : Manner) (node : Option Node) → GoesBy inside.now manner → KnowsIdent inside.now.options entry ident node
        → IfOk result (λ sight. seen_of sight ≡ seen_directory manner entry node) }
    ensures sight { IfOk result (IsSightOf entry) }
{
    let is_foreign = match ident {
        None => true,
        Some(ident) => ident.dev != inside.device,
    };
    if inside.options.same_file_system && entry.depth > 0 && is_foreign {
        return Ok(Sight::Stays(entry));
    }
    let folder = Folder {
        path: Text::new(inside.alloc, entry.path.as_str())?,
        depth: entry.depth,
        ident: if inside.options.follow_links {
            ident
        } else {
            None
        },
    };
    Ok(Sight::Enters(entry, folder))
}

/// What the path leads to, or `None` where it leads nowhere.
fn identity<D: Disk>(disk: &mut D, path: &str) -> Result<Option<Ident>, DiskFault>
    ensures told { IsTrue D.tells → IfOk result (λ ident. ident ≡ option_map ident_of (node_to (D.state disk.old).tree path.now true)) }
    ensures failed { IfErr result (λ fault. fault ≢ DiskFault.NoMemory → HasRisen (D.state disk.old).faults (D.state disk.new).faults) }
    ensures lists { SameLists (D.state disk.old) (D.state disk.new) }
    ensures tree { SameTree (D.state disk.old) (D.state disk.new) }
    ensures faults { (D.state disk.old).faults ≤ (D.state disk.new).faults }
{
    match disk.ident(path) {
        Ok(ident) => Ok(Some(ident)),
        Err(DiskFault::Absent) => Ok(None),
        Err(fault) => Err(fault),
    }
}

/// The path and the identity of the nearest directory with this identity, if there is one. Refuses for want of memory alone.
fn loop_to<S>(
    inside: &Inside<S>,
    level: &Level,
    ident: Option<Ident>,
) -> Result<Option<(Text, Ident)>, NoMemory>
    ensures { IfOk result (λ found. LoopsTo (chain_with inside.now level.now) ident found) }
{
    match ident {
        None => Ok(None),
        Some(ident) => match ancestor(inside, level, ident)? {
            None => Ok(None),
            Some(path) => Ok(Some((path, ident))),
        },
    }
}

/// The path of the nearest directory with this identity among those that were entered, this level's first. Refuses for want of memory alone.
fn ancestor<S>(inside: &Inside<S>, level: &Level, ident: Ident) -> Result<Option<Text>, NoMemory>
    ensures { IfOk result (λ found. found ≡ ancestor_path ident (chain_with inside.now level.now)) }
{
    if let Some(path) = path_at(inside.alloc, level, ident)? {
        return Ok(Some(path));
    }
    let mut levels = inside.stack.as_slice();
    while let Some((level, lower)) = levels.split_last() {
        if let Some(path) = path_at(inside.alloc, level, ident)? {
            return Ok(Some(path));
        }
        levels = lower;
    }
    Ok(None)
}

/// The path of the level's directory, where it has this identity. Refuses for want of memory alone.
fn path_at(alloc: Global, level: &Level, ident: Ident) -> Result<Option<Text>, NoMemory>
    ensures { IfOk result (λ found. found ≡ ancestor_path ident (with_folder level.now.folder [])) }
{
    match &level.folder {
        Some(folder) if folder.ident == Some(ident) => {
            Ok(Some(Text::new(alloc, folder.path.as_str())?))
        }
        _ => Ok(None),
    }
}

/// The error of a call on what a path leads to.
pub fn refusal(fault: DiskFault, path: Text, depth: usize) -> Error
    ensures { result ≡ refusal_of fault path depth }
{
    match fault {
        DiskFault::Absent => Error::Absent { path, depth },
        DiskFault::NoMemory => Error::NoMemory,
        DiskFault::Taken | DiskFault::Failed => Error::Disk {
            path: Some(path),
            depth,
        },
    }
}

/// The error, unless it is want of memory.
pub fn named(error: Error) -> Result<Error, NoMemory>
    ensures same { IfOk result (λ failed. failed ≡ error) }
    ensures named { IfOk result (λ failed. failed ≢ Error.NoMemory) }
{
    match error {
        Error::NoMemory => Err(NoMemory),
        error => Ok(error),
    }
}
