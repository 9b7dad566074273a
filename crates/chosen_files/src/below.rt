//! Paths below a folder.

ghost use Rattle.std.specs.Prelude.{◌≡◌, ◌≢◌, ℕ, List, IfOk, MatchOption};
ghost use Rattle.walk_rest.specs.Plan.{path_below};

use sd_io::{NoMemory, Text};
use std::alloc::Global;

/// What a path has after that of a folder.
pub(crate) fn names_below<'a>(folder: &str, path: &'a str) -> Option<&'a str>
    ensures { MatchOption result ((names : List ℕ) → path.now ≢ path_below folder.now names) (λ names. path.now ≡ path_below folder.now names.now) }
{
    let rest = path.strip_prefix(folder)?;
    if folder.ends_with('/') {
        Some(rest)
    } else {
        rest.strip_prefix('/')
    }
}

/// The path of what has these names below a folder: the folder's, `/` unless that ends with it, and the names.
pub(crate) fn join(alloc: Global, folder: &str, names: &str) -> Result<Text, NoMemory>
    ensures { IfOk result (λ path. path ≡ path_below folder.now names.now) }
{
    let mut path = String::from_str(alloc, folder)?;
    if !folder.ends_with('/') {
        path.push('/')?;
    }
    path.push_str(names)?;
    Ok(Text::from(path))
}
