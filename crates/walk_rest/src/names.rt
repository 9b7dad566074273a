//! The file names of paths.

ghost use Rattle.std.specs.Prelude.{◌≡◌, None, Some, option_map};
ghost use Rattle.std.specs.List.{last_or};
ghost use Rattle.sd_io.specs.Paths.{is_dropped, parts_of};
ghost use Rattle.walk_rest.specs.Names.{file_name};

/// The last part of a path that is cut at `/`, where empty parts and `.` are dropped; the whole path where that part is
/// `..` or there is none.
pub fn file_name(path: &str) -> &str
    ensures { result.now ≡ file_name path.now }
{
    let Some(part) = last_part(path) else {
        return path;
    };
    if part == ".." { path } else { part }
}

/// The last part of a path.
fn last_part(path: &str) -> Option<&str>
    ensures { option_map (λ part. part.now) result ≡ last_or None (parts_of path.now) }
{
    match path.rsplit_once('/') {
        Some((_, part)) if !is_dropped(part) => Some(part),
        _ => path.split('/').filter(|part| !is_dropped(part)).last(),
    }
}

/// Whether a part says nothing: it is empty, or `.`.
fn is_dropped(part: &str) -> bool
    ensures { result ≡ is_dropped part.now }
{
    part.is_empty() || part == "."
}
