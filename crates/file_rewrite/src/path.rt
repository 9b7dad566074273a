//! Paths that name no file.

ghost use Rattle.std.specs.Prelude.{◌≡◌, ◌==◌, ◌↔◌, IsTrue};
ghost use Rattle.std.specs.List.{list_all};
ghost use Rattle.file_rewrite.specs.Paths.{IsNoPath};

/// Whether a path names no file: it is empty, or nothing but `/`.
pub fn is_no_path(path: &str) -> bool
    ensures { IsTrue result ↔ IsNoPath path.now }
{
    are_slashes(path.as_bytes())
}

/// Whether each of the bytes is `/`.
fn are_slashes(bytes: &[u8]) -> bool
    ensures { result ≡ list_all (λ byte. byte == 47) bytes.now }
{
    bytes.iter().all(|byte| *byte == b'/')
}
