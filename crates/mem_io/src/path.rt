//! The parts of a path.

ghost use Rattle.std.specs.Prelude.{◌≡◌, ◌<◌, ◌∷◌, List, ℕ, map, length, reverse, ◌++◌, OnOk, IfOk, IfSome, IsTrue};
ghost use Rattle.std.specs.Borrow.{Bor};
ghost use Rattle.mem_io.specs.MemNode.{now_of};
ghost use Rattle.sd_io.specs.Paths.{is_dropped, parts_of, pieces_of, pieces_left};

use sd_io::NoMemory;
use std::alloc::Global;

/// Whether a part says nothing: it is empty, or `.`.
pub fn is_dropped(part: &str) -> bool
    ensures { result ≡ is_dropped part.now }
{
    part.is_empty() || part == "."
}

/// The text before the first `/`, and the text after it.
pub fn cut(text: &str) -> (&str, Option<&str>)
    ensures pieces { pieces_of text.now ≡ result.0.now ∷ pieces_left (now_of result.1) }
    ensures shorter { IfSome (now_of result.1) (λ rest. length rest < length text.now) }
{
    match text.split_once('/') {
        None => (text, None),
        Some((part, rest)) => (part, Some(rest)),
    }
}

/// The parts of a path in turn, without those that say nothing.
pub fn parts_of<'a>(alloc: Global, path: &'a str) -> Result<Vec<&'a str>, NoMemory>
    ensures { IfOk result (λ parts. map (λ (part : Bor (List ℕ)). part.now) parts.items ≡ parts_of path.now) }
{
    let mut parts = Vec::new(alloc);
    let mut rest = Some(path);
    while let Some(text) = rest {
        let (part, more) = cut(text);
        if !is_dropped(part) {
            parts.push(part)?;
        }
        rest = more;
    }
    Ok(parts)
}

/// Puts the parts of a path on a stack of parts, the first on top.
pub fn push_parts<'a>(parts: &mut Vec<&'a str>, path: &'a str) -> Result<(), NoMemory>
    ensures { OnOk result (reverse (map (λ (part : Bor (List ℕ)). part.now) parts.new.items)
        ≡ parts_of path.now ++ reverse (map (λ (part : Bor (List ℕ)). part.now) parts.old.items)) }
{
    let mut more = parts_of(*parts.allocator(), path)?;
    while let Some(part) = more.pop() {
        parts.push(part)?;
    }
    Ok(())
}
