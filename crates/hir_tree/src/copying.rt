//! Copies of a pattern's tree.

ghost use Rattle.std.specs.Prelude.{◌≡◌, IfOk, map};
ghost use Rattle.hir_tree.specs.Hirs.{parts_of};
ghost use Rattle.hir_tree.specs.Tree.{tree_of};

use crate::{Group, Hir, Hirs, Repeat};
use sd_base::{NoMemory, Text};
use std::alloc::Global;

impl Hir {
    /// A copy: the same tree at another place in memory. Refuses for want of memory alone.
    pub fn try_clone(&self, alloc: Global) -> Result<Hir, NoMemory>
        ensures { IfOk result (λ copy. tree_of copy ≡ tree_of self.now) }
    {
        copied(alloc, self)
    }
}

/// A copy of a tree.
#[cycle(copy)]
fn copied(alloc: Global, hir: &Hir) -> Result<Hir, NoMemory>
    ensures { IfOk result (λ copy. tree_of copy ≡ tree_of hir.now) }
{
    match hir {
        Hir::Empty => Ok(Hir::Empty),
        Hir::Literal(bytes) => Ok(Hir::Literal(bytes.try_clone(alloc)?)),
        Hir::ClassChars(set) => Ok(Hir::ClassChars(set.try_clone(alloc)?)),
        Hir::ClassBytes(set) => Ok(Hir::ClassBytes(set.try_clone(alloc)?)),
        Hir::Look(look) => Ok(Hir::Look(*look)),
        Hir::Repetition(repeat) => {
            let sub = copied(alloc, &repeat.sub)?;
            Ok(Hir::Repetition(Repeat {
                min: repeat.min,
                max: repeat.max,
                greedy: repeat.greedy,
                sub: Box::new(alloc, sub)?,
            }))
        }
        Hir::Capture(group) => {
            let name = copied_name(alloc, &group.name)?;
            let sub = copied(alloc, &group.sub)?;
            Ok(Hir::Capture(Group {
                index: group.index,
                name,
                sub: Box::new(alloc, sub)?,
            }))
        }
        Hir::Concat(hirs) => Ok(Hir::Concat(copied_parts(alloc, hirs.parts())?)),
        Hir::Alternation(hirs) => Ok(Hir::Alternation(copied_parts(alloc, hirs.parts())?)),
    }
}

/// Copies of parts, in their order.
#[cycle(copy)]
fn copied_parts(alloc: Global, parts: &[Hir]) -> Result<Hirs, NoMemory>
    ensures { IfOk result (λ copies. map tree_of (parts_of copies) ≡ map tree_of parts.now) }
{
    let mut copies = Hirs::new(alloc);
    for part in parts {
        copies.push(copied(alloc, part)?)?;
    }
    Ok(copies)
}

/// A copy of a group's name, if it has one.
fn copied_name(alloc: Global, name: &Option<Text>) -> Result<Option<Text>, NoMemory>
    ensures { IfOk result (λ copy. copy ≡ name.now) }
{
    match name {
        None => Ok(None),
        Some(text) => Ok(Some(Text::new(alloc, text.as_str())?)),
    }
}
