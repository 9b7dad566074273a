//! Patterns that are made of their parts.

ghost use Rattle.std.specs.Prelude.{◌≡◌, ℕ, IfOk, map};
ghost use Rattle.hir_tree.specs.Tree.{tree_of};
ghost use Rattle.pattern_syntax.specs.Reads.{united};
ghost use Rattle.pattern_syntax.specs.SetTree as set_tree;
ghost use Rattle.pattern_syntax.specs.SetTree.{with_sets};
ghost use Rattle.hir_tree.specs.declared.hir.Hir.{Hir as Pattern};

use hir_tree::{Group, Hir, Hirs, Repeat};
use sd_base::{NoMemory, Text};
use std::alloc::Global;

/// A part several times. Refuses for want of memory alone.
pub fn repeated(
    alloc: Global,
    part: Hir,
    min: u32,
    max: Option<u32>,
    greedy: bool,
) -> Result<Hir, NoMemory>
    ensures { IfOk result (λ hir. with_sets (tree_of hir) ≡ set_tree.repetition min max greedy (with_sets (tree_of part))) }
{
    let sub = Box::new(alloc, part)?;
    Ok(Hir::Repetition(Repeat {
        min,
        max,
        greedy,
        sub,
    }))
}

/// A part whose place is kept. Refuses for want of memory alone.
pub fn captured(alloc: Global, part: Hir, index: u32, name: Option<Text>) -> Result<Hir, NoMemory>
    ensures { IfOk result (λ hir. with_sets (tree_of hir) ≡ set_tree.capture index name (with_sets (tree_of part))) }
{
    let sub = Box::new(alloc, part)?;
    Ok(Hir::Capture(Group { index, name, sub }))
}

/// One part after the other: none is empty, and one is itself.
pub fn sequence(mut parts: Vec<Hir>) -> Hir
    ensures { (depth : ℕ) → with_sets (tree_of result) ≡ (united set_tree.concat (map (λ (part : Pattern). with_sets (tree_of part)) parts.items) depth).tree }
{
    if parts.len() > 1 {
        hir_tree::a_tree_is_made_of_the_trees_of_the_parts();
        return Hir::Concat(Hirs::from(parts));
    }
    parts.pop().unwrap_or(Hir::Empty)
}

/// The first part that goes on: none is empty, and one is itself.
pub fn choice(mut parts: Vec<Hir>) -> Hir
    ensures { (depth : ℕ) → with_sets (tree_of result) ≡ (united set_tree.alternation (map (λ (part : Pattern). with_sets (tree_of part)) parts.items) depth).tree }
{
    if parts.len() > 1 {
        hir_tree::a_tree_is_made_of_the_trees_of_the_parts();
        return Hir::Alternation(Hirs::from(parts));
    }
    parts.pop().unwrap_or(Hir::Empty)
}
