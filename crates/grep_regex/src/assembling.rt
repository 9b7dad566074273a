//! Several patterns as one, and what options put round it.

ghost use Rattle.std.specs.Prelude.{◌≡◌, ◌+◌, ◌<◌, ◌^◌, IfOk, map, sum};
ghost use Rattle.hir_tree.specs.Hirs.{parts_of};
ghost use Rattle.hir_tree.specs.Spots.{greatest, groups_of, groups_of_tree};
ghost use Rattle.hir_tree.specs.Tree.{tree_of};
ghost use Rattle.grep_regex.specs.Options.{between, edged, line_end, line_start, numbered_from, numbered_on, together, word_edge, word_end_half, word_start_half};

use crate::options::Options;
use hir_core::{Group, Hir, Hirs, Look, Repeat, group_count};
use sd_base::{NoMemory, Text};
use std::alloc::Global;

/// Trees as one pattern, each with its groups numbered on from those before it. Refuses for want of memory alone.
pub(crate) fn together(alloc: Global, hirs: Vec<Hir>) -> Result<Hir, NoMemory>
    requires numbers { sum (map groups_of hirs.items) < 2 ^ 32 }
    ensures { IfOk result (λ hir. tree_of hir ≡ together (map tree_of hirs.items)) }
{
    hir_core::a_tree_is_made_of_the_trees_of_the_parts();
    let mut patterns = numbered_on(alloc, hirs)?;
    if patterns.len() == 1 {
        return Ok(patterns.swap_remove(0));
    }
    Ok(Hir::Alternation(Hirs::from(patterns)))
}

/// Trees one after another, each with its groups numbered on from those before it.
fn numbered_on(alloc: Global, hirs: Vec<Hir>) -> Result<Vec<Hir>, NoMemory>
    requires numbers { sum (map groups_of hirs.items) < 2 ^ 32 }
    ensures { IfOk result (λ patterns. map tree_of patterns.items ≡ numbered_on 0 (map tree_of hirs.items)) }
{
    let mut patterns = Vec::with_capacity(alloc, hirs.len())?;
    let mut groups: u32 = 0;
    for hir in hirs {
        let count = group_count(&hir);
        patterns.push(moved_on(alloc, hir, groups)?)?;
        groups += count;
    }
    Ok(patterns)
}

/// A tree with the numbers of its groups moved on. Where they stay, so does the tree.
fn moved_on(alloc: Global, hir: Hir, by: u32) -> Result<Hir, NoMemory>
    requires numbers { by + groups_of hir < 2 ^ 32 }
    ensures { IfOk result (λ moved. tree_of moved ≡ numbered_from by (tree_of hir)) }
{
    if by == 0 {
        return Ok(hir);
    }
    numbered_from(alloc, by, &hir)
}

/// A copy of a tree with the numbers of its groups moved on.
#[cycle(numbering)]
fn numbered_from(alloc: Global, by: u32, hir: &Hir) -> Result<Hir, NoMemory>
    requires numbers { by + groups_of hir.now < 2 ^ 32 }
    ensures { IfOk result (λ moved. tree_of moved ≡ numbered_from by (tree_of hir.now)) }
{
    hir_core::a_tree_is_made_of_the_trees_of_the_parts();
    hir_core::trees_in_a_row_have_the_groups_of_each();
    match hir {
        Hir::Empty | Hir::Literal(_) | Hir::ClassChars(_) | Hir::ClassBytes(_) | Hir::Look(_) => {
            hir.try_clone(alloc)
        }
        Hir::Repetition(repeat) => {
            let sub = numbered_from(alloc, by, &repeat.sub)?;
            Ok(Hir::Repetition(Repeat {
                min: repeat.min,
                max: repeat.max,
                greedy: repeat.greedy,
                sub: Box::new(alloc, sub)?,
            }))
        }
        Hir::Capture(group) => {
            let name = copied_name(alloc, &group.name)?;
            let sub = numbered_from(alloc, by, &group.sub)?;
            Ok(Hir::Capture(Group {
                index: by + group.index,
                name,
                sub: Box::new(alloc, sub)?,
            }))
        }
        Hir::Concat(hirs) => Ok(Hir::Concat(each_numbered_from(alloc, by, hirs.parts())?)),
        Hir::Alternation(hirs) => Ok(Hir::Alternation(each_numbered_from(
            alloc,
            by,
            hirs.parts(),
        )?)),
    }
}

/// Copies of parts with the numbers of their groups moved on.
#[cycle(numbering)]
fn each_numbered_from(alloc: Global, by: u32, parts: &[Hir]) -> Result<Hirs, NoMemory>
    requires numbers { by + greatest (map groups_of_tree (map tree_of parts.now)) < 2 ^ 32 }
    ensures { IfOk result (λ moved. map tree_of (parts_of moved) ≡ map (numbered_from by) (map tree_of parts.now)) }
{
    let mut moved = Hirs::new(alloc);
    for part in parts {
        moved.push(numbered_from(alloc, by, part)?)?;
    }
    Ok(moved)
}

/// A copy of a group's name, if it has one.
fn copied_name(alloc: Global, name: &Option<Text>) -> Result<Option<Text>, NoMemory>
    ensures { IfOk result (λ copy. copy ≡ name.now) }
{
    match name {
        None => Ok(None),
        Some(text) => Ok(Some(Text::new(alloc, text.as_str())?)),
    }
}

/// A pattern between the looks that options put round it. Refuses for want of memory alone.
pub(crate) fn edged(alloc: Global, options: &Options, hir: Hir) -> Result<Hir, NoMemory>
    ensures { IfOk result (λ whole. tree_of whole ≡ edged options.now (tree_of hir)) }
{
    if options.whole_line {
        between(alloc, line_start(options), line_end(options), hir)
    } else if options.word {
        between(alloc, word_start_half(options), word_end_half(options), hir)
    } else if options.word_edges {
        between(alloc, word_edge(options), word_edge(options), hir)
    } else {
        Ok(hir)
    }
}

/// A pattern between two looks.
fn between(alloc: Global, first: Look, last: Look, hir: Hir) -> Result<Hir, NoMemory>
    ensures { IfOk result (λ whole. tree_of whole ≡ between first last (tree_of hir)) }
{
    hir_core::a_tree_is_made_of_the_trees_of_the_parts();
    let mut parts = Hirs::new(alloc);
    parts.push(Hir::Look(first))?;
    parts.push(hir)?;
    parts.push(Hir::Look(last))?;
    Ok(Hir::Concat(parts))
}

/// The look of a line's start.
fn line_start(options: &Options) -> Look
    ensures { result ≡ line_start options.now }
{
    if options.crlf {
        Look::StartCRLF
    } else {
        Look::StartLF
    }
}

/// The look of a line's end.
fn line_end(options: &Options) -> Look
    ensures { result ≡ line_end options.now }
{
    if options.crlf {
        Look::EndCRLF
    } else {
        Look::EndLF
    }
}

/// The look of a word's half start.
fn word_start_half(options: &Options) -> Look
    ensures { result ≡ word_start_half options.now }
{
    if options.unicode {
        Look::WordStartHalfUnicode
    } else {
        Look::WordStartHalfAscii
    }
}

/// The look of a word's half end.
fn word_end_half(options: &Options) -> Look
    ensures { result ≡ word_end_half options.now }
{
    if options.unicode {
        Look::WordEndHalfUnicode
    } else {
        Look::WordEndHalfAscii
    }
}

/// The look of a word's edge.
fn word_edge(options: &Options) -> Look
    ensures { result ≡ word_edge options.now }
{
    if options.unicode {
        Look::WordUnicode
    } else {
        Look::WordAscii
    }
}
