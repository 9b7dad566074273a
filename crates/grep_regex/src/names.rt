//! The names of groups.

ghost use Rattle.std.specs.Prelude.{◌≡◌, ◌++◌, ◌∷◌, [], IfOk, OnOk};
ghost use Rattle.std.specs.List.{flat_map};
ghost use Rattle.hir_tree.specs.Tree.{tree_of};
ghost use Rattle.grep_regex.specs.Matching.{with_numbers};
ghost use Rattle.grep_regex.specs.Options.{names_in, number_of};

use hir_core::Hir;
use sd_base::{NoMemory, Text};
use std::alloc::Global;

/// A name with the number of its group.
#[derive(Drop)]
pub struct Named {
    pub(crate) name: Text,
    pub(crate) group: u32,
}

/// The names in a tree, from left to right. Refuses for want of memory alone.
pub(crate) fn names_in(alloc: Global, hir: &Hir) -> Result<Vec<Named>, NoMemory>
    ensures { IfOk result (λ names. with_numbers names.items ≡ names_in (tree_of hir.now)) }
{
    let mut names = Vec::new(alloc);
    add_names(alloc, hir, &mut names)?;
    Ok(names)
}

/// The number of the group of a name. `None` where no group has it.
pub(crate) fn number_of(names: &[Named], name: &str) -> Option<u32>
    ensures { result ≡ number_of (with_numbers names.now) name.now }
{
    let named = names.iter().find(|named| named.name.as_str() == name)?;
    Some(named.group)
}

/// Adds the names in a tree, from left to right.
#[cycle(names)]
fn add_names(alloc: Global, hir: &Hir, names: &mut Vec<Named>) -> Result<(), NoMemory>
    ensures { OnOk result (with_numbers names.new.items ≡ with_numbers names.old.items ++ names_in (tree_of hir.now)) }
{
    match hir {
        Hir::Empty | Hir::Literal(_) | Hir::ClassChars(_) | Hir::ClassBytes(_) | Hir::Look(_) => {
            Ok(())
        }
        Hir::Repetition(repeat) => add_names(alloc, &repeat.sub, names),
        Hir::Capture(group) => {
            if let Some(name) = &group.name {
                add_name(alloc, name, group.index, names)?;
            }
            add_names(alloc, &group.sub, names)
        }
        Hir::Concat(hirs) | Hir::Alternation(hirs) => {
            hir_core::a_tree_is_made_of_the_trees_of_the_parts();
            add_names_in_each(alloc, hirs.parts(), names)
        }
    }
}

/// Adds the names in each of the trees, in their order.
#[cycle(names)]
fn add_names_in_each(alloc: Global, parts: &[Hir], names: &mut Vec<Named>) -> Result<(), NoMemory>
    ensures { OnOk result (with_numbers names.new.items
        ≡ with_numbers names.old.items ++ flat_map (λ part. names_in (tree_of part)) parts.now) }
{
    for part in parts {
        add_names(alloc, part, names)?;
    }
    Ok(())
}

/// Adds a name with the number of its group.
fn add_name(alloc: Global, name: &Text, group: u32, names: &mut Vec<Named>) -> Result<(), NoMemory>
    ensures { OnOk result (with_numbers names.new.items ≡ with_numbers names.old.items ++ (name.now, group) ∷ []) }
{
    let name = Text::new(alloc, name.as_str())?;
    names.push(Named { name, group })?;
    Ok(())
}
