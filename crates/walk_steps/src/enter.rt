//! Entering a directory.

ghost use Rattle.std.specs.Prelude.{◌≡◌, ◌∷◌, ◌++◌, [], Some, IfOk, OnErr, option_map, not, ◌&&◌};
ghost use Rattle.walk_rest.specs.Plan.{is_shown, item_where};
ghost use Rattle.walk_rest.specs.Level.{item_of};
ghost use Rattle.walk_rest.specs.declared.level.Level as level_type;
ghost use Rattle.walk_steps.specs.Inside.{SameWalk, levels_of};
ghost use Rattle.walk_steps.specs.Steps.{Enters};

use crate::Inside;
use sd_io::NoMemory;
use walk_rest::{DirEntry, Entries, Folder, Level, Options};

/// Whether an entry at this depth is an item.
pub fn is_shown(options: &Options, depth: usize) -> bool
    ensures { result ≡ is_shown options.now depth }
{
    options.min_depth <= depth && depth <= options.max_depth
}

/// The entry before the contents of its directory, or after them, where it is an item.
fn split(contents_first: bool, shown: bool, entry: DirEntry) -> (Option<DirEntry>, Option<DirEntry>)
    ensures before { option_map item_of result.0 ≡ item_where (not contents_first && shown) entry }
    ensures after { option_map item_of result.1 ≡ item_where (contents_first && shown) entry }
{
    if !shown {
        return (None, None);
    }
    if contents_first {
        return (None, Some(entry));
    }
    (Some(entry), None)
}

/// Goes into a directory that an entry of the topmost level leads to, without reading it, and gives its item before its contents, if it is one.
/// Refuses for want of memory alone; the topmost level stands on top then.
pub fn enter<S>(
    inside: &mut Inside<S>,
    level: Level,
    entry: DirEntry,
    folder: Folder,
) -> Result<Option<DirEntry>, NoMemory>
    ensures entered { IfOk result (λ given. Enters inside.old level entry folder inside.new given) }
    ensures refused { OnErr result ((kept : level_type.Level) × (levels_of inside.new ≡ inside.old.stack.items ++ kept ∷ [])
        × (kept.folder ≡ level.folder) × (kept.entries ≡ level.entries)) }
    ensures same { SameWalk inside.old inside.new }
    ensures device { inside.new.device ≡ inside.old.device }
{
    let shown = is_shown(&inside.options, entry.depth);
    let (given, after) = split(inside.options.contents_first, shown, entry);
    let Level {
        folder: outer,
        first: _first,
        entries,
        faults,
    } = level;
    let raised = Level {
        folder: outer,
        first: after,
        entries,
        faults,
    };
    if let Err(refused) = inside.stack.push(raised) {
        inside.top = Some(refused.value);
        return Err(NoMemory);
    }
    inside.top = Some(Level {
        folder: Some(folder),
        first: None,
        entries: Entries::Unread,
        faults: Vec::new(inside.alloc),
    });
    Ok(given)
}
