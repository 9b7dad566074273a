//! The names of groups.

ghost use Rattle.std.specs.Prelude.{[], ◌∷◌, ◌++◌, OnOk, List, ℕ};
ghost use Rattle.pattern_core.specs.Parsing.{AreNames};

use sd_base::{NoMemory, Text};
use std::alloc::Global;
use std::collections::BTreeSet;

/// The names of the groups that were read.
#[derive(Drop)]
pub(crate) struct Names {
    known: BTreeSet<Text>,
    /// Whether a name stands twice.
    pub(crate) has_one_twice: bool,
}

impl Names {
    /// No names.
    pub(crate) fn new(alloc: Global) -> Names
        ensures { AreNames result [] }
    {
        Names {
            known: BTreeSet::new(alloc),
            has_one_twice: false,
        }
    }

    /// Adds a copy of a name. Refuses for want of memory alone.
    pub(crate) fn add(&mut self, alloc: Global, name: &Text) -> Result<(), NoMemory>
        ensures { OnOk result ((names : List (List ℕ)) → AreNames self.old names → AreNames self.new (names ++ name.now ∷ [])) }
    {
        let is_new = self.known.insert(Text::new(alloc, name.as_str())?)?;
        if !is_new {
            self.has_one_twice = true;
        }
        Ok(())
    }
}
