//! The names from the top of a disk to a node.

ghost use Rattle.std.specs.Prelude.{◌≡◌, ◌∷◌, [], ◌++◌, OnOk, OnErr, IfOk, IsTrue, ◌↔◌};
ghost use Rattle.sd_io.specs.Paths.{parent_of};
ghost use Rattle.sd_io.specs.Files.{path_text};
ghost use Rattle.mem_io.specs.MemNode.{now_of};
ghost use Rattle.sd_io.specs.Lists.{name_below};
ghost use Rattle.mem_io.specs.MemTrail.{begins_with};
ghost use Rattle.sd_io.specs.Outcomes.{is_in};

use sd_io::{NoMemory, Text};
use std::alloc::Global;
use std::cmp::Ordering;
use std::marker::Model;

/// The names from the top to a node, each a name of the directory before it.
#[derive(Drop)]
pub struct Place {
    names: Vec<Text>,
}

impl Model for Place {
    ghost use Rattle.std.specs.Prelude.{List, ℕ};
    ghost use Rattle.sd_io.specs.Tree.{NameList};

    ghost Value = { NameList };

    ghost view = { λ place. place.names.items };
}

impl Place {
    /// The top.
    pub fn top(alloc: Global) -> Place
        ensures { result ≡ [] }
    {
        Place {
            names: Vec::new(alloc),
        }
    }

    pub fn names(&self) -> &[Text]
        ensures { result.now ≡ self.now }
    {
        self.names.as_slice()
    }

    pub fn is_top(&self) -> bool
        ensures { IsTrue result ↔ (self.now ≡ []) }
    {
        self.names.is_empty()
    }

    /// The last name, where the place lies directly in this folder.
    pub fn name_in(&self, folder: &Place) -> Option<&str>
        ensures { now_of result ≡ name_below folder.now self.now }
    {
        let (name, front) = self.names.split_last()?;
        if front == folder.names.as_slice() {
            Some(name.as_str())
        } else {
            None
        }
    }

    /// Whether the place lies directly in this folder.
    pub fn is_in(&self, folder: &Place) -> bool
        ensures { result ≡ is_in folder.now self.now }
    {
        match self.names.split_last() {
            None => false,
            Some((_, front)) => front == folder.names.as_slice(),
        }
    }

    /// Whether the place is this one or lies below it.
    pub fn is_within(&self, place: &Place) -> bool
        ensures { result ≡ begins_with place.now self.now }
    {
        self.names.as_slice().starts_with(place.names.as_slice())
    }

    /// Goes on to a name in this place.
    pub fn enter(&mut self, name: &str) -> Result<(), NoMemory>
        ensures entered { OnOk result (self.new ≡ self.old ++ name.now ∷ []) }
        ensures refused { OnErr result (self.new ≡ self.old) }
    {
        let copy = Text::new(*self.names.allocator(), name)?;
        self.names.push(copy)?;
        Ok(())
    }

    /// Goes back to the parent; the top stays.
    pub fn leave(&mut self)
        ensures { self.new ≡ parent_of self.old }
    {
        let _name = self.names.pop();
    }

    /// The path of the place: `/`, and the names with `/` between each two.
    pub fn path(&self) -> Result<Text, NoMemory>
        ensures { IfOk result (λ path. path ≡ path_text self.now) }
    {
        let mut path = String::new(*self.names.allocator());
        path.push('/')?;
        for (i, name) in self.names.iter().enumerate() {
            if i > 0 {
                path.push('/')?;
            }
            path.push_str(name.as_str())?;
        }
        Ok(Text::from(path))
    }

    pub fn try_clone(&self) -> Result<Place, NoMemory>
        ensures { IfOk result (λ copy. copy ≡ self.now) }
    {
        let mut copy = Place::top(*self.names.allocator());
        for name in self.names.as_slice() {
            copy.enter(name.as_str())?;
        }
        Ok(copy)
    }
}

impl PartialEq for Place {
    ghost use Rattle.std.specs.Str.{bytes_eq};
    ghost use Rattle.std.specs.Cmp.{partial_equiv_from_equiv};
    ghost use Rattle.std.specs.Cmp.Lexicographic.{pointwise, lists_equiv, nat_list_eq_equiv};

    ghost eq = { pointwise bytes_eq };

    ghost laws = { partial_equiv_from_equiv (lists_equiv nat_list_eq_equiv) };

    fn eq(&self, other: &Place) -> bool {
        self.names.as_slice() == other.names.as_slice()
    }
}

impl Eq for Place {
    ghost use Rattle.std.specs.Cmp.Lexicographic.{lists_equiv, nat_list_eq_equiv};

    ghost laws = { lists_equiv nat_list_eq_equiv };
}

/// Places are compared name by name, names by their bytes.
impl PartialOrd for Place {
    ghost use Rattle.std.specs.Prelude.{Some};
    ghost use Rattle.std.specs.Prelude.{refl};
    ghost use Rattle.std.specs.Cmp.{partial_order_from_agreeing_total};
    ghost use Rattle.std.specs.Cmp.Lexicographic.{lists_total, nat_list_cmp_total, lists_ties, texts_ties};
    ghost use Rattle.sd_io.specs.Tree.{name_cmp, name_list_cmp};

    ghost partial_cmp = { λ a b. Some (name_list_cmp a b) };

    ghost laws = { partial_order_from_agreeing_total name_list_cmp (lists_total nat_list_cmp_total) (λ a b. refl) (lists_ties name_cmp texts_ties) };

    fn partial_cmp(&self, other: &Place) -> Option<Ordering> {
        Some(self.cmp(other))
    }
}

impl Ord for Place {
    ghost use Rattle.std.specs.Prelude.{refl};
    ghost use Rattle.sd_io.specs.Tree.{name_list_cmp, name_cmp};
    ghost use Rattle.std.specs.Cmp.Lexicographic.{lists_total, nat_list_cmp_total, lists_ties, texts_ties};

    ghost cmp = { name_list_cmp };

    ghost total = { lists_total nat_list_cmp_total };

    ghost matches_partial_cmp = { λ a b. refl };

    ghost matches_eq = { lists_ties name_cmp texts_ties };

    fn cmp(&self, other: &Place) -> Ordering {
        self.names.as_slice().cmp(other.names.as_slice())
    }
}
