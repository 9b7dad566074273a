//! What a list of the host's told of its entries.

ghost use Rattle.std.specs.Prelude.{◌≡◌, ◌+◌, ◌≤◌, ◌++◌, ◌⊎◌, [], ℕ, List, length, string_bytes, IfSome, OnOk, Contains, IsPermutation};
ghost use Rattle.host_io.specs.declared.told.ToldEntry.{ToldEntry};

use sd_io::Meta;
use std::alloc::{AllocError, Global};

/// Among so many entries one is found by looking at each.
const FEW: usize = 32;

/// The kinds and lengths of the entries of one folder, that whose list told of entries last. Each is told once.
#[derive(Drop)]
pub struct Told {
    /// The folder's path, with a slash at its end.
    folder: String,
    /// The entries' names, one behind the other.
    names: Vec<u8>,
    entries: Vec<ToldEntry>,
    /// Whether the entries are in the order of their names.
    is_sorted: bool,
    ghost within: { (entry : ToldEntry) → Contains entries.items entry → entry.end ≤ length names.items },
}

/// An entry of which a list told.
#[derive(Clone, Copy)]
struct ToldEntry {
    /// Where its name begins among the names.
    start: usize,
    /// Where its name ends.
    end: usize,
    meta: Meta,
    /// Whether it was asked for.
    is_asked: bool,
}

impl ToldEntry {
    ghost use Rattle.host_io.specs.Told.{name_of};

    /// Its name, among the names.
    fn name(self, names: &[u8]) -> &[u8]
        ensures { self.end ≤ length names.now → result.now ≡ name_of names.now self }
    {
        names.get(self.start..self.end).unwrap_or(&[])
    }
}

impl Told {
    ghost use Rattle.host_io.specs.Told.{IsTold, told_count};
    ghost use Rattle.sd_io.specs.declared.meta.Meta.{Meta};

    /// Nothing was told.
    pub fn new(alloc: Global) -> Told
        ensures nothing { (path : List ℕ) (meta : Meta) → ¬ IsTold result path meta }
        ensures count { told_count result ≡ 0 }
    {
        Told {
            folder: String::new(alloc),
            names: Vec::new(alloc),
            entries: Vec::new(alloc),
            is_sorted: false,
        }
    }

    /// Notes what the list of this folder told of an entry. What another list told is forgotten.
    pub fn tell(&mut self, folder: &str, name: &str, meta: Meta) -> Result<(), AllocError>
        ensures told { OnOk result (IsTold self.new (folder.now ++ name.now) meta) }
        // Also where memory runs out.
        ensures no_more { (path : List ℕ) (told : Meta) → IsTold self.new path told
            → ((path ≡ folder.now ++ name.now) × (told ≡ meta)) ⊎ IsTold self.old path told }
    {
        self.turn_to(folder)?;
        self.add(name, meta)
    }

    /// Forgets what another list told than this folder's.
    fn turn_to(&mut self, folder: &str) -> Result<(), AllocError>
        ensures folder { OnOk result (string_bytes self.new.folder ≡ folder.now) }
        ensures no_more { (path : List ℕ) (meta : Meta) → IsTold self.new path meta → IsTold self.old path meta }
    {
        if self.folder.as_str() != folder {
            self.forget();
            self.folder.push_str(folder)?;
        }
        Ok(())
    }

    /// Notes what was told of an entry of the folder.
    fn add(&mut self, name: &str, meta: Meta) -> Result<(), AllocError>
        ensures told { OnOk result (IsTold self.new (string_bytes self.old.folder ++ name.now) meta) }
        ensures no_more { (path : List ℕ) (told : Meta) → IsTold self.new path told
            → ((path ≡ string_bytes self.old.folder ++ name.now) × (told ≡ meta)) ⊎ IsTold self.old path told }
    {
        let start = self.names.len();
        self.names.extend_from_slice(name.as_bytes())?;
        let end = self.names.len();
        self.entries.push(ToldEntry {
            start,
            end,
            meta,
            is_asked: false,
        })?;
        self.is_sorted = false;
        Ok(())
    }

    /// What was told of the entry at a path, unless it was asked for since.
    pub fn take(&mut self, path: &str) -> Option<Meta>
        ensures answer { IfSome result (λ meta. IsTold self.old path.now meta) }
        ensures no_more { (other : List ℕ) (meta : Meta) → IsTold self.new other meta → IsTold self.old other meta }
        ensures once { IfSome result (λ meta. told_count self.new + 1 ≡ told_count self.old) }
    {
        let name = path.strip_prefix(self.folder.as_str())?.as_bytes();
        let place = self.place_of(name)?;
        let entry = *self.entries.get(place)?;
        if entry.is_asked || entry.name(self.names.as_slice()) != name {
            return None;
        }
        self.entries[place] = ToldEntry {
            is_asked: true,
            ..entry
        };
        Some(entry.meta)
    }

    /// The place where the entry with a name is, if there is one. Many entries are put in the order of their names for that.
    fn place_of(&mut self, name: &[u8]) -> Option<usize>
        ensures folder { self.new.folder ≡ self.old.folder }
        ensures names { self.new.names ≡ self.old.names }
        ensures entries { IsPermutation self.old.entries.items self.new.entries.items }
    {
        if self.entries.len() > FEW {
            self.sort();
            let names = self.names.as_slice();
            return self
                .entries
                .binary_search_by(|it| it.name(names).cmp(name))
                .ok();
        }
        let names = self.names.as_slice();
        self.entries.iter().position(|it| it.name(names) == name)
    }

    /// Puts the entries in the order of their names, once.
    fn sort(&mut self)
        ensures folder { self.new.folder ≡ self.old.folder }
        ensures names { self.new.names ≡ self.old.names }
        ensures entries { IsPermutation self.old.entries.items self.new.entries.items }
    {
        if self.is_sorted {
            return;
        }
        let names = self.names.as_slice();
        self.entries
            .sort_unstable_by(|a, b| a.name(names).cmp(b.name(names)));
        self.is_sorted = true;
    }

    /// Forgets what was told.
    pub fn forget(&mut self)
        ensures nothing { (path : List ℕ) (meta : Meta) → ¬ IsTold self.new path meta }
        ensures count { told_count self.new ≡ 0 }
        ensures folder { string_bytes self.new.folder ≡ [] }
    {
        self.entries.clear();
        self.names.clear();
        self.folder.clear();
    }
}
