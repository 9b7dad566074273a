//! The open lists of a disk, by their numbers.

ghost use Rattle.std.specs.Prelude.{◌≡◌, ◌<◌, ◌↔◌, ℕ, IsTrue, IsSome, IsNone, IfOk, OnErr, None};
ghost use Rattle.std.specs.Ordering.{nat_cmp};
ghost use Rattle.std.specs.BTreeMap.{get};
ghost use Rattle.sd_io.specs.Calls.{count_after};
ghost use Rattle.sd_io.specs.Count.{IsAtLast};

use sd_io::{ListId, NoMemory};
use std::alloc::Global;
use std::collections::BTreeMap;

/// A list that is open.
#[derive(Drop)]
pub enum OpenList<L> {
    /// It isn't at its end, and its entries come from here.
    Unfinished(L),
    AtEnd,
}

/// The open lists by their numbers, and what is counted of them.
#[derive(Drop)]
pub struct OpenLists<L> {
    pub open: BTreeMap<u64, OpenList<L>>,
    /// No list was opened under this number or a greater one.
    pub next_number: u64,
    /// How many lists were open at most.
    pub most: u64,
    /// How many entries were given or passed over.
    pub listed: u64,
    ghost numbered: { (number : ℕ) → IsSome (get nat_cmp «open» number) → number < next_number },
}

impl<L: Drop> OpenLists<L> {
    ghost use Rattle.open_lists.specs.OpenLists.{list_at, open_count, is_ended, SameOpenLists, AddsList, PutsList, DropsList};

    /// No lists.
    pub fn new(alloc: Global) -> OpenLists<L>
        ensures lists { (number : ℕ) → list_at result number ≡ None }
        ensures count { open_count result ≡ 0 }
        ensures most { result.most ≡ 0 }
        ensures listed { result.listed ≡ 0 }
    {
        OpenLists {
            open: BTreeMap::new(alloc),
            next_number: 0,
            most: 0,
            listed: 0,
        }
    }

    /// Opens a list. Out of numbers is out of memory.
    pub fn open(&mut self, entries: L) -> Result<ListId, NoMemory>
        ensures added { IfOk result (λ list. AddsList self.old entries list.number self.new) }
        ensures refused { OnErr result (SameOpenLists self.old self.new) }
    {
        if self.next_number == u64::MAX {
            return Err(NoMemory);
        }
        let number = self.next_number;
        self.open.insert(number, OpenList::Unfinished(entries))?;
        self.next_number += 1;
        self.most = self.most.max(self.open.len() as u64);
        Ok(ListId { number })
    }

    /// Whether the count of listed entries stands at its last value.
    pub fn is_full(&self) -> bool
        ensures { IsTrue result ↔ IsAtLast self.now.listed }
    {
        self.listed == u64::MAX
    }

    /// Whether a list is at its end; one that isn't open is.
    pub fn is_at_end(&self, number: u64) -> bool
        ensures { result ≡ is_ended (list_at self.now number) }
    {
        match self.open.get(&number) {
            Some(OpenList::Unfinished(_)) => false,
            _ => true,
        }
    }

    /// Puts an open list at its end, and drops what is left of it.
    pub fn end(&mut self, number: u64)
        ensures open { IsSome (list_at self.old number) → PutsList self.old number OpenList.AtEnd self.new }
        ensures not_open { IsNone (list_at self.old number) → SameOpenLists self.old self.new }
    {
        if let Some(list) = self.open.get_mut(&number) {
            *list = OpenList::AtEnd;
        }
    }

    /// Counts one more listed entry.
    pub fn count(&mut self)
        ensures { self.new ≡ record self.old { listed = count_after self.old.listed } }
    {
        self.listed = self.listed.saturating_add(1);
    }

    /// Closes a list, where it is open.
    pub fn close(&mut self, number: u64)
        ensures { DropsList self.old number self.new }
    {
        let _list = self.open.remove(&number);
    }
}
