//! The orders of a walk.

ghost use Rattle.std.specs.Prelude.{◌≡◌, Bool, IsTrue};
ghost use Rattle.std.specs.Cmp.{IsTotalOrder};
ghost use Rattle.walk_rest.specs.declared.entry.DirEntry as entry;
ghost use Rattle.walk_rest.specs.Plan.{Comparison};

use crate::DirEntry;
use std::cmp::Ordering;
use std::marker::PhantomData;

/// How the entries of one directory are ordered.
pub trait Order {
    /// Whether it orders them at all.
    ghost sorts: { Self → Bool };

    /// Whether it may be asked.
    ghost can_compare: { Self → Type 0 };

    /// It answers by this comparison.
    ghost compares_by: { Self → Comparison → Type 0 };

    /// Whether it orders them at all; else they keep the disk's order.
    fn sorts(&self) -> bool
        ensures { result ≡ sorts self.now };

    /// Which of two entries comes first; equal ones keep the disk's order.
    fn compare(&self, a: &DirEntry, b: &DirEntry) -> Ordering
        requires { can_compare self.now }
        ensures { (by : Comparison) → compares_by self.now by → result ≡ by a.now b.now };

    /// What it answers by is a total preorder.
    ghost total: { (order : Self) (by : Comparison) → compares_by order by → IsTotalOrder by };
}

/// The disk's own order.
#[derive(Clone, Copy, Drop)]
pub struct Unsorted;

impl Order for Unsorted {
    ghost use Rattle.std.specs.Prelude.{◌≡◌, false};
    ghost use Rattle.std.specs.declared.cmp.Ordering.TheVariants as answer;
    ghost use Rattle.walk_rest.specs.Orders.{alike_total};

    ghost sorts = { λ order. false };

    ghost can_compare = { λ order. Unit {0} };

    ghost compares_by = { λ order by. by ≡ (λ a b. answer.Equal) };

    ghost total = { λ order by e. alike_total by e };

    fn sorts(&self) -> bool {
        false
    }

    fn compare(&self, _a: &DirEntry, _b: &DirEntry) -> Ordering {
        Ordering::Equal
    }
}

/// By the bytes of the file names.
#[derive(Clone, Copy, Drop)]
pub struct ByFileName;

impl Order for ByFileName {
    ghost use Rattle.std.specs.Prelude.{◌≡◌, true};
    ghost use Rattle.walk_rest.specs.Names.{by_file_name};
    ghost use Rattle.walk_rest.specs.Orders.{by_file_name_total};

    ghost sorts = { λ order. true };

    ghost can_compare = { λ order. Unit {0} };

    ghost compares_by = { λ order by. by ≡ by_file_name };

    ghost total = { λ order by is. by_file_name_total by is };

    fn sorts(&self) -> bool {
        true
    }

    fn compare(&self, a: &DirEntry, b: &DirEntry) -> Ordering {
        a.file_name().cmp(b.file_name())
    }
}

/// By a key of each entry.
#[derive(Drop)]
pub struct ByKey<K, F> {
    /// Gives the key of an entry.
    pub key: F,
    /// The type of the keys.
    pub keys: PhantomData<K>,
}

impl<K, F> ByKey<K, F> {
    /// By the keys that a closure gives.
    pub fn new(key: F) -> ByKey<K, F>
        ensures { result.key ≡ key }
    {
        ByKey {
            key,
            keys: PhantomData,
        }
    }
}

impl<K: Ord + Drop, F: Fn(&DirEntry) -> K> Order for ByKey<K, F> {
    ghost use Rattle.std.specs.Prelude.{◌≡◌, true};
    ghost use Rattle.std.specs.Ordering.{on};
    ghost use Rattle.walk_rest.specs.Orders.{GivesKey, by_key_total};

    ghost sorts = { λ order. true };

    ghost can_compare = { λ order. F.IsAlwaysCallable order.key };

    ghost compares_by = { λ order by. (key : entry.DirEntry → K) × GivesKey F.Fn order.key key × (by ≡ on key K.cmp) };

    ghost total = { λ order by is. by_key_total K.total by is };

    fn sorts(&self) -> bool {
        true
    }

    fn compare(&self, a: &DirEntry, b: &DirEntry) -> Ordering {
        (self.key)(a).cmp(&(self.key)(b))
    }
}

/// By a comparison, which is to be a total preorder.
#[derive(Drop)]
pub struct ByCmp<F> {
    /// Compares two entries.
    pub compare: F,
}

impl<F: Fn(&DirEntry, &DirEntry) -> Ordering> Order for ByCmp<F> {
    ghost use Rattle.std.specs.Prelude.{◌≡◌, true};
    ghost use Rattle.walk_rest.specs.Orders.{ComparesBy};

    ghost sorts = { λ order. true };

    ghost can_compare = { λ order. F.IsAlwaysCallable order.compare };

    ghost compares_by = { λ order by. IsTotalOrder by × ComparesBy F.Fn order.compare by };

    ghost total = { λ order by is. is.0 };

    fn sorts(&self) -> bool {
        true
    }

    fn compare(&self, a: &DirEntry, b: &DirEntry) -> Ordering {
        (self.compare)(a, b)
    }
}
