//! A walk over a disk.

ghost use Rattle.std.specs.Prelude.{◌≡◌, ◌+◌, ◌<◌, ◌≤◌, ◌&&◌, [], Bool, false, IsTrue, Some, IfOk, IfErr, OnSome};
ghost use Rattle.std.specs.Iterator.{at_most};
ghost use Rattle.sd_io.specs.Disk.{SameLists, SameTree};
ghost use Rattle.sd_io.specs.Files.{Describes};
ghost use Rattle.walk_rest.specs.Errors.{IsRefusedFor};
ghost use Rattle.walk_rest.specs.Plan.{Comparison};
ghost use Rattle.walk_rest.specs.Rest.{Rest};
ghost use Rattle.walk_steps.specs.Inside.{HasRest, levels_of};
ghost use Rattle.walk_steps.specs.Promises.{GivesNext, SkipsTop};
ghost use Rattle.walk_steps.specs.Sound.{AreSound, IsSound};
ghost use Rattle.walk_steps.specs.Work.{left_to_do};
ghost use Rattle.walkdir.specs.Collect.{Collects};
ghost use Rattle.walkdir.specs.Gather.{GathersWalk};
ghost use Rattle.walkdir.specs.Steps.{ClosesAll, is_directory_item, lies_unread, still_compares, still_sound};

use crate::collect::collect;
use crate::gather::gather;
use crate::{FilterEntry, Gathers, Prunes, Walk};
use sd_io::{Disk, Meta};
use std::iter::FusedIterator;
use std::marker::PhantomData;
use walk_rest::{DirEntry, Entries, Error, Level, Order};
use walk_steps::{Inside, give_up, next_item, skip_top};

/// A walk over a disk. Its items are those of the listing of its root. Where it is dropped and not closed, its lists stay open.
pub struct IntoIter<'d, D: Disk, S, V: Drop = Inside<S>> {
    /// The disk.
    pub disk: &'d mut D,
    /// What it keeps in memory.
    pub inside: V,
    /// Whether the last item was an entry of kind `Directory`, and no skip came after it.
    pub gave_directory: bool,
    /// The type of the order.
    pub order: PhantomData<S>,
}

impl<'d, D: Disk, S, V: Drop> Drop for IntoIter<'d, D, S, V> {
    fn drop(self)
        ensures { self.exit.0.now ≡ self.entry.disk.now }
    {
        let IntoIter {
            disk: _disk,
            inside: _inside,
            gave_directory: _gave_directory,
            order: _order,
        } = self;
    }
}

impl<'d, D: Disk, S: Order + Drop> IntoIter<'d, D, S, Inside<S>> {
    /// A walk that goes on from what it keeps.
    pub(crate) fn new(disk: &'d mut D, inside: Inside<S>) -> IntoIter<'d, D, S>
        ensures same_reference { result.disk.ghost_name ≡ disk.entry.ghost_name }
        ensures disk { result.disk.now ≡ disk.old }
        ensures inside { result.inside ≡ inside }
        ensures not_entered { result.gave_directory ≡ false }
    {
        IntoIter {
            disk,
            inside,
            gave_directory: false,
            order: PhantomData,
        }
    }

    /// Leaves the directory that was entered last, with all that is due of it. Does nothing where only the root stands.
    pub fn skip_current_dir(&mut self)
        requires { IsSound (D.state self.old.disk.now) (S.sorts self.old.inside.order) self.old.inside }
        ensures same_reference { self.new.disk.ghost_name ≡ self.old.disk.ghost_name }
        ensures skips { SkipsTop D.tells (S.sorts self.old.inside.order) (D.state self.old.disk.now) self.old.inside
            (D.state self.new.disk.now) self.new.inside }
        ensures left { self.new.gave_directory ≡ false }
    {
        skip(self.disk, &mut self.inside, &mut self.gave_directory);
    }

    /// Whether the last item was an entry of kind `Directory` that was entered and not left since.
    pub fn just_entered(&self) -> bool
        ensures { result ≡ (self.now.gave_directory && lies_unread self.now.inside.top) }
    {
        self.gave_directory && lies_unread(&self.inside.top)
    }

    /// The kind of an entry's node, and a regular file's number of bytes, as `DirEntry::metadata` answers. The walk stays as it was.
    pub fn metadata(&mut self, entry: &DirEntry) -> Result<Meta, Error>
        ensures same_reference { self.new.disk.ghost_name ≡ self.old.disk.ghost_name }
        ensures answer { IsTrue D.tells → IfOk result (Describes (D.state self.old.disk.now) entry.now.path entry.now.followed) }
        ensures refused { IfErr result (IsRefusedFor D.tells (D.state self.old.disk.now) (D.state self.new.disk.now) entry.now) }
        ensures never_falls { (D.state self.old.disk.now).faults ≤ (D.state self.new.disk.now).faults }
        ensures tree { SameTree (D.state self.old.disk.now) (D.state self.new.disk.now) }
        ensures lists { SameLists (D.state self.old.disk.now) (D.state self.new.disk.now) }
        ensures same { (self.new.inside ≡ self.old.inside) × (self.new.gave_directory ≡ self.old.gave_directory) }
        ensures sound { (sorts : Bool) → IsSound (D.state self.old.disk.now) sorts self.old.inside
            → IsSound (D.state self.new.disk.now) sorts self.new.inside }
        ensures rest { (sorts : Bool) (by : Comparison) (rest : Rest) → HasRest (D.state self.old.disk.now) sorts by self.old.inside rest
            → HasRest (D.state self.new.disk.now) sorts by self.new.inside rest }
    {
        entry.metadata(self.inside.alloc, self.disk)
    }

    /// Closes every list that it holds.
    pub fn close(self)
        requires { AreSound (D.state self.disk.now) (levels_of self.inside) }
        ensures { ClosesAll (D.state self.entry.disk.now) (levels_of self.entry.inside) (D.state self.exit.0.now) }
    {
        let IntoIter {
            disk,
            inside,
            gave_directory: _gave_directory,
            order: _order,
        } = self;
        close_all(disk, inside);
    }

    /// All entries of the walk, or its first error, or `TooMany` at the entry below the root with this number. Closes every list that it holds.
    pub fn collect_capped(self, cap: u64) -> Result<Vec<DirEntry>, Error>
        requires sound { IsSound (D.state self.disk.now) (S.sorts self.inside.order) self.inside }
        requires order { S.can_compare self.inside.order }
        requires cap { 0 < cap }
        ensures { Collects D.tells S.sorts S.compares_by (D.state self.entry.disk.now) self.entry.inside cap result (D.state self.exit.0.now) }
    {
        let IntoIter {
            disk,
            inside,
            gave_directory: _gave_directory,
            order: _order,
        } = self;
        collect(disk, inside, cap)
    }

    /// Gathers the entries of the walk that aren't left out, each as it comes, up to its first error, or `TooMany` at the entry
    /// below the root with this number that it comes to. On a disk that tells its tree a directory that is left out isn't read.
    /// Closes every list that the walk holds, and ends it.
    pub fn gather<P: Prunes, G: Gathers>(
        &mut self,
        prune: &P,
        gatherer: &mut G,
        cap: u64,
    ) -> Result<(), Error>
        requires sound { IsSound (D.state self.old.disk.now) (S.sorts self.old.inside.order) self.old.inside }
        requires order { S.can_compare self.old.inside.order }
        requires cap { 0 < cap }
        ensures same_reference { self.new.disk.ghost_name ≡ self.old.disk.ghost_name }
        ensures gathers { GathersWalk D.tells S.sorts S.compares_by (P.leaves_out prune.now) G.gathers (D.state self.old.disk.now) self.old.inside cap result
            (D.state self.new.disk.now) gatherer.old gatherer.new }
        ensures gone { levels_of self.new.inside ≡ [] }
    {
        gather(self.disk, &mut self.inside, prune, gatherer, cap)
    }

    /// The walk without the entries that the predicate refuses, and without what lies below them.
    pub fn filter_entry<P: Fn(&DirEntry) -> bool + Drop>(
        self,
        predicate: P,
    ) -> FilterEntry<IntoIter<'d, D, S>, P>
        ensures { (result.walk ≡ self.entry) × (result.predicate ≡ predicate) }
    {
        FilterEntry::new(self, predicate)
    }
}

impl<'d, D: Disk, S: Order + Drop> Iterator for IntoIter<'d, D, S, Inside<S>> {
    type Item = Result<DirEntry, Error>;

    ghost can_next = { λ s. IsSound (D.state s.disk.now) (S.sorts s.inside.order) s.inside × S.can_compare s.inside.order };

    ghost remaining = { λ s. at_most (left_to_do (D.state s.disk.now) s.inside) };

    ghost next_gives = { λ s r t. (t.disk.ghost_name ≡ s.disk.ghost_name)
        × GivesNext D.tells (S.sorts s.inside.order) (S.compares_by s.inside.order) (D.state s.disk.now) s.inside r (D.state t.disk.now) t.inside
        × (t.gave_directory ≡ is_directory_item r) };

    fn next(&mut self) -> Option<Result<DirEntry, Error>> {
        step(self.disk, &mut self.inside, &mut self.gave_directory)
    }
}

impl<'d, D: Disk, S: Order + Drop> FusedIterator for IntoIter<'d, D, S, Inside<S>> {}

impl<'d, D: Disk, S: Order + Drop> Walk for IntoIter<'d, D, S, Inside<S>> {
    ghost skips = { λ s t. (t.disk.ghost_name ≡ s.disk.ghost_name)
        × SkipsTop D.tells (S.sorts s.inside.order) (D.state s.disk.now) s.inside (D.state t.disk.now) t.inside };

    ghost has_entered = { λ s. s.gave_directory && lies_unread s.inside.top };

    ghost closes = { λ s t. (t.disk.ghost_name ≡ s.disk.ghost_name) × (levels_of t.inside ≡ [])
        × ClosesAll (D.state s.disk.now) (levels_of s.inside) (D.state t.disk.now) };

    ghost goes_on = { λ old answer new can ends gives.
        let sound = still_sound S.sorts (D.state new.disk.now) old.inside new.inside gives.1.same gives.1.sound in
        let compares = still_compares S.can_compare old.inside new.inside gives.1.same can.1 in
        ((sound, compares), tt) };

    ghost skips_on = { λ old new can ends skips.
        let sound = still_sound S.sorts (D.state new.disk.now) old.inside new.inside skips.1.same skips.1.sound in
        let compares = still_compares S.can_compare old.inside new.inside skips.1.same can.1 in
        ((sound, compares), tt) };

    ghost not_more = { λ old answer new gives. gives.1.not_more };

    ghost skips_no_more = { λ old new skips. skips.1.not_more };

    ghost closed = { λ old mid answer new closes gives. gives.1.over closes.1 };

    ghost fused = { λ old mid answer new ended gives. gives.1.over ended.1.ended };

    fn skip_current_dir(&mut self) {
        skip(self.disk, &mut self.inside, &mut self.gave_directory);
    }

    fn just_entered(&self) -> bool {
        self.gave_directory && lies_unread(&self.inside.top)
    }

    fn close_lists(&mut self) {
        end(self.disk, &mut self.inside);
    }

    fn close(self)
        requires { AreSound (D.state self.disk.now) (levels_of self.inside) }
        ensures { ClosesAll (D.state self.entry.disk.now) (levels_of self.entry.inside) (D.state self.exit.0.now) }
    {
        self.close();
    }
}

/// The next item of a walk, and whether it is an entry of kind `Directory`.
fn step<D: Disk, S: Order>(
    disk: &mut D,
    inside: &mut Inside<S>,
    gave_directory: &mut bool,
) -> Option<Result<DirEntry, Error>>
    requires sound { IsSound (D.state disk.old) (S.sorts inside.old.order) inside.old }
    requires order { S.can_compare inside.old.order }
    ensures gives { GivesNext D.tells (S.sorts inside.old.order) (S.compares_by inside.old.order) (D.state disk.old) inside.old result
        (D.state disk.new) inside.new }
    ensures directory { gave_directory.new ≡ is_directory_item result }
    ensures less { OnSome result (left_to_do (D.state disk.new) inside.new < left_to_do (D.state disk.old) inside.old) }
{
    let item = next_item(disk, inside);
    *gave_directory = is_directory(&item);
    item
}

/// Leaves the directory that was entered last.
fn skip<D: Disk, S: Order>(disk: &mut D, inside: &mut Inside<S>, gave_directory: &mut bool)
    requires { IsSound (D.state disk.old) (S.sorts inside.old.order) inside.old }
    ensures skips { SkipsTop D.tells (S.sorts inside.old.order) (D.state disk.old) inside.old (D.state disk.new) inside.new }
    ensures left { gave_directory.new ≡ false }
{
    skip_top(disk, inside);
    *gave_directory = false;
}

/// Closes every list that a walk holds.
fn close_all<D: Disk, S: Drop>(disk: &mut D, inside: Inside<S>)
    requires { AreSound (D.state disk.old) (levels_of inside) }
    ensures { ClosesAll (D.state disk.old) (levels_of inside) (D.state disk.new) }
{
    let mut inside = inside;
    give_up(disk, &mut inside);
}

/// Closes every list that a walk holds, and ends it.
fn end<D: Disk, S: Order>(disk: &mut D, inside: &mut Inside<S>)
    requires sound { IsSound (D.state disk.old) (S.sorts inside.old.order) inside.old }
    requires order { S.can_compare inside.old.order }
    ensures gone { levels_of inside.new ≡ [] }
    ensures closes { ClosesAll (D.state disk.old) (levels_of inside.old) (D.state disk.new) }
    ensures sound { IsSound (D.state disk.new) (S.sorts inside.new.order) inside.new }
    ensures order { S.can_compare inside.new.order }
{
    give_up(disk, inside);
}

/// Whether an item is an entry of kind `Directory`.
fn is_directory(item: &Option<Result<DirEntry, Error>>) -> bool
    ensures { result ≡ is_directory_item item.now }
{
    matches!(item, Some(Ok(entry)) if entry.kind.is_dir())
}

/// Whether the directory on top was entered, and nothing was read of it.
pub(crate) fn lies_unread(top: &Option<Level>) -> bool
    ensures { result ≡ lies_unread top.now }
{
    match top {
        Some(level) => level.folder.is_some() && matches!(level.entries, Entries::Unread),
        None => false,
    }
}
