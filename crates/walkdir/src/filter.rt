//! Walks without some entries.

ghost use Rattle.std.specs.Prelude.{◌≡◌, ◌≤◌};
ghost use Rattle.std.specs.Fn.{FnReturnsAt};
ghost use Rattle.std.specs.Iterator.{IsFinite, size};
ghost use Rattle.std.proofs.Common.{sym, subst};
ghost use Rattle.walkdir.specs.Filter.{Filters, PassesOver, filters_end, filters_go_on, filters_no_more, filters_none};

use crate::{DirEntry, Error, Walk};
use std::iter::FusedIterator;

/// A walk without the entries that a predicate refuses, and without what lies below them.
#[derive(Drop)]
pub struct FilterEntry<W, P> {
    /// The walk that it stands on.
    pub walk: W,
    /// Which entries it gives.
    pub predicate: P,
}

impl<W: Walk + Drop, P: Fn(&DirEntry) -> bool + Drop> FilterEntry<W, P> {
    /// A walk without these entries.
    pub(crate) fn new(walk: W, predicate: P) -> FilterEntry<W, P>
        ensures { result ≡ record { walk = walk; predicate = predicate } }
    {
        FilterEntry { walk, predicate }
    }

    /// The walk that it stands on, with the predicate given up. That walk's own `close` says what it leaves of the disk.
    pub fn into_walk(self) -> W
        ensures { result ≡ self.walk }
    {
        self.walk
    }

    /// The walk without the entries that this predicate refuses too, and without what lies below them.
    pub fn filter_entry<Q: Fn(&DirEntry) -> bool + Drop>(
        self,
        predicate: Q,
    ) -> FilterEntry<FilterEntry<W, P>, Q>
        ensures { result ≡ record { walk = self; predicate = predicate } }
    {
        FilterEntry::new(self, predicate)
    }
}

impl<W: Walk + Drop, P: Fn(&DirEntry) -> bool + Drop> Iterator for FilterEntry<W, P> {
    type Item = Result<DirEntry, Error>;

    ghost can_next = { λ s. W.can_next s.walk × IsFinite (W.remaining s.walk) × P.IsAlwaysCallable s.predicate };

    ghost remaining = { λ s. W.remaining s.walk };

    ghost next_gives = { λ s r t. (t.predicate ≡ s.predicate)
        × Filters W.next_gives W.has_entered W.skips (FnReturnsAt P.Fn s.predicate) s.walk r t.walk };

    fn next(&mut self) -> Option<Result<DirEntry, Error>> {
        while let Some(item) = self.walk.next() {
            match item {
                Err(error) => return Some(Err(error)),
                Ok(entry) => {
                    if meets(&self.predicate, &entry) {
                        return Some(Ok(entry));
                    }
                    pass_over(&mut self.walk);
                }
            }
        }
        None
    }
}

impl<W: Walk + Drop, P: Drop> FusedIterator for FilterEntry<W, P>
where
    FilterEntry<W, P>: Iterator,
{}

impl<W: Walk + Drop, P: Fn(&DirEntry) -> bool + Drop> Walk for FilterEntry<W, P> {
    ghost skips = { λ s t. (t.predicate ≡ s.predicate) × W.skips s.walk t.walk };

    ghost has_entered = { λ s. W.has_entered s.walk };

    ghost closes = { λ s t. (t.predicate ≡ s.predicate) × W.closes s.walk t.walk };

    ghost goes_on = { λ old answer new can ends gives.
        let on = filters_go_on (λ walk. W.can_next walk × IsFinite (W.remaining walk)) (λ a given b may now. W.goes_on a given b may.0 may.1 now)
        (λ a b may now. W.skips_on a b may.0 may.1 now) old.walk answer new.walk (can.0, can.1) gives.1 in
        ((on.0, on.1, subst P.IsAlwaysCallable (sym gives.0) can.2), on.1) };

    ghost skips_on = { λ old new can ends skips.
        let on = W.skips_on old.walk new.walk can.0 can.1 skips.1 in
        ((on.0, on.1, subst P.IsAlwaysCallable (sym skips.0) can.2), on.1) };

    ghost not_more = { λ old answer new gives. filters_no_more (λ walk. size (W.remaining walk)) W.not_more W.skips_no_more old.walk answer new.walk gives.1 };

    ghost skips_no_more = { λ old new skips. W.skips_no_more old.walk new.walk skips.1 };

    ghost closed = { λ old mid answer new closes gives. filters_none mid.walk (λ given next. W.closed old.walk mid.walk given next closes.1)
        answer new.walk gives.1 };

    ghost fused = { λ old mid answer new ended gives. filters_end W.fused old.walk mid.walk answer new.walk ended.1 gives.1 };

    fn skip_current_dir(&mut self) {
        self.walk.skip_current_dir();
    }

    fn just_entered(&self) -> bool {
        self.walk.just_entered()
    }

    fn close_lists(&mut self) {
        self.walk.close_lists();
    }

    fn close(self) {
        self.walk.close();
    }
}

/// Whether an entry meets a predicate.
fn meets<P: Fn(&DirEntry) -> bool>(predicate: &P, entry: &DirEntry) -> bool
    requires { P.IsAlwaysCallable predicate.now }
    ensures { FnReturnsAt P.Fn predicate.now entry.now result }
{
    predicate(entry)
}

/// Leaves the directory of the last entry, if the walk has just entered it.
fn pass_over<W: Walk>(walk: &mut W)
    requires can { W.can_next walk.old }
    requires ends { IsFinite (W.remaining walk.old) }
    ensures can { W.can_next walk.new }
    ensures ends { IsFinite (W.remaining walk.new) }
    ensures not_more { size (W.remaining walk.new) ≤ size (W.remaining walk.old) }
    ensures over { PassesOver W.has_entered W.skips walk.old walk.new }
{
    if walk.just_entered() {
        walk.skip_current_dir();
    }
}
