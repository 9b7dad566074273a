//! What filters stand on.

ghost use Rattle.std.specs.Prelude.{◌≡◌, ◌≤◌, Bool, false, Option, None};
ghost use Rattle.std.specs.Iterator.{IsFinite, size};
ghost use Rattle.walk_rest.specs.Plan.{Item};

use crate::{DirEntry, Error};

/// A walk, directory by directory.
pub trait Walk: Iterator<Item = Result<DirEntry, Error>> {
    /// What leaving a directory does.
    ghost skips: { Self → Self → Type 0 };

    /// The last item was an entry of kind `Directory` that was entered and not left since.
    ghost has_entered: { Self → Bool };

    /// What closing the lists does.
    ghost closes: { Self → Self → Type 0 };

    /// Leaves the directory that was entered last, with all that is due of it. Does nothing where only the root stands.
    fn skip_current_dir(&mut self)
        requires can { Self.can_next self.old }
        requires ends { IsFinite (Self.remaining self.old) }
        ensures can { Self.can_next self.new }
        ensures ends { IsFinite (Self.remaining self.new) }
        ensures not_more { size (Self.remaining self.new) ≤ size (Self.remaining self.old) }
        ensures skips { skips self.old self.new }
        ensures left { has_entered self.new ≡ false };

    /// Whether the last item was an entry of kind `Directory` that was entered and not left since.
    fn just_entered(&self) -> bool
        ensures { result ≡ has_entered self.now };

    /// Closes every list that it holds, and ends it: `next` gives `None` from then on.
    fn close_lists(&mut self)
        requires can { Self.can_next self.old }
        requires ends { IsFinite (Self.remaining self.old) }
        ensures can { Self.can_next self.new }
        ensures ends { IsFinite (Self.remaining self.new) }
        ensures closes { closes self.old self.new };

    /// The same, and lets the walk go. What a value of a type that isn't known leaves behind its references, no clause can say once it is let go:
    /// `close_lists` says it.
    fn close(self)
    where
        Self: Sized,
        requires { Self.can_next self };

    /// After a `next` there may be another, also where it gave `None`.
    ghost goes_on: { (old : Self) (answer : Option Item) (new : Self) → Self.can_next old → IsFinite (Self.remaining old) → Self.next_gives old answer new
        → Self.can_next new × IsFinite (Self.remaining new) };

    /// After a skip there may be a `next`.
    ghost skips_on: { (old new : Self) → Self.can_next old → IsFinite (Self.remaining old) → skips old new → Self.can_next new × IsFinite (Self.remaining new) };

    /// The number that falls with each item is never raised by a `next`, also where it gives `None`.
    ghost not_more: { (old : Self) (answer : Option Item) (new : Self) → Self.next_gives old answer new
        → size (Self.remaining new) ≤ size (Self.remaining old) };

    /// Nor is it by a skip.
    ghost skips_no_more: { (old new : Self) → skips old new → size (Self.remaining new) ≤ size (Self.remaining old) };

    /// Once its lists were closed, `None` comes.
    ghost closed: { (old mid : Self) (answer : Option Item) (new : Self) → closes old mid → Self.next_gives mid answer new → answer ≡ None };

    /// After `None` always `None` comes.
    ghost fused: { (old mid : Self) (answer : Option Item) (new : Self) → Self.next_gives old None mid → Self.next_gives mid answer new → answer ≡ None };
}
