//! Leaving directories.

ghost use Rattle.std.specs.Prelude.{◌≡◌, ◌+◌, ◌∷◌, ◌≤◌, IsTrue, []};
ghost use Rattle.sd_io.specs.Disk.{SameTree};
ghost use Rattle.walk_rest.specs.Plan.{Comparison};
ghost use Rattle.walk_rest.specs.Rest.{Rest};
ghost use Rattle.walk_steps.specs.Causes.{faults_due};
ghost use Rattle.walk_steps.specs.Inside.{HasRest, SameWalk, levels_of};
ghost use Rattle.walk_steps.specs.Listed.{waits_in};
ghost use Rattle.walk_steps.specs.Sound.{AreSound, IsSound, SameOtherThan, SameOthers, StaysWithin, open_in};
ghost use Rattle.walk_steps.specs.Steps.{HasUnreadTop, SkipsTo};
ghost use Rattle.walk_steps.specs.Work.{left_to_do};

use crate::Inside;
use sd_io::Disk;
use walk_rest::{Entries, Level, Order};

/// Closes a level's list, if it is open.
pub fn close_level<D: Disk>(disk: &mut D, level: Level)
    requires { AreSound (D.state disk.old) (level ∷ []) }
    ensures others { SameOtherThan (D.state disk.old) level.entries (D.state disk.new) }
    ensures count { (D.state disk.new).open_count + open_in level.entries ≡ (D.state disk.old).open_count }
    ensures most { (D.state disk.new).open_most ≡ (D.state disk.old).open_most }
    ensures listed { (D.state disk.new).listed ≡ (D.state disk.old).listed }
    ensures tree { SameTree (D.state disk.old) (D.state disk.new) }
    ensures faults { (D.state disk.new).faults ≡ (D.state disk.old).faults }
{
    if let Entries::Open(list) = level.entries {
        disk.close_dir(list);
    }
}

/// Leaves the directory that was entered last, with all that is due of it: its list is closed, and never opened. Does nothing where only the root stands.
pub fn skip_top<D: Disk, S: Order>(disk: &mut D, inside: &mut Inside<S>)
    requires { IsSound (D.state disk.old) (S.sorts inside.old.order) inside.old }
    ensures skipped { IsTrue D.tells → (by : Comparison) → (rest : Rest) → HasRest (D.state disk.old) (S.sorts inside.old.order) by inside.old rest
        → SkipsTo (S.sorts inside.old.order) by rest (D.state disk.new) inside.new }
    ensures sound { IsSound (D.state disk.new) (S.sorts inside.new.order) inside.new }
    ensures same { SameWalk inside.old inside.new }
    ensures within { StaysWithin 0 (D.state disk.old) (levels_of inside.old) (D.state disk.new) (levels_of inside.new) }
    ensures others { SameOthers (D.state disk.old) (levels_of inside.old) (D.state disk.new) (levels_of inside.new) }
    ensures not_more { left_to_do (D.state disk.new) inside.new ≤ left_to_do (D.state disk.old) inside.old }
    ensures waits { waits_in (levels_of inside.new) ≤ waits_in (levels_of inside.old) }
    ensures due { faults_due (levels_of inside.new) ≤ faults_due (levels_of inside.old) }
    ensures listed { (D.state disk.new).listed ≡ (D.state disk.old).listed }
    ensures unread { HasUnreadTop inside.new.top → levels_of inside.new ≡ levels_of inside.old }
    ensures tree { SameTree (D.state disk.old) (D.state disk.new) }
    ensures faults { (D.state disk.new).faults ≡ (D.state disk.old).faults }
{
    let Some(level) = inside.top.take() else {
        return;
    };
    match inside.stack.pop() {
        None => inside.top = Some(level),
        Some(below) => {
            close_level(disk, level);
            inside.top = Some(below);
        }
    }
}

/// Closes every list that the walk holds, and ends it.
pub fn give_up<D: Disk, S>(disk: &mut D, inside: &mut Inside<S>)
    requires { AreSound (D.state disk.old) (levels_of inside.old) }
    ensures gone { levels_of inside.new ≡ [] }
    ensures same { SameWalk inside.old inside.new }
    ensures within { StaysWithin 0 (D.state disk.old) (levels_of inside.old) (D.state disk.new) [] }
    ensures others { SameOthers (D.state disk.old) (levels_of inside.old) (D.state disk.new) [] }
    ensures listed { (D.state disk.new).listed ≡ (D.state disk.old).listed }
    ensures tree { SameTree (D.state disk.old) (D.state disk.new) }
    ensures faults { (D.state disk.new).faults ≡ (D.state disk.old).faults }
{
    if let Some(level) = inside.top.take() {
        close_level(disk, level);
    }
    while let Some(level) = inside.stack.pop() {
        close_level(disk, level);
    }
}
