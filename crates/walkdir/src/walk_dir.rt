//! What is walked, and how.

ghost use Rattle.std.specs.Prelude.{◌≡◌, ℕ, false, min, max, IfOk};
ghost use Rattle.sd_io.specs.Tree.{Tree};
ghost use Rattle.walk_rest.specs.Plan.{Comparison, Plan};
ghost use Rattle.walk_rest.specs.Listing.{IsRootPlan, first_options, manner_of};
ghost use Rattle.walk_rest.specs.Rest.{start};
ghost use Rattle.walk_steps.specs.Causes.{faults_due};
ghost use Rattle.walk_steps.specs.Inside.{HasRest, levels_of};
ghost use Rattle.walk_steps.specs.Listed.{IsToListOnTop, waits_in};
ghost use Rattle.walk_steps.specs.Sound.{IsSound, opens};
ghost use Rattle.walkdir.specs.Steps.{Begins};

use crate::IntoIter;
use sd_io::{Disk, NoMemory, Text};
use std::alloc::Global;
use std::cmp::Ordering;
use walk_rest::{ByCmp, ByFileName, ByKey, DirEntry, Entries, Level, Options, Order, Unsorted};
use walk_steps::Inside;

/// A root that is walked, and how. Its setters take and give it.
#[derive(Drop)]
pub struct WalkDir<S> {
    /// What the walk takes its memory from.
    pub alloc: Global,
    /// The path of the root.
    pub root: Text,
    /// How the walk goes.
    pub options: Options,
    /// How the entries of one directory are ordered.
    pub order: S,
}

impl WalkDir<Unsorted> {
    /// A root with no bound on depths, ten open lists, a directory before its contents, no link followed but the root, all
    /// devices and the disk's order. Refuses for want of memory alone.
    pub fn new(alloc: Global, root: &str) -> Result<WalkDir<Unsorted>, NoMemory>
        ensures root { IfOk result (λ walk. walk.root ≡ root.now) }
        ensures options { IfOk result (λ walk. walk.options ≡ first_options) }
    {
        Ok(WalkDir {
            alloc,
            root: Text::new(alloc, root)?,
            options: Options::default(),
            order: Unsorted,
        })
    }
}

impl<S> WalkDir<S> {
    /// An entry at a lesser depth is no item. A depth beyond the greatest depth counts as that.
    pub fn min_depth(mut self, depth: usize) -> WalkDir<S>
        ensures { result ≡ record self { options = record self.options { min_depth = min depth self.options.max_depth } } }
    {
        self.options.min_depth = depth.min(self.options.max_depth);
        self
    }

    /// An entry at a greater depth is no item, and no directory at this depth is opened. A depth below the least depth counts
    /// as that.
    pub fn max_depth(mut self, depth: usize) -> WalkDir<S>
        ensures { result ≡ record self { options = record self.options { max_depth = max depth self.options.min_depth } } }
    {
        self.options.max_depth = depth.max(self.options.min_depth);
        self
    }

    /// Whether links are followed.
    pub fn follow_links(mut self, yes: bool) -> WalkDir<S>
        ensures { result ≡ record self { options = record self.options { follow_links = yes } } }
    {
        self.options.follow_links = yes;
        self
    }

    /// Whether the root is followed, where it is a link and links aren't followed.
    pub fn follow_root_links(mut self, yes: bool) -> WalkDir<S>
        ensures { result ≡ record self { options = record self.options { follow_root_links = yes } } }
    {
        self.options.follow_root_links = yes;
        self
    }

    /// How many lists of directories are open at most; 0 means 1.
    pub fn max_open(mut self, n: usize) -> WalkDir<S>
        ensures { result ≡ record self { options = record self.options { max_open = n } } }
    {
        self.options.max_open = n;
        self
    }

    /// Whether a directory comes after its contents.
    pub fn contents_first(mut self, yes: bool) -> WalkDir<S>
        ensures { result ≡ record self { options = record self.options { contents_first = yes } } }
    {
        self.options.contents_first = yes;
        self
    }

    /// Whether directories on another device than the root's aren't entered.
    pub fn same_file_system(mut self, yes: bool) -> WalkDir<S>
        ensures { result ≡ record self { options = record self.options { same_file_system = yes } } }
    {
        self.options.same_file_system = yes;
        self
    }

    /// Sorted by a comparison, which is to be a total preorder.
    pub fn sort_by<F: Fn(&DirEntry, &DirEntry) -> Ordering>(self, cmp: F) -> WalkDir<ByCmp<F>>
    where
        S: Drop,
        ensures same { (result.root ≡ self.root) × (result.options ≡ self.options) }
        ensures order { result.order.compare ≡ cmp }
    {
        self.ordered_by(ByCmp { compare: cmp })
    }

    /// Sorted by a key of each entry.
    pub fn sort_by_key<K: Ord + Drop, F: Fn(&DirEntry) -> K>(self, key: F) -> WalkDir<ByKey<K, F>>
    where
        S: Drop,
        ensures same { (result.root ≡ self.root) × (result.options ≡ self.options) }
        ensures order { result.order.key ≡ key }
    {
        self.ordered_by(ByKey::new(key))
    }

    /// Sorted by the bytes of the file names.
    pub fn sort_by_file_name(self) -> WalkDir<ByFileName>
    where
        S: Drop,
        ensures same { (result.root ≡ self.root) × (result.options ≡ self.options) }
    {
        self.ordered_by(ByFileName)
    }

    /// The same, with this order.
    fn ordered_by<O>(self, order: O) -> WalkDir<O>
    where
        S: Drop,
        ensures same { (result.root ≡ self.root) × (result.options ≡ self.options) }
        ensures order { result.order ≡ order }
    {
        WalkDir {
            alloc: self.alloc,
            root: self.root,
            options: self.options,
            order,
        }
    }

    /// The walk, of which the whole listing is due. Nothing is asked of the disk yet.
    pub fn into_iter<'d, D: Disk>(self, disk: &'d mut D) -> IntoIter<'d, D, S>
    where
        S: Order + Drop,
        ensures same_reference { result.disk.ghost_name ≡ disk.entry.ghost_name }
        ensures disk { result.disk.now ≡ disk.old }
        ensures order { result.inside.order ≡ self.order }
        ensures options { result.inside.options ≡ self.options }
        ensures rest { (by : Comparison) (plan : Plan) → IsRootPlan (D.state disk.old).tree (manner_of (D.state disk.old).tree self.options (S.sorts self.order) by self.root) self.root plan
            → HasRest (D.state disk.old) (S.sorts self.order) by result.inside (start plan) }
        ensures sound { IsSound (D.state disk.old) (S.sorts self.order) result.inside }
        ensures none_open { opens (levels_of result.inside) ≡ 0 }
        ensures none_waits { waits_in (levels_of result.inside) ≡ 0 }
        ensures none_due { faults_due (levels_of result.inside) ≡ 0 }
        ensures none_to_list { (tree : Tree) (deepest : ℕ) → IsToListOnTop tree deepest result.inside.top 0 }
        ensures not_entered { result.gave_directory ≡ false }
    {
        IntoIter::new(disk, self.begun())
    }

    /// What the walk keeps at first.
    fn begun(self) -> Inside<S>
        ensures { Begins self.options self.order self.root result }
    {
        Inside {
            alloc: self.alloc,
            options: self.options,
            order: self.order,
            root: self.root,
            device: 0,
            stack: Vec::new(self.alloc),
            top: Some(Level {
                folder: None,
                first: None,
                entries: Entries::Unread,
                faults: Vec::new(self.alloc),
            }),
        }
    }
}
