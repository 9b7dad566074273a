//! How a walk goes.

/// The options of a walk.
#[derive(Clone, Copy, Drop)]
pub struct Options {
    /// An entry at a lesser depth is no item.
    pub min_depth: usize,
    /// An entry at a greater depth is no item; a directory at this depth isn't opened.
    pub max_depth: usize,
    /// How many lists of directories are open at most; 0 means 1.
    pub max_open: usize,
    /// Whether a directory comes after its contents.
    pub contents_first: bool,
    /// Whether links are followed.
    pub follow_links: bool,
    /// Whether the root is followed, where it is a link and links aren't followed.
    pub follow_root_links: bool,
    /// Whether directories on another device than the root's aren't entered.
    pub same_file_system: bool,
}

impl Default for Options {
    ghost use Rattle.std.specs.Prelude.{◌≡◌};
    ghost use Rattle.walk_rest.specs.Listing.{first_options};

    ghost is_default = { λ options. options ≡ first_options };

    /// No bound on depths, ten open lists, a directory before its contents, no link followed but the root, all devices.
    fn default() -> Options {
        Options {
            min_depth: 0,
            max_depth: usize::MAX,
            max_open: 10,
            contents_first: false,
            follow_links: false,
            follow_root_links: true,
            same_file_system: false,
        }
    }
}
