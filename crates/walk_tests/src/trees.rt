//! Random trees, and random walks over them.

ghost use Rattle.std.specs.Prelude.{◌<◌};

use crate::asking::{Question, Setting};
use mem_io::MemDisk;
use std::alloc::{AllocError, Global};
use std::test::Fail;

/// Pseudorandom numbers.
#[derive(Drop)]
pub(crate) struct Random {
    state: u64,
}

impl Random {
    /// Numbers of their own for each seed.
    pub(crate) fn new(seed: u64) -> Random {
        let mut random = Random { state: seed };
        for _ in 0..8 {
            random.step();
        }
        random
    }

    fn step(&mut self) {
        self.state = self
            .state
            .wrapping_mul(6_364_136_223_846_793_005)
            .wrapping_add(1_442_695_040_888_963_407);
    }

    /// A number below this one.
    fn below(&mut self, bound: u64) -> u64
        requires { 0 < bound }
        ensures { result < bound }
    {
        self.step();
        (self.state >> 33) % bound
    }

    fn yes_or_no(&mut self) -> bool {
        self.below(2) == 0
    }
}

/// One of these paths, or the root.
fn one_of<'a>(random: &mut Random, paths: &'a [String]) -> &'a str {
    let index = random.below(12) as usize;
    match paths.get(index) {
        Some(path) => path.as_str(),
        None => "/r",
    }
}

/// Where a link leads.
fn target<'a>(random: &mut Random, paths: &'a [String]) -> &'a str {
    match random.below(8) {
        0 => ".",
        1 => "..",
        2 => "none",
        3 => "/",
        _ => one_of(random, paths),
    }
}

/// The nodes that a random tree has below its root.
const NODES: u64 = 8;

/// A path below the root or one of these folders.
fn random_path(
    alloc: Global,
    random: &mut Random,
    folders: &[String],
    number: u64,
) -> Result<String, AllocError> {
    let first = random.below(10);
    let folder = one_of(random, folders);
    format!(in alloc; "{folder}/{first}{number}")
}

/// Adds the nodes below `/r`.
fn add_nodes(alloc: Global, random: &mut Random, disk: &mut MemDisk) -> Result<(), Fail> {
    let mut folders = Vec::new(alloc);
    for number in 0..NODES {
        let path = random_path(alloc, random, &folders, number)?;
        if add(random, disk, path.as_str(), &folders)? {
            folders.push(path)?;
        }
    }
    Ok(())
}

/// Adds a tree below `/r`, and a link `/l` to `/r`.
fn add_tree(alloc: Global, random: &mut Random, disk: &mut MemDisk) -> Result<(), Fail> {
    disk.add_dir("/r")?;
    disk.add_link("/l", "r")?;
    add_nodes(alloc, random, disk)
}

/// A tree below `/r`, with links, on two devices, and a link `/l` to `/r`.
pub(crate) fn random_tree(alloc: Global, random: &mut Random) -> Result<MemDisk, Fail> {
    let mut disk = MemDisk::new(alloc);
    add_tree(alloc, random, &mut disk)?;
    Ok(disk)
}

/// Adds a node of some kind, and answers whether it is a directory.
fn add(
    random: &mut Random,
    disk: &mut MemDisk,
    path: &str,
    folders: &[String],
) -> Result<bool, Fail> {
    match random.below(10) {
        0..=4 => {
            disk.add_dir(path)?;
            if random.below(6) == 0 {
                disk.set_dev(path, 2)?;
            }
            return Ok(true);
        }
        5 | 6 => disk.add_file(path, b"1", 0o640)?,
        7 => disk.add_other(path)?,
        _ => disk.add_link(path, target(random, folders))?,
    }
    Ok(false)
}

/// A random question.
#[derive(Drop)]
pub(crate) struct RandomQuestion {
    root: &'static str,
    settings: [Setting; 6],
    sorts: bool,
}

impl RandomQuestion {
    /// As it is asked.
    pub(crate) fn as_asked(&self) -> Question<'_> {
        Question {
            root: self.root,
            settings: &self.settings,
            sorts: self.sorts,
        }
    }
}

/// A random root with random options.
pub(crate) fn random_question(random: &mut Random) -> RandomQuestion {
    let depths = [usize::MAX, usize::MAX, 3, 2, 1];
    let most = depths[random.below(5) as usize];
    let roots = ["/r", "/r", "/l", "/", "r/", "/none"];
    let root = roots[random.below(6) as usize];
    let settings = [
        Setting::MaxDepth(most),
        Setting::MinDepth(random.below(3) as usize),
        Setting::FollowLinks(random.yes_or_no()),
        Setting::FollowRootLinks(random.yes_or_no()),
        Setting::ContentsFirst(random.yes_or_no()),
        Setting::SameFileSystem(random.yes_or_no()),
    ];
    RandomQuestion {
        root,
        settings,
        sorts: random.yes_or_no(),
    }
}
