//! Disks that tell nothing of their trees, and change them under a walk.

ghost use Rattle.std.specs.Prelude.{◌≡◌, ◌<◌, ◌≤◌, ◌⊎◌};
ghost use Rattle.sd_io.specs.Count.{HasRisen};

use crate::asking::{MANY_OPEN, Question, Setting, check_lines, collected, given};
use crate::disks::{FOO, Node, Nodes, filled};
use mem_io::MemDisk;
use sd_io::{Disk, DiskFault, Ident, ListId, Meta, RawEntry, Text};
use std::alloc::Global;
use std::test::Fail;
use walkdir::ErrorKind;

/// How a disk differs from the one that it stands on.
#[derive(Drop)]
enum Difference {
    /// Every path leads to the top.
    Endless,
    /// The directory at this path is gone when its list is to be opened.
    Vanishing(Text),
    /// What stands at this path is gone when it is asked what it is.
    Unknown(Text),
}

/// A disk that stands on another and tells nothing of its tree. It serves walks alone: any other call ends for want of memory, and so
/// does a call that the other disk refuses.
#[derive(Drop)]
struct FakeDisk {
    disk: MemDisk,
    difference: Difference,
    faults: u64,
}

impl FakeDisk {
    fn new(disk: MemDisk, difference: Difference) -> FakeDisk {
        FakeDisk {
            disk,
            difference,
            faults: 0,
        }
    }

    /// Whether it isn't told what stands at this path.
    fn is_unknown(&self, path: &str) -> bool {
        matches!(&self.difference, Difference::Unknown(unknown) if unknown.as_str() == path)
    }

    /// Whether the directory at this path vanished.
    fn is_gone(&self, path: &str) -> bool {
        matches!(&self.difference, Difference::Vanishing(gone) if gone.as_str() == path)
    }
}

/// The path that a path stands for.
fn path_for<'a>(difference: &Difference, path: &'a str) -> &'a str {
    match difference {
        Difference::Endless => "/",
        Difference::Vanishing(_) | Difference::Unknown(_) => path,
    }
}

/// `Absent`, counted; `Failed` where the count stands at its last value.
fn absent(faults: &mut u64) -> DiskFault
    ensures answer { (result ≡ DiskFault.Absent) ⊎ (result ≡ DiskFault.Failed) }
    ensures risen { HasRisen faults.old faults.new }
    ensures rises { result ≡ DiskFault.Absent → faults.old < faults.new }
    ensures later { faults.old ≤ faults.new }
{
    if *faults == u64::MAX {
        return DiskFault::Failed;
    }
    *faults += 1;
    DiskFault::Absent
}

impl Disk for FakeDisk {
    ghost use Rattle.std.specs.Prelude.{false};
    ghost use Rattle.std.proofs.lemmas.Bool.{false≢true};
    ghost use Rattle.mem_io.specs.MemDisk.{mem_state};

    ghost tells = { false };

    ghost state = { λ fake. record (mem_state fake.disk) { faults = fake.faults } };

    ghost is_tree = { λ fake told. absurd (false≢true told) };

    ghost holds_present = { λ fake told. absurd (false≢true told) };

    fn stat(&mut self, path: &str, follow: bool) -> Result<Meta, DiskFault> {
        match self.disk.stat(path_for(&self.difference, path), follow) {
            Ok(meta) => Ok(meta),
            Err(_) => Err(DiskFault::NoMemory),
        }
    }

    fn ident(&mut self, path: &str) -> Result<Ident, DiskFault> {
        if self.is_unknown(path) {
            return Err(absent(&mut self.faults));
        }
        match self.disk.ident(path_for(&self.difference, path)) {
            Ok(ident) => Ok(ident),
            Err(_) => Err(DiskFault::NoMemory),
        }
    }

    fn resolve(&mut self, _alloc: Global, _path: &str) -> Result<Text, DiskFault> {
        Err(DiskFault::NoMemory)
    }

    fn open_dir(&mut self, path: &str) -> Result<ListId, DiskFault> {
        if self.is_gone(path) {
            return Err(absent(&mut self.faults));
        }
        match self.disk.open_dir(path_for(&self.difference, path)) {
            Ok(list) => Ok(list),
            Err(_) => Err(DiskFault::NoMemory),
        }
    }

    fn next_entry(&mut self, alloc: Global, list: ListId) -> Result<Option<RawEntry>, DiskFault> {
        match self.disk.next_entry(alloc, list) {
            Ok(entry) => Ok(entry),
            Err(_) => {
                self.faults = self.faults.saturating_add(1);
                Err(DiskFault::Failed)
            }
        }
    }

    fn close_dir(&mut self, list: ListId) {
        self.disk.close_dir(list);
    }

    fn read_file(&mut self, _alloc: Global, _path: &str) -> Result<Vec<u8>, DiskFault> {
        Err(DiskFault::NoMemory)
    }

    fn create_like(&mut self, _path: &str, _like: &str) -> Result<(), DiskFault> {
        Err(DiskFault::NoMemory)
    }

    fn write_file(&mut self, _path: &str, _bytes: &[u8]) -> Result<(), DiskFault> {
        Err(DiskFault::NoMemory)
    }

    fn sync(&mut self, _path: &str) -> Result<(), DiskFault> {
        Err(DiskFault::NoMemory)
    }

    fn rename(&mut self, _from: &str, _to: &str) -> Result<(), DiskFault> {
        Err(DiskFault::NoMemory)
    }

    fn remove(&mut self, _path: &str) -> Result<(), DiskFault> {
        Err(DiskFault::NoMemory)
    }

    fn sync_dir(&mut self, _path: &str) -> Result<(), DiskFault> {
        Err(DiskFault::NoMemory)
    }
}

/// A directory, which is all that a disk holds.
const ONE: Nodes = &[("/d", Node::Folder)];

/// How many entries a disk has whose every directory holds one directory, for ever, or the kind of the error, by a cap of 1000.
fn collected_endless(
    alloc: Global,
    settings: &[Setting],
    max_open: usize,
) -> Result<Result<usize, ErrorKind>, Fail> {
    let mut disk = FakeDisk::new(filled(alloc, ONE)?, Difference::Endless);
    let question = Question {
        root: "/t",
        settings,
        sorts: false,
    };
    collected(alloc, &mut disk, &question, max_open, 1000)
}

#[test]
fn an_endless_disk_has_too_many_entries(rt: HostRuntime) -> Result<(), Fail> {
    let alloc = rt.alloc();
    for max_open in [1, 2, MANY_OPEN] {
        for follow in [false, true] {
            let collected = collected_endless(alloc, &[Setting::FollowLinks(follow)], max_open)?;
            assert!(rt; collected == Err(ErrorKind::TooMany), "{max_open} open");
        }
    }
    let shallow = collected_endless(alloc, &[Setting::MaxDepth(999)], MANY_OPEN)?;
    assert!(rt; shallow == Ok(1000));
    Ok(())
}

/// A name, whether the directory at a path vanishes or else isn't told, that path, how `foo` is walked, and what it gives, a line an item.
type Case = (
    &'static str,
    bool,
    &'static str,
    Question<'static>,
    &'static [&'static str],
);

const CASES: &[Case] = &[
    (
        "a directory may vanish before it is opened, in a sorted walk",
        true,
        "foo/abc",
        Question {
            root: "foo",
            settings: &[Setting::FollowLinks(true)],
            sorts: true,
        },
        &[
            "0 d foo",
            "1 d foo/abc",
            "1 ! IO error for operation on foo/abc: input or output failed",
            "1 f foo/def",
        ],
    ),
    (
        "a directory may vanish before it is opened",
        true,
        "foo/abc",
        Question {
            root: "foo",
            settings: &[],
            sorts: false,
        },
        &[
            "0 d foo",
            "1 f foo/def",
            "1 d foo/abc",
            "1 ! IO error for operation on foo/abc: input or output failed",
        ],
    ),
    (
        "a root may vanish before it is opened",
        true,
        "foo",
        Question {
            root: "foo",
            settings: &[],
            sorts: false,
        },
        &[
            "0 d foo",
            "0 ! IO error for operation on foo: input or output failed",
        ],
    ),
    (
        "a directory that vanished is foreign",
        false,
        "foo/abc",
        Question {
            root: "foo",
            settings: &[Setting::SameFileSystem(true)],
            sorts: true,
        },
        &["0 d foo", "1 d foo/abc", "1 f foo/def"],
    ),
];

/// How the disk of a row differs.
fn difference_of(alloc: Global, case: &Case) -> Result<Difference, Fail> {
    let path = Text::new(alloc, case.2)?;
    if case.1 {
        Ok(Difference::Vanishing(path))
    } else {
        Ok(Difference::Unknown(path))
    }
}

/// What a row gives.
fn given_changing(alloc: Global, case: &Case) -> Result<String, Fail> {
    let difference = difference_of(alloc, case)?;
    let mut disk = FakeDisk::new(filled(alloc, FOO)?, difference);
    given(alloc, &mut disk, &case.3, MANY_OPEN)
}

#[test]
fn a_directory_may_vanish_under_a_walk(rt: HostRuntime) -> Result<(), Fail> {
    for case in CASES {
        let given = given_changing(rt.alloc(), case)?;
        check_lines(&rt, case.0, given.as_str(), case.4);
    }
    Ok(())
}
