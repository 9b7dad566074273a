//! Disks that tell nothing of their trees, and lie about them.

ghost use Rattle.std.specs.Prelude.{◌≡◌, IfOk, IfErr, IsErr, Ok};

use crate::disks::{NEW, OLD, ONE, TWO_FILES, filled, holds};
use crate::running::{one_by_1, run_words};
use mem_io::MemDisk;
use sd_core::{Error, sweep_capped};
use sd_io::{Disk, DiskFault, Globs, Ident, Kind, ListId, Meta, RawEntry, Text};
use sd_replace::Replacer;
use std::alloc::Global;
use std::test::Fail;

/// What is told of a disk that isn't so.
#[derive(Clone, Copy)]
enum Lie {
    /// Every path leads to the top.
    Endless,
    /// Every file has this many bytes.
    Length(u64),
}

/// A disk that stands on another, tells nothing of its tree, and lies. A call that the other one refuses ends for want of memory, but
/// for one that lists.
#[derive(Drop)]
struct LyingDisk {
    disk: MemDisk,
    lie: Lie,
    /// How many calls were made that may change the tree.
    writes: u64,
}

impl LyingDisk {
    fn new(disk: MemDisk, lie: Lie) -> LyingDisk {
        LyingDisk {
            disk,
            lie,
            writes: 0,
        }
    }
}

/// The path that a path stands for.
fn path_for<'a>(lie: Lie, path: &'a str) -> &'a str {
    match lie {
        Lie::Endless => "/",
        Lie::Length(_) => path,
    }
}

/// What is told of a node.
fn told(lie: Lie, meta: Meta) -> Meta {
    match (lie, meta.kind) {
        (Lie::Length(len), Kind::File) => Meta {
            kind: meta.kind,
            len,
        },
        _ => meta,
    }
}

/// An answer, with want of memory as the cause of each refusal.
fn or_no_memory<T>(answer: Result<T, DiskFault>) -> Result<T, DiskFault>
    ensures given { IfOk result (λ given. answer ≡ Ok given) }
    ensures refused { IfErr result (λ fault. (fault ≡ DiskFault.NoMemory) × IsErr answer) }
{
    match answer {
        Ok(given) => Ok(given),
        Err(_) => Err(DiskFault::NoMemory),
    }
}

impl Disk for LyingDisk {
    ghost use Rattle.std.specs.Prelude.{false};
    ghost use Rattle.std.proofs.lemmas.Bool.{false≢true};
    ghost use Rattle.sd_io.specs.Disk.{untold_tree, untold_outcomes};
    ghost use Rattle.mem_io.specs.MemDisk.{mem_state};

    ghost tells = { false };

    ghost state = { λ lying. record (mem_state lying.disk) { tree = untold_tree; clock = 0; outcomes = untold_outcomes } };

    ghost is_tree = { λ lying told. absurd (false≢true told) };

    ghost holds_present = { λ lying told. absurd (false≢true told) };

    fn stat(&mut self, path: &str, follow: bool) -> Result<Meta, DiskFault> {
        let meta = or_no_memory(self.disk.stat(path_for(self.lie, path), follow))?;
        Ok(told(self.lie, meta))
    }

    fn ident(&mut self, path: &str) -> Result<Ident, DiskFault> {
        or_no_memory(self.disk.ident(path_for(self.lie, path)))
    }

    fn resolve(&mut self, alloc: Global, path: &str) -> Result<Text, DiskFault> {
        or_no_memory(self.disk.resolve(alloc, path_for(self.lie, path)))
    }

    fn open_dir(&mut self, path: &str) -> Result<ListId, DiskFault> {
        or_no_memory(self.disk.open_dir(path_for(self.lie, path)))
    }

    fn next_entry(&mut self, alloc: Global, list: ListId) -> Result<Option<RawEntry>, DiskFault> {
        self.disk.next_entry(alloc, list)
    }

    fn close_dir(&mut self, list: ListId) {
        self.disk.close_dir(list);
    }

    fn read_file(&mut self, alloc: Global, path: &str) -> Result<Vec<u8>, DiskFault> {
        or_no_memory(self.disk.read_file(alloc, path_for(self.lie, path)))
    }

    fn create_like(&mut self, path: &str, like: &str) -> Result<(), DiskFault> {
        self.writes = self.writes.saturating_add(1);
        or_no_memory(self.disk.create_like(path, like))
    }

    fn write_file(&mut self, path: &str, bytes: &[u8]) -> Result<(), DiskFault> {
        self.writes = self.writes.saturating_add(1);
        or_no_memory(self.disk.write_file(path, bytes))
    }

    fn sync(&mut self, path: &str) -> Result<(), DiskFault> {
        self.writes = self.writes.saturating_add(1);
        or_no_memory(self.disk.sync(path))
    }

    fn rename(&mut self, from: &str, to: &str) -> Result<(), DiskFault> {
        self.writes = self.writes.saturating_add(1);
        or_no_memory(self.disk.rename(from, to))
    }

    fn remove(&mut self, path: &str) -> Result<(), DiskFault> {
        self.writes = self.writes.saturating_add(1);
        or_no_memory(self.disk.remove(path))
    }

    fn sync_dir(&mut self, path: &str) -> Result<(), DiskFault> {
        self.writes = self.writes.saturating_add(1);
        or_no_memory(self.disk.sync_dir(path))
    }
}

/// A disk whose every directory holds one directory, for ever.
fn endless(alloc: Global) -> Result<LyingDisk, Fail> {
    let mut disk = MemDisk::new(alloc);
    disk.add_dir("/d")?;
    Ok(LyingDisk::new(disk, Lie::Endless))
}

/// The glob that all files fit.
fn all_files(alloc: Global) -> Result<Globs, Fail> {
    let mut globs = Globs::new(alloc);
    globs.push("**")?;
    Ok(globs)
}

/// Whether a command on a disk is refused since a thousand entries are listed. What it ends with is let go here, so that tests are
/// quickly proved.
fn lists_a_thousand(
    alloc: Global,
    disk: &mut LyingDisk,
    globs: &Globs,
    replacer: &Replacer,
) -> bool {
    let answer = sweep_capped(alloc, disk, "/t", globs, replacer, 1000);
    let is_too_many = matches!(&answer, Err(Error::TooMany));
    drop(answer);
    is_too_many
}

/// The same, with the replacer made.
fn lists_a_thousand_by(alloc: Global, disk: &mut LyingDisk, globs: &Globs) -> Result<bool, Fail> {
    let replacer = one_by_1(alloc)?;
    let is_too_many = lists_a_thousand(alloc, disk, globs, &replacer);
    drop(replacer);
    Ok(is_too_many)
}

/// Whether a command on all files of a disk is refused so, and nothing is written.
fn lists_a_thousand_alone(alloc: Global, disk: &mut LyingDisk) -> Result<bool, Fail> {
    let globs = all_files(alloc)?;
    let is_too_many = lists_a_thousand_by(alloc, disk, &globs)?;
    Ok(is_too_many && disk.writes == 0)
}

#[test]
fn an_endless_disk_has_too_many_entries_and_is_not_written(rt: HostRuntime) -> Result<(), Fail> {
    let mut disk = endless(rt.alloc())?;
    let is_refused = lists_a_thousand_alone(rt.alloc(), &mut disk)?;
    assert!(rt; is_refused);
    Ok(())
}

/// How long each file is said to be, what a command reports, and what the file that it chooses by its name holds then.
#[derive(Clone, Copy)]
struct Length {
    len: u64,
    report: &'static [u8],
    bytes: &'static [u8],
}

const LENGTHS: &[Length] = &[
    Length {
        len: 0,
        report: b"chosen 0, changed 0, replaced 0\n",
        bytes: OLD,
    },
    Length {
        len: 1 << 60,
        report: b"chosen 1, changed 1, replaced 2\n",
        bytes: NEW,
    },
];

/// The two files, which are said to be so long.
fn of_length(alloc: Global, len: u64) -> Result<LyingDisk, Fail> {
    let disk = filled(alloc, TWO_FILES)?;
    Ok(LyingDisk::new(disk, Lie::Length(len)))
}

/// Whether a command that chooses one of the two files ends well, and reports this.
fn reports(alloc: Global, disk: &mut LyingDisk, report: &[u8]) -> Result<bool, Fail> {
    let ran = run_words(alloc, disk, &["--root", "/t", "--", "one", "1", "*.txt"])?;
    Ok(ran.outcome.status == 0 && ran.out.as_slice() == report)
}

/// Whether the chosen file holds these bytes then, and the other one is old.
fn is_left(alloc: Global, disk: &MemDisk, bytes: &[u8]) -> Result<bool, Fail> {
    Ok(holds(alloc, disk, "/t/a.txt", bytes)? && holds(alloc, disk, "/t/b.md", ONE)?)
}

/// Whether the command reports what it is to, whether it leaves what it is to, and whether it wrote.
fn seen_on(
    alloc: Global,
    lying: &mut LyingDisk,
    length: &Length,
) -> Result<(bool, bool, bool), Fail> {
    let is_reported = reports(alloc, lying, length.report)?;
    let is_left = is_left(alloc, &lying.disk, length.bytes)?;
    Ok((is_reported, is_left, lying.writes > 0))
}

/// The same, with the disk made.
fn seen(alloc: Global, length: &Length) -> Result<(bool, bool, bool), Fail> {
    let mut lying = of_length(alloc, length.len)?;
    seen_on(alloc, &mut lying, length)
}

#[test]
fn a_file_holds_what_is_read_of_it_however_long_it_is_said_to_be(
    rt: HostRuntime,
) -> Result<(), Fail> {
    for length in LENGTHS {
        let len = length.len;
        let (is_reported, is_left, has_written) = seen(rt.alloc(), length)?;
        assert!(rt; is_reported, "{len}");
        assert!(rt; is_left, "{len}");
        assert_eq!(rt; has_written, len > 0, "{len}");
    }
    Ok(())
}
