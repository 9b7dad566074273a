//! Renames files by a pattern and a text with references to its groups: `example_rename FIND REPLACE_WITH`.
//!
//! Standard input has a name on each line. They are made as files on a disk in memory, so that nothing is touched; by
//! `host_io::HostDisk` the same calls rename the host's files.
#![tactic(auto)]

ghost use Rattle.std.specs.Prelude.{◌≡◌, ◌≢◌, ◌↔◌, false, IsTrue, IfOk, IfErr};
ghost use Rattle.sd_io.specs.Disk.{SameTree};
ghost use Rattle.sd_io.specs.Files.{LeadsNowhere, Renames};

use anyhow::{Error, Result};
use mem_io::MemDisk;
use sd_io::{Disk, DiskFault};
use sd_replace::Replacer;
use std::{env, io};

fn main(rt: HostRuntime) -> Result<()> {
    let words: Vec<String> = env::args(&rt)?.skip(1).collect(rt.alloc())?;
    rename_named(&rt, &words)
}

/// Renames the files that standard input names, as the words of a command ask for.
fn rename_named(rt: &HostRuntime, words: &[String]) -> Result<()> {
    let names = io::read_to_string(rt.alloc(), rt.stdin())?;
    match words {
        [find, replace_with] => rename_by(rt, find, replace_with, &names),
        _ => Err(Error::msg("the words are FIND REPLACE_WITH")),
    }
}

/// Renames files by a pattern and a text with references to its groups.
fn rename_by(rt: &HostRuntime, find: &str, replace_with: &str, names: &str) -> Result<()> {
    let replacer = Replacer::new(rt.alloc(), find, replace_with, false, None, 1)?;
    let renamed = rename_all(rt, &replacer, names);
    drop(replacer);
    renamed
}

/// Makes an empty file of each name, and renames it.
fn rename_all(rt: &HostRuntime, by: &Replacer, names: &str) -> Result<()> {
    let mut disk = MemDisk::new(rt.alloc());
    for name in names.lines() {
        disk.add_file(name, b"", 0o644)?;
        show(rt, &mut disk, by, name)?;
    }
    Ok(())
}

/// Renames a file by its name, and prints what became of it.
fn show<D: Disk>(rt: &HostRuntime, disk: &mut D, by: &Replacer, name: &str) -> Result<()> {
    let new = String::from_utf8(by.replace(name.as_bytes())?)?;
    match rename(disk, name, &new)? {
        true => println!(rt; "{name} -> {new}")?,
        false => println!(rt; "{name} stays")?,
    }
    Ok(())
}

/// Renames a file, unless something stands under the new name: then it stays, as all else does.
fn rename<D: Disk>(disk: &mut D, from: &str, to: &str) -> Result<bool, DiskFault>
    ensures free { IsTrue D.tells → IfOk result (λ renamed. IsTrue renamed ↔ LeadsNowhere (D.state disk.old) to.now false) }
    ensures renamed { IsTrue D.tells → IfOk result (λ renamed. IsTrue renamed → Renames (D.state disk.old) from.now to.now (D.state disk.new)) }
    ensures stays { IfOk result (λ renamed. renamed ≡ false → SameTree (D.state disk.old) (D.state disk.new)) }
    ensures refused { IfErr result (λ fault. fault ≢ DiskFault.Failed → SameTree (D.state disk.old) (D.state disk.new)) }
{
    match disk.stat(to, false) {
        Ok(_) => Ok(false),
        Err(DiskFault::Absent) => {
            disk.rename(from, to)?;
            Ok(true)
        }
        Err(fault) => Err(fault),
    }
}
