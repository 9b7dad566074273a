//! The tree of a demo on a disk in memory.

ghost use Rattle.std.specs.Prelude.{◌≡◌, ◌≤◌, ◌<◌, ◌↔◌, ◌+◌, IsOk, IsErrOf, IfOk, OnOk};
ghost use Rattle.std.specs.String.{string_bytes};
ghost use Rattle.sd_io.specs.Files.{path_text};
ghost use Rattle.mem_io.specs.MemDisk.{mem_state, IsUncalled, KeepsCounts};
ghost use Rattle.demo_tree.specs.Demo.{IsDemo, demo_folder, demo_file, demo_ending, demo_bytes};
ghost use Rattle.demo_tree.specs.Building.{HasNextFolder};

use mem_io::{BuildFault, MemDisk};
use sd_base::NoMemory;
use std::alloc::Global;

/// How many folders there are.
const FOLDERS: u64 = 16;

/// The mode of each file.
const MODE: u32 = 0o644;

/// The tree of a demo of `n` files on a disk in memory. No call of it was made, and none is to fail. The file of a number,
/// counted from 0, is `/demo/dXX/fYYYYYYYY.txt`, XX being the number modulo 16 and YYYYYYYY the number; each third one ends
/// with `.md`. It has so many lines `one two N one` as the number has over a multiple of five, N being the number.
///
/// Refuses for want of memory alone.
pub fn demo_disk(alloc: Global, n: u64) -> Result<MemDisk, NoMemory>
    requires { n ≤ 100000 }
    ensures demo { IfOk result (λ disk. IsDemo n (mem_state disk).tree) }
    ensures uncalled { IfOk result IsUncalled }
{
    let mut disk = MemDisk::new(alloc);
    memory_alone(disk.add_dir("/demo"))?;
    for i in 0..n {
        add_folder(alloc, &mut disk, i)?;
        add_file(alloc, &mut disk, i)?;
    }
    Ok(disk)
}

/// Adds the folder of the next file, where it isn't there yet.
fn add_folder(alloc: Global, disk: &mut MemDisk, i: u64) -> Result<(), NoMemory>
    requires { IsDemo i (mem_state disk.old).tree }
    ensures added { OnOk result (HasNextFolder i (mem_state disk.new).tree) }
    ensures counts { KeepsCounts disk.old disk.new }
{
    if i >= FOLDERS {
        return Ok(());
    }
    let path = folder_path(alloc, i)?;
    memory_alone(disk.add_dir(path.as_str()))
}

/// Adds the next file to its folder.
fn add_file(alloc: Global, disk: &mut MemDisk, i: u64) -> Result<(), NoMemory>
    requires few { i < 100000 }
    requires folder { HasNextFolder i (mem_state disk.old).tree }
    ensures added { OnOk result (IsDemo (i + 1) (mem_state disk.new).tree) }
    ensures counts { KeepsCounts disk.old disk.new }
{
    let path = file_path(alloc, i)?;
    let text = text_of(alloc, i)?;
    memory_alone(disk.add_file(path.as_str(), text.as_bytes(), MODE))
}

/// What is built at a free place lacks nothing but memory.
fn memory_alone(built: Result<(), BuildFault>) -> Result<(), NoMemory>
    requires { IsErrOf built BuildFault.BadPath → ⊥ }
    ensures { IsOk result ↔ IsOk built }
{
    match built {
        Ok(()) => Ok(()),
        Err(BuildFault::NoMemory) => Err(NoMemory),
        Err(BuildFault::BadPath) => unreachable!(),
    }
}

/// The path of the folder of a file.
fn folder_path(alloc: Global, i: u64) -> Result<String, NoMemory>
    ensures { IfOk result (λ path. string_bytes path ≡ path_text (demo_folder i)) }
{
    let folder = i % FOLDERS;
    Ok(format!(in alloc; "/demo/d{folder:02}")?)
}

/// The path of a file.
fn file_path(alloc: Global, i: u64) -> Result<String, NoMemory>
    requires { i < 100000 }
    ensures { IfOk result (λ path. string_bytes path ≡ path_text (demo_file i).place) }
{
    let folder = i % FOLDERS;
    let ending = ending(i);
    Ok(format!(in alloc; "/demo/d{folder:02}/f{i:08}{ending}")?)
}

/// How the name of a file ends.
fn ending(i: u64) -> &'static str
    ensures { result.now ≡ demo_ending i }
{
    if i % 3 == 2 { ".md" } else { ".txt" }
}

/// The text of a file.
fn text_of(alloc: Global, i: u64) -> Result<String, NoMemory>
    ensures { IfOk result (λ text. string_bytes text ≡ demo_bytes i) }
{
    let line = format!(in alloc; "one two {i} one\n")?;
    let mut text = String::new(alloc);
    for _ in 0..i % 5 {
        text.push_str(line.as_str())?;
    }
    Ok(text)
}
